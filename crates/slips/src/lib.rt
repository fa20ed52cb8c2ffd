// A clearing that writes a slip, and the slip taken back (document 02, W7). What is said of the calls is in the crate image, and of the functions
// inside in specs/. A slip has records of edition 2.

#![tactic(auto)]

ghost use Rattle.std.specs.Prelude.{◌≡◌, true, ◌++◌, ◌≤◌, length, drop};
ghost use Rattle.finite.specs.Below.{count, same};
ghost use Rattle.table.specs.Sound.{sound};
ghost use Rattle.table.specs.Answer.{answer_of};
ghost use Rattle.image.specs.Image.{Bytes};
ghost use Rattle.image.specs.Slip.{changed, slip, slip_size, clear_slip_call, rebuilt, take_back_call};
ghost use Rattle.words.specs.Words.{table_of, words_of, Becomes};
ghost use Rattle.slips.specs.Framed.{framed, Framed};

use pairs::{PAIR, Tables};
use records::Edition;
use table::{Answer, Refusal};
use words::WORDS;

// The bytes of the three numbers that a slip begins with.
const HEAD: usize = 6;

// The length in bytes of a slip with so many changed steps.
fn slip_size(steps: u16) -> usize
    ensures { result ≡ slip_size steps }
{
    HEAD + PAIR * usize::from(steps)
}

// Puts the slip of a clearing that made the second table of the first at the start of the buffer; so many steps differ.
fn put_slip(buffer: &mut [u8], step: u16, exit: u16, steps: u16, tables: &Tables<'_>)
    requires { (steps ≡ count (table_of tables.now.t.now).capacity (changed (table_of tables.now.t.now) (table_of tables.now.u.now))) ×
        (slip_size steps ≤ length buffer.old) }
    ensures { buffer.new ≡
        slip step exit (table_of tables.now.t.now) (table_of tables.now.u.now) ++ drop (slip_size steps) buffer.old }
{
    records::put_word(buffer, 0, step);
    records::put_word(buffer, 2, exit);
    records::put_word(buffer, 4, steps);
    tables.put_pairs(&mut buffer[HEAD..]);
}

// Clears an exit and writes the slip of the clearing to the start of the buffer. The clearing is made on a table beside the lent one, which takes its
// place where the slip fits. A refused call changes nothing and writes nothing.
pub fn clear_with_slip(t: &mut [u16; WORDS], step: u16, exit: u16, buffer: &mut [u8]) -> Answer
    ensures answer { answer_of result ≡ (clear_slip_call (table_of t.old) step exit buffer.old).answer }
    ensures table { t.new ≡ words_of (clear_slip_call (table_of t.old) step exit buffer.old).table }
    ensures written { buffer.new ≡ (clear_slip_call (table_of t.old) step exit buffer.old).buffer }
{
    clearing::check_clear(t, step, exit)?;
    let mut work = *t;
    let counts = clearing::clear_exit(&mut work, usize::from(step), usize::from(exit));
    let tables = Tables { t, u: &work };
    let steps = tables.count_changed();
    if buffer.len() < slip_size(steps) {
        return Err(Refusal::TooShort);
    }
    put_slip(buffer, step, exit, steps, &tables);
    *t = work;
    Ok(counts)
}

// Whether the bytes are as long as they say, and each old record is of a step that a table has. What is lent is bytes, which its second promise hands on.
fn is_framed(bytes: &[u8]) -> bool
    ensures framed { result ≡ framed bytes.now }
    ensures bytes { Bytes bytes.now }
{
    if bytes.len() < HEAD {
        return false;
    }
    if bytes.len() != slip_size(records::word_at(bytes, 4)) {
        return false;
    }
    // The old records of the pairs before this one are of steps that a table has.
    for pair in bytes[HEAD..].chunks_exact(PAIR) {
        if 128 <= records::word_at(pair, 4) {
            return false;
        }
    }
    true
}

// Puts the old records of a slip in place, and works out the counters.
fn put_back(t: &mut [u16; WORDS], bytes: &[u8])
    requires { (sound (table_of t.old) ≡ true) × Framed bytes.now }
    ensures { Becomes t.old t.new (rebuilt (table_of t.old) bytes.now) }
{
    // The old records of the pairs before this one are in place.
    for pair in bytes[HEAD..].chunks_exact(PAIR) {
        let r = records::step_fields(pair, Edition::Two);
        recording::put_record(t, r);
    }
    recording::recount(t);
}

// Whether two tables are the same, word for word.
fn same_words(t: &[u16; WORDS], u: &[u16; WORDS]) -> bool
    ensures { result ≡ same t.now u.now }
{
    t == u
}

// Takes a clearing back: the old records of its slip are put in place, where clearing the exit that it names gives the table at hand, with this same
// slip. Both are tried on a table beside the lent one. A refused call leaves the table as it was.
pub fn take_back(t: &mut [u16; WORDS], bytes: &[u8]) -> Answer
    ensures answer { answer_of result ≡ (take_back_call (table_of t.old) bytes.now).answer }
    ensures table { t.new ≡ words_of (take_back_call (table_of t.old) bytes.now).table }
{
    soundness::check_table(t)?;
    if !is_framed(bytes) {
        return Err(Refusal::SlipNotAccepted);
    }
    let step = records::word_at(bytes, 0);
    let exit = records::word_at(bytes, 2);
    let mut work = *t;
    put_back(&mut work, bytes);
    // The rebuilt table has to be sound, and the exit one that can be cleared.
    if clearing::check_clear(&work, step, exit).is_err() {
        return Err(Refusal::SlipNotAccepted);
    }
    // The bytes have to be the slip of the rebuilt and the present table, so that each new record is the present one.
    let tables = Tables { t: &work, u: t };
    if tables.count_changed() != records::word_at(bytes, 4) {
        return Err(Refusal::SlipNotAccepted);
    }
    if !tables.has_pairs(&bytes[HEAD..]) {
        return Err(Refusal::SlipNotAccepted);
    }
    // The clearing has to lead to the present table.
    let (_, freed) = clearing::clear_exit(&mut work, usize::from(step), usize::from(exit));
    if !same_words(&work, t) {
        return Err(Refusal::SlipNotAccepted);
    }
    put_back(t, bytes);
    Ok((freed, 0))
}

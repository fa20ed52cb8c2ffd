// The calls of documents 01 and 02 in the form in which the crate `telephone_c` exports them, for C and Rust. A table is an array of words that the
// caller owns and lends; a call that changes it writes it in place. Any words may stand in it; so it is with a dispatcher. Each function makes one
// proved call and gives its answer by the paper's numbers.

#![tactic(auto)]

ghost use Rattle.std.specs.Prelude.{◌≡◌, cond, ◌≤◌};
ghost use Rattle.table.specs.Cabins.{sole_quotas};
ghost use Rattle.table.specs.Sound.{sound};
ghost use Rattle.table.specs.Answer.{answer_of, tried_of, moves_of};
ghost use Rattle.table.specs.Calls.{fresh_call, add_call, link_call, read_call, reading_of, counts_call};
ghost use Rattle.table.specs.Clear.{clear_call};
ghost use Rattle.table.specs.Preview.{preview_call};
ghost use Rattle.table.specs.Rung.{rung_call};
ghost use Rattle.table.specs.Squeeze.{squeeze_call};
ghost use Rattle.table.specs.Trial.{trial_call};
ghost use Rattle.words.specs.Words.{table_of, words_of};
ghost use Rattle.image.specs.Image.{edition1, edition2, length_call, write_call, load_call};
ghost use Rattle.image.specs.Convert.{convert_call};
ghost use Rattle.image.specs.Slip.{clear_slip_call, take_back_call};
ghost use Rattle.keyline.specs.Keys.{key_call};
ghost use Rattle.line.specs.Line.{fresh, raise, withdraw, next, line_call, dispatcher_of, line_words_of};
ghost use Rattle.telephone.specs.Replies.{edition, reply_of, read_reply, trial_reply, write_reply};

use dispatching::LINE_WORDS;
use table::{Answer, End, Fields, Refusal};
use words::{QUOTAS, WORDS};

// The number of this edition of the interface. In edition 1 a table was passed and handed back by value, in edition 2 a trial had no limit, in edition
// 3 there were no cabins.
const EDITION: u16 = 4;

// The answer of a call: the refusal or 0, and two numbers.
#[repr(C)]
#[derive(Drop)]
pub struct Reply {
    pub refusal: u16,
    pub first: u16,
    pub second: u16,
}

// The answer of read: the refusal or 0, and all fields of the step, zero where it is refused.
#[repr(C)]
#[derive(Drop)]
pub struct ReadReply {
    pub refusal: u16,
    pub kind: u16,
    pub content: u16,
    pub own: u16,
    pub targets: [u16; 4],
    pub bits: [u16; 4],
    pub counts: [u16; 2],
    pub cabin: u16,
}

// The answer of a trial: the refusal or 0, how it ended (0 open, 1 spent, 2 stopped), the last step and the moves made.
#[repr(C)]
#[derive(Drop)]
pub struct TrialReply {
    pub refusal: u16,
    pub ending: u16,
    pub last: u16,
    pub moves: u16,
}

// The answer of a call that writes an image, and of image length: the refusal or 0, and the image's length.
#[repr(C)]
#[derive(Drop)]
pub struct WriteReply {
    pub refusal: u16,
    pub length: u16,
}

// An answer, by number.
impl From<Answer> for Reply {
    ghost from_gives = { λ answer reply. reply ≡ reply_of (answer_of answer) };

    fn from(answer: Answer) -> Reply {
        match answer {
            Ok((first, second)) => Reply {
                refusal: 0,
                first,
                second,
            },
            Err(why) => Reply {
                refusal: why.into(),
                first: 0,
                second: 0,
            },
        }
    }
}

// The answer of a trial, by number.
impl From<Result<End, Refusal>> for TrialReply {
    ghost from_gives = { λ tried reply. reply ≡ trial_reply (tried_of tried) };

    fn from(tried: Result<End, Refusal>) -> TrialReply {
        match tried {
            Ok(end) => TrialReply {
                refusal: 0,
                ending: end.ending.into(),
                last: end.last,
                moves: end.moves,
            },
            Err(why) => TrialReply {
                refusal: why.into(),
                ending: 0,
                last: 0,
                moves: 0,
            },
        }
    }
}

// The answer of a call that writes an image, by number.
impl From<Answer> for WriteReply {
    ghost from_gives = { λ answer reply. reply ≡ write_reply (answer_of answer) };

    fn from(answer: Answer) -> WriteReply {
        match answer {
            Ok((length, _)) => WriteReply { refusal: 0, length },
            Err(why) => WriteReply {
                refusal: why.into(),
                length: 0,
            },
        }
    }
}

// The answer of read with the fields beside the refusal, zero where it is refused.
impl From<Result<Fields, Refusal>> for ReadReply {
    ghost from_gives = { λ reading reply. reply ≡ read_reply (reading_of reading) };

    fn from(reading: Result<Fields, Refusal>) -> ReadReply {
        let (refusal, fields) = match reading {
            Ok(fields) => (0, fields),
            Err(why) => (why.into(), steps::no_fields()),
        };
        let targets = fields.targets;
        let bits = fields.bits;
        let counts = fields.counts;
        ReadReply {
            refusal,
            kind: fields.kind,
            content: fields.content,
            own: fields.own,
            targets,
            bits,
            counts,
            cabin: fields.cabin,
        }
    }
}

// The edition of this interface, for a host that links it.
pub fn plan_edition() -> u16
    ensures { result ≡ edition }
{
    EDITION
}

// Whether a table is sound: 1 or 0.
pub fn plan_is_sound(t: &[u16; WORDS]) -> u16
    ensures { result ≡ cond (sound (table_of t.now)) 1 0 }
{
    if soundness::is_sound(t) { 1 } else { 0 }
}

// Sole quotas: the list that gives all steps of a capacity but step 0 to cabin 0, which edition 1 images load with.
pub fn plan_sole_quotas(quotas: &mut [u16; QUOTAS], capacity: u16)
    ensures { quotas.new ≡ sole_quotas capacity }
{
    *quotas = cabins::sole_quotas(capacity);
}

// Fresh: a table of that capacity, with those guarantees and limits of the cabins, and step 0 alone in use. Refusals: 2, 16, with a fresh table of
// capacity 1.
pub fn plan_fresh(t: &mut [u16; WORDS], capacity: u16, quotas: &[u16; QUOTAS]) -> Reply
    ensures answer { result ≡ reply_of (fresh_call capacity quotas.now).answer }
    ensures table { t.new ≡ words_of (fresh_call capacity quotas.now).table }
{
    edits::fresh(t, capacity, quotas).into()
}

// Add: a new step of a cabin in an exit of its holder. First is its number. Refusals: 1, 16, 3, 4, 5, 7, 8, 14, 15.
pub fn plan_add(
    t: &mut [u16; WORDS],
    holder: u16,
    exit: u16,
    kind: u16,
    content: u16,
    cabin: u16,
) -> Reply
    ensures answer { result ≡ reply_of (add_call (table_of t.old) holder exit kind content cabin).answer }
    ensures table { t.new ≡ words_of (add_call (table_of t.old) holder exit kind content cabin).table }
{
    edits::add(t, holder, exit, kind, content, cabin).into()
}

// Link: the source's target is copied into an exit of the second step. Refusals: 1, source 3, 4, 6, second 3, 4, 5.
pub fn plan_link(t: &mut [u16; WORDS], source: u16, from: u16, second: u16, into: u16) -> Reply
    ensures answer { result ≡ reply_of (link_call (table_of t.old) source from second into).answer }
    ensures table { t.new ≡ words_of (link_call (table_of t.old) source from second into).table }
{
    edits::link(t, source, from, second, into).into()
}

// Clear: an exit is emptied. First is the steps made doubtful, second the steps freed. Refusals: 1, 3, 4, 6.
pub fn plan_clear(t: &mut [u16; WORDS], step: u16, exit: u16) -> Reply
    ensures answer { result ≡ reply_of (clear_call (table_of t.old) step exit).answer }
    ensures table { t.new ≡ words_of (clear_call (table_of t.old) step exit).table }
{
    clearing::clear(t, step, exit).into()
}

// Clear with slip: the same, and the slip of the clearing at the start of the buffer; no other byte is written. Refusals: 1, 3, 4, 6, 11.
pub fn plan_clear_with_slip(t: &mut [u16; WORDS], step: u16, exit: u16, buffer: &mut [u8]) -> Reply
    ensures answer { result ≡ reply_of (clear_slip_call (table_of t.old) step exit buffer.old).answer }
    ensures table { t.new ≡ words_of (clear_slip_call (table_of t.old) step exit buffer.old).table }
    ensures written { buffer.new ≡ (clear_slip_call (table_of t.old) step exit buffer.old).buffer }
{
    slips::clear_with_slip(t, step, exit, buffer).into()
}

// Take back: a clearing is taken back by its slip. First is the steps that are back in use. Refusals: 1, 18.
pub fn plan_take_back(t: &mut [u16; WORDS], bytes: &[u8]) -> Reply
    ensures answer { result ≡ reply_of (take_back_call (table_of t.old) bytes.now).answer }
    ensures table { t.new ≡ words_of (take_back_call (table_of t.old) bytes.now).table }
{
    slips::take_back(t, bytes).into()
}

// Preview a clearing: the numbers of the steps that it would free, a byte each. First is the steps that it would make doubtful, second those that it would
// free. Refusals: 1, 3, 4, 6, 11.
pub fn plan_preview_clear(t: &[u16; WORDS], step: u16, exit: u16, buffer: &mut [u8]) -> Reply
    ensures answer { result ≡ reply_of (preview_call (table_of t.now) step exit buffer.old).answer }
    ensures written { buffer.new ≡ (preview_call (table_of t.now) step exit buffer.old).buffer }
{
    clearing::preview_clear(t, step, exit, buffer).into()
}

// Who can be rung: the numbers of the steps that some trial enters, a byte each. First is how many there are, second how many of them are contacts. Refusals:
// 1, 11.
pub fn plan_rung(t: &[u16; WORDS], buffer: &mut [u8]) -> Reply
    ensures answer { result ≡ reply_of (rung_call (table_of t.now) buffer.old).answer }
    ensures written { buffer.new ≡ (rung_call (table_of t.now) buffer.old).buffer }
{
    ringing::rung(t, buffer).into()
}

// Squeeze: the steps in use get the lowest numbers, in their old order, and the table the capacity and the quotas given. Refusals: 1, 2, 16, 13.
pub fn plan_squeeze(t: &mut [u16; WORDS], capacity: u16, quotas: &[u16; QUOTAS]) -> Reply
    ensures answer { result ≡ reply_of (squeeze_call (table_of t.old) capacity quotas.now).answer }
    ensures table { t.new ≡ words_of (squeeze_call (table_of t.old) capacity quotas.now).table }
{
    squeezing::squeeze(t, capacity, quotas).into()
}

// Counts: first is the steps in use, second the free ones. Refusal: 1.
pub fn plan_counts(t: &[u16; WORDS]) -> Reply
    ensures { result ≡ reply_of (counts_call (table_of t.now)).answer }
{
    edits::counts(t).into()
}

// Read: all fields of a step. Refusals: 1, 3.
pub fn plan_read(t: &[u16; WORDS], step: u16) -> ReadReply
    ensures { result ≡ read_reply (read_call (table_of t.now) step) }
{
    edits::read(t, step).into()
}

// Trial: the plan is followed within a limit of moves, a contact by its line result and all else by the answered exit. The steps entered are written
// into the trace, and no other byte. Refusals: 1, 10, 11.
pub fn plan_trial(t: &[u16; WORDS], limit: u16, results: &[u8], trace: &mut [u8]) -> TrialReply
    ensures answer { result ≡ trial_reply (trial_call (table_of t.now) limit results.now trace.old).answer }
    ensures trace { trace.new ≡ (trial_call (table_of t.now) limit results.now trace.old).trace }
    ensures moves { result.moves ≡ moves_of (trial_call (table_of t.now) limit results.now trace.old).answer }
    ensures most { result.moves ≤ limit }
{
    trials::trial(t, limit, results, trace).into()
}

// Image length: the length of the image that write image would write, which is the room that it needs. Refusal: 1.
pub fn plan_image_length(t: &[u16; WORDS]) -> WriteReply
    ensures { result ≡ write_reply (length_call (table_of t.now)) }
{
    writing::image_length(t).into()
}

// Write image: the image, of edition 2, at the start of the buffer, and its length; no other byte is written. Refusals: 1, 11.
pub fn plan_write_image(t: &[u16; WORDS], buffer: &mut [u8]) -> WriteReply
    ensures answer { result ≡ write_reply (write_call (table_of t.now) buffer.old).answer }
    ensures written { buffer.new ≡ (write_call (table_of t.now) buffer.old).buffer }
{
    writing::write_image(t, buffer).into()
}

// Load image: the table of an accepted image of edition 1 or 2. Refusal: 12, with a fresh table of capacity 1.
pub fn plan_load_image(t: &mut [u16; WORDS], bytes: &[u8]) -> Reply
    ensures answer { result ≡ reply_of (load_call bytes.now).answer }
    ensures table { t.new ≡ words_of (load_call bytes.now).table }
{
    loading::load_image(t, bytes).into()
}

// Convert up: an image of edition 1 as one of edition 2 at the start of the buffer, and its length; no other byte is written. Refusals: 12, 11.
pub fn plan_convert_up(bytes: &[u8], buffer: &mut [u8]) -> WriteReply
    ensures answer { result ≡ write_reply (convert_call edition2 bytes.now buffer.old).answer }
    ensures written { buffer.new ≡ (convert_call edition2 bytes.now buffer.old).buffer }
{
    converting::convert_up(bytes, buffer).into()
}

// Convert down: an image of edition 2 as one of edition 1 at the start of the buffer, and its length; no other byte is written. Refusals: 12, 17, 11.
pub fn plan_convert_down(bytes: &[u8], buffer: &mut [u8]) -> WriteReply
    ensures answer { result ≡ write_reply (convert_call edition1 bytes.now buffer.old).answer }
    ensures written { buffer.new ≡ (convert_call edition1 bytes.now buffer.old).buffer }
{
    converting::convert_down(bytes, buffer).into()
}

// Key line: the call that its bytes make. First and second are the two numbers that the program `keys` prints. Refusals: 1, 9, then its call's.
pub fn plan_key_line(t: &mut [u16; WORDS], line: &[u8]) -> Reply
    ensures answer { result ≡ reply_of (key_call (table_of t.old) line.now).answer }
    ensures table { t.new ≡ words_of (key_call (table_of t.old) line.now).table }
{
    keying::key_line(t, line).into()
}

// Fresh dispatcher: nobody waits, and cabin 15 counts as last served. It is not refused.
pub fn plan_line_fresh(d: &mut [u16; LINE_WORDS]) -> Reply
    ensures answer { result ≡ reply_of (line_call (dispatcher_of d.old) fresh).answer }
    ensures words { d.new ≡ line_words_of (line_call (dispatcher_of d.old) fresh).dispatcher }
{
    dispatching::fresh(d).into()
}

// Raise: a cabin waits for the line. Refusals: 1, 20.
pub fn plan_line_raise(d: &mut [u16; LINE_WORDS], cabin: u16) -> Reply
    ensures answer { result ≡ reply_of (line_call (dispatcher_of d.old) (raise cabin)).answer }
    ensures words { d.new ≡ line_words_of (line_call (dispatcher_of d.old) (raise cabin)).dispatcher }
{
    dispatching::raise(d, cabin).into()
}

// Withdraw: a cabin does not wait any more. Refusals: 1, 20.
pub fn plan_line_withdraw(d: &mut [u16; LINE_WORDS], cabin: u16) -> Reply
    ensures answer { result ≡ reply_of (line_call (dispatcher_of d.old) (withdraw cabin)).answer }
    ensures words { d.new ≡ line_words_of (line_call (dispatcher_of d.old) (withdraw cabin)).dispatcher }
{
    dispatching::withdraw(d, cabin).into()
}

// Next: the first waiting cabin after the one last served, going round, is served. First is the cabin. Refusals: 1, 21.
pub fn plan_line_next(d: &mut [u16; LINE_WORDS]) -> Reply
    ensures answer { result ≡ reply_of (line_call (dispatcher_of d.old) next).answer }
    ensures words { d.new ≡ line_words_of (line_call (dispatcher_of d.old) next).dispatcher }
{
    dispatching::next(d).into()
}

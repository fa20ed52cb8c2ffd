// Clear: an exit of a step is emptied, and the steps that no chain of links reaches any more are freed. Preview: which steps those would be.

#![tactic(auto)]

ghost use Rattle.std.specs.Prelude.{◌≡◌, not, ◌++◌, ◌≤◌, length, drop, Ok};
ghost use Rattle.table.specs.Sound.{Sound};
ghost use Rattle.table.specs.Answer.{steps_room, refused, answer_of};
ghost use Rattle.table.specs.Calls.{HoldFits};
ghost use Rattle.table.specs.Clear.{stops, repaired, cleared, clear_refusal, clear_call};
ghost use Rattle.table.specs.Preview.{would_go, preview_call};
ghost use Rattle.words.specs.Words.{table_of, words_of, Becomes};
ghost use Rattle.clearing.specs.Clearing.{Searched};

use table::{Answer, Refusal};
use words::{PLACES, STEPS_ROOM, WORDS};

// Rule 1: whether a clearing of exit e of step i, which holds a link, goes on: the link is strong, and its target has no other strong link.
// This is the test of `DeletePtr` in source paper 001.
fn goes_on(t: &[u16; WORDS], i: usize, e: usize) -> bool
    requires { Sound (table_of t.now) × HoldFits (table_of t.now) i e }
    ensures { result ≡ not (stops (table_of t.now) i e) }
{
    let j = usize::from(words::target_at(t, i, e));
    let b = words::bit_at(t, i, e);
    if b != words::own_at(t, j) {
        return false;
    }
    words::counter_at(t, j, usize::from(b)) < 2
}

// Rules 3 and 4 on the table with the exit emptied, from what the search found before: the doubtful steps are taken back or freed. Gives back the
// number of each.
fn repair_table(
    t: &mut [u16; WORDS],
    doubt: &mut [u16; PLACES],
    wanted: &mut [u16; PLACES],
) -> (u16, u16)
    requires { Searched (table_of t.old) doubt.old wanted.old }
    ensures answer { answer_of (Ok result) ≡ (repaired (table_of t.old)).answer }
    ensures table { Becomes t.old t.new (repaired (table_of t.old)).table }
{
    let n = usize::from(words::capacity(t));
    let doubts = marking::count_marks(n, doubt);
    repairing::repair_steps(t, n, doubt, wanted);
    let freed = marking::count_marks(n, doubt);
    if freed != 0 {
        repairing::free_steps(t, n, doubt);
    }
    (doubts, freed)
}

// The four rules: exit e of step i, which holds a link, is cleared. The search looks at the table as it is, and then the exit is emptied. Gives back
// how many steps were doubtful, and how many were freed.
pub fn clear_exit(t: &mut [u16; WORDS], i: usize, e: usize) -> (u16, u16)
    requires { Sound (table_of t.old) × HoldFits (table_of t.old) i e }
    ensures answer { answer_of (Ok result) ≡ (cleared (table_of t.old) i e).answer }
    ensures table { Becomes t.old t.new (cleared (table_of t.old) i e).table }
{
    if !goes_on(t, i, e) {
        words::relink(t, i, e, 0, 0);
        return (0, 0);
    }
    let mut doubt = [0u16; PLACES];
    let mut wanted = [0u16; PLACES];
    withdraw::find_doubtful(t, i, e, &mut doubt, &mut wanted);
    words::relink(t, i, e, 0, 0);
    repair_table(t, &mut doubt, &mut wanted)
}

// The same, and the table stays as it is: the steps that the clearing would free are written to the start of the buffer. Gives back both counts.
fn preview_exit(t: &[u16; WORDS], i: usize, e: usize, buffer: &mut [u8]) -> (u16, u16)
    requires { Sound (table_of t.now) × HoldFits (table_of t.now) i e × (steps_room ≤ length buffer.old) }
    ensures answer { answer_of (Ok result) ≡ (cleared (table_of t.now) i e).answer }
    ensures written { buffer.new ≡
        would_go (table_of t.now) i e ++ drop (length (would_go (table_of t.now) i e)) buffer.old }
{
    if !goes_on(t, i, e) {
        return (0, 0);
    }
    let mut doubt = [0u16; PLACES];
    let mut wanted = [0u16; PLACES];
    withdraw::find_doubtful(t, i, e, &mut doubt, &mut wanted);
    let n = usize::from(words::capacity(t));
    let doubts = marking::count_marks(n, &doubt);
    repairing::keep_steps(t, n, &mut doubt, &mut wanted);
    let freed = marking::list_marks(n, &doubt, buffer);
    (doubts, freed)
}

// What a clearing asks, in its order.
pub fn check_clear(t: &[u16; WORDS], step: u16, exit: u16) -> Result<(), Refusal>
    ensures { refused result ≡ clear_refusal (table_of t.now) step exit }
{
    soundness::check_table(t)?;
    steps::check_hold(t, step, exit)
}

// Clears an exit: the link in it is taken out, and the steps that nothing leads to any more are freed. The answer counts the steps that were
// doubtful and those that were freed. A refused one leaves the table as it was.
pub fn clear(t: &mut [u16; WORDS], step: u16, exit: u16) -> Answer
    ensures answer { answer_of result ≡ (clear_call (table_of t.old) step exit).answer }
    ensures table { t.new ≡ words_of (clear_call (table_of t.old) step exit).table }
{
    check_clear(t, step, exit)?;
    Ok(clear_exit(t, usize::from(step), usize::from(exit)))
}

// Tells what a clearing would free: the numbers of those steps are written to the start of the buffer, ascending, a byte each. The answer has both counts
// that the clearing would give. A refused call writes nothing.
pub fn preview_clear(t: &[u16; WORDS], step: u16, exit: u16, buffer: &mut [u8]) -> Answer
    ensures answer { answer_of result ≡ (preview_call (table_of t.now) step exit buffer.old).answer }
    ensures written { buffer.new ≡ (preview_call (table_of t.now) step exit buffer.old).buffer }
{
    let room = buffer.len();
    check_clear(t, step, exit)?;
    if room < STEPS_ROOM {
        return Err(Refusal::TooShort);
    }
    Ok(preview_exit(t, usize::from(step), usize::from(exit), buffer))
}

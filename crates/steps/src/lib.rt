// What the calls share below them (document 01, "Calls"; document 02, W5): a fresh table, what a refused fresh or load leaves, what is asked of a step and
// its exit, the fields of a step, and how many steps are in use. Nothing here asks whether the table is sound.

#![tactic(auto)]

ghost use Rattle.std.specs.Prelude.{◌≡◌, true, ◌≤◌, ◌<◌};
ghost use Rattle.table.specs.Table.{places, exits, in_use, holds, steps_in_use};
ghost use Rattle.table.specs.Answer.{refused};
ghost use Rattle.table.specs.Calls.{fresh_table, refused_table, fields_of, no_fields};
ghost use Rattle.words.specs.Words.{table_of, words_of};
ghost use Rattle.steps.specs.Refusals.{exit_refusal, hold_refusal, fill_refusal};

use std::array;
use table::{Fields, Refusal};
use words::{COUNTERS, EXITS, PLACES, QUOTAS, WORDS};

// A table of that capacity with step 0 alone in use, all bits 0, last number 0 and these quotas.
pub fn fresh_table(t: &mut [u16; WORDS], capacity: u16, quotas: &[u16; QUOTAS])
    ensures { t.new ≡ words_of (fresh_table capacity quotas.now) }
{
    words::erase(t, capacity, 0);
    words::put_quotas(t, quotas);
    words::put_step(t, 0, 1, 0, 0, 0, 0);
}

// What a refused fresh or load leaves: a fresh table of capacity 1.
pub fn refused_table(t: &mut [u16; WORDS])
    ensures { t.new ≡ words_of refused_table }
{
    let quotas = cabins::sole_quotas(1);
    fresh_table(t, 1, &quotas);
}

// Whether a step is in use; no number at or above 128 is one.
pub fn in_use(t: &[u16; WORDS], step: u16) -> bool
    ensures { result ≡ in_use (table_of t.now) step }
{
    let i = usize::from(step);
    i < PLACES && words::in_use(t, i)
}

// A step that is not in use is refused, then an exit above 3.
fn check_exit(t: &[u16; WORDS], step: u16, exit: u16) -> Result<(), Refusal>
    ensures { refused result ≡ exit_refusal (table_of t.now) step exit }
{
    if !in_use(t, step) {
        return Err(Refusal::NotInUse);
    }
    if EXITS <= usize::from(exit) {
        return Err(Refusal::BadExit);
    }
    Ok(())
}

// Whether an exit of a step in use holds a link.
fn holds_link(t: &[u16; WORDS], step: u16, exit: u16) -> bool
    requires { (in_use (table_of t.now) step ≡ true) × (exit < exits) }
    ensures { result ≡ holds (table_of t.now) step exit }
{
    words::target_at(t, usize::from(step), usize::from(exit)) != 0
}

// A step and its exit to be copied or cleared: refused are the same, then an empty exit.
pub fn check_hold(t: &[u16; WORDS], step: u16, exit: u16) -> Result<(), Refusal>
    ensures { refused result ≡ hold_refusal (table_of t.now) step exit }
{
    check_exit(t, step, exit)?;
    if !holds_link(t, step, exit) {
        return Err(Refusal::ExitEmpty);
    }
    Ok(())
}

// A step and its exit to be filled: refused are the same, then an exit that holds a link.
pub fn check_fill(t: &[u16; WORDS], step: u16, exit: u16) -> Result<(), Refusal>
    ensures { refused result ≡ fill_refusal (table_of t.now) step exit }
{
    check_exit(t, step, exit)?;
    if holds_link(t, step, exit) {
        return Err(Refusal::ExitFilled);
    }
    Ok(())
}

// All fields of step i.
pub fn fields_of(t: &[u16; WORDS], i: usize) -> Fields
    requires { i < places }
    ensures { result ≡ fields_of (table_of t.now) i }
{
    Fields {
        kind: words::kind_at(t, i),
        content: words::content_at(t, i),
        own: words::own_at(t, i),
        targets: array::from_fn(|e| words::target_at(t, i, e)),
        bits: array::from_fn(|e| words::bit_at(t, i, e)),
        counts: array::from_fn(|b| words::counter_at(t, i, b)),
        cabin: words::cabin_at(t, i),
    }
}

// The fields of a free step: all zero or empty.
pub fn no_fields() -> Fields
    ensures { result ≡ no_fields }
{
    Fields {
        kind: 0,
        content: 0,
        own: 0,
        targets: [0u16; EXITS],
        bits: [0u16; EXITS],
        counts: [0u16; COUNTERS],
        cabin: 0,
    }
}

// How many steps are in use.
pub fn count_used(t: &[u16; WORDS]) -> u16
    requires { (table_of t.now).capacity ≤ places }
    ensures { result ≡ steps_in_use (table_of t.now) }
{
    words::passing(0, usize::from(words::capacity(t)), |i| words::in_use(t, i))
}

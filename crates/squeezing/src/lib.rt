// Squeeze: a plan is moved to another capacity and other quotas, on the lent table (document 02, W2 and W5). The steps in use get the lowest numbers, in
// their old order. The table is written in place: no step moves up, so in ascending order no step is overwritten before it has moved.

#![tactic(auto)]

ghost use Rattle.std.specs.Prelude.{◌≡◌, get_or};
ghost use Rattle.finite.specs.Below.{tabulate};
ghost use Rattle.table.specs.Table.{places};
ghost use Rattle.table.specs.Sound.{Sound};
ghost use Rattle.table.specs.Calls.{fields_of};
ghost use Rattle.table.specs.Answer.{refused, answer_of};
ghost use Rattle.table.specs.Squeeze.{new_number, squeeze_refusal, squeeze_call};
ghost use Rattle.words.specs.Words.{table_of, words_of, Becomes};
ghost use Rattle.squeezing.specs.Moves.{followed, moved_step, squeezed_steps, Movable};

use table::{Answer, Fields, Refusal};
use words::{PLACES, QUOTAS, WORDS};

// The new number of each step in use: how many of them stand before it.
fn new_numbers(t: &[u16; WORDS]) -> [u16; PLACES]
    ensures { result ≡ tabulate places (new_number (table_of t.now)) }
{
    let mut numbers = [0u16; PLACES];
    let mut next: u16 = 0;
    // The places below i have their numbers, and `next` of the steps below i are in use.
    for i in 0..PLACES {
        numbers[i] = next;
        if words::in_use(t, i) {
            next += 1;
        }
    }
    numbers
}

// The fields of step i with its targets under their new numbers. An empty exit stays empty: the new number of step 0 is 0.
fn moved_fields(t: &[u16; WORDS], i: usize, numbers: &[u16; PLACES]) -> Fields
    requires { Movable numbers.now (table_of t.now) i }
    ensures { result ≡ followed (λ j. get_or numbers.now j 0) (fields_of (table_of t.now) i) }
{
    let mut moved = steps::fields_of(t, i);
    // The targets before this one have their new numbers.
    for target in &mut moved.targets {
        *target = numbers[usize::from(*target)];
    }
    moved
}

// Step i, in use, is moved to its new number with all its fields, and its old place is emptied.
fn move_step(t: &mut [u16; WORDS], i: usize, numbers: &[u16; PLACES])
    requires { Movable numbers.now (table_of t.old) i }
    ensures { Becomes t.old t.new (moved_step (λ j. get_or numbers.now j 0) i (table_of t.old)) }
{
    let k = usize::from(numbers[i]);
    let f = moved_fields(t, i, numbers);
    words::put_fields(t, i, 0, steps::no_fields());
    words::put_fields(t, k, 1, f);
}

// All steps in use are moved to their new numbers; the capacity, the last number given and the quotas stay.
fn move_steps(t: &mut [u16; WORDS])
    requires { Sound (table_of t.old) }
    ensures { Becomes t.old t.new (squeezed_steps (table_of t.old)) }
{
    let numbers = new_numbers(t);
    // The steps in use below i are moved, the places left behind them are empty, and those from i on are as they were.
    for i in 0..usize::from(words::capacity(t)) {
        if words::in_use(t, i) {
            move_step(t, i, &numbers);
        }
    }
}

// What squeeze asks, in its order.
fn check_squeeze(t: &[u16; WORDS], capacity: u16, quotas: &[u16; QUOTAS]) -> Result<(), Refusal>
    ensures { refused result ≡ squeeze_refusal (table_of t.now) capacity quotas.now }
{
    let charges = soundness::charges(t)?;
    if !soundness::capacity_fits(capacity) {
        return Err(Refusal::BadCapacity);
    }
    if !cabins::quotas_fit(capacity, quotas) {
        return Err(Refusal::BadCabins);
    }
    if !cabins::shares_fit(capacity, quotas, &charges) {
        return Err(Refusal::DoesNotFit);
    }
    Ok(())
}

// Squeeze: the steps in use are renumbered from 0 upward in their old order, and the table gets the capacity and the quotas given. A refused one leaves
// the table as it was.
pub fn squeeze(t: &mut [u16; WORDS], capacity: u16, quotas: &[u16; QUOTAS]) -> Answer
    ensures answer { answer_of result ≡ (squeeze_call (table_of t.old) capacity quotas.now).answer }
    ensures table { t.new ≡ words_of (squeeze_call (table_of t.old) capacity quotas.now).table }
{
    check_squeeze(t, capacity, quotas)?;
    let steps = steps::count_used(t);
    move_steps(t);
    words::put_numbers(t, capacity, steps - 1);
    words::put_quotas(t, quotas);
    Ok((0, 0))
}

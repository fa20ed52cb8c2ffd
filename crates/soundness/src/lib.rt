// The soundness test: passes over whole arrays that count what does not fit, then the counters and the strong links by one search.

#![tactic(auto)]

ghost use Rattle.std.specs.Prelude.{◌≡◌, false, true, IfOk, ◌&&◌, ◌*◌, ◌-◌, ◌≤◌, get_or, set, eqb};
ghost use Rattle.finite.specs.Below.{total, tabulate};
ghost use Rattle.table.specs.Table.{places, exit_places, counters, cabin_count};
ghost use Rattle.table.specs.Cabins.{charge};
ghost use Rattle.table.specs.Sound.{capacity_fits, content_fits, sound};
ghost use Rattle.table.specs.Answer.{refused, first};
ghost use Rattle.table.specs.Calls.{table_tests};
ghost use Rattle.words.specs.Words.{table_of};
ghost use Rattle.soundness.specs.Tests.{numbers_fit, alarm_fits, fields_fit, link_fits, counts_fit, fields_at, exit_fits, counters_fit, free_above, arrays_fit, empty_at, faults, cabin_steps, quotas_hold};

use std::array;
use table::Refusal;
use words::{CABINS, COUNTS, LINKS, PLACES, WORDS, passing};

// The contents that each kind may hold: 1 contact, 2 spoken message, 3 wait; no other kind can be added. Kinds stay numbers: document 01 names this
// form, one match over kind numbers with an arm for all others.
pub fn content_fits(kind: u16, content: u16) -> bool
    ensures { result ≡ content_fits kind content }
{
    match kind {
        1 => content <= 999,
        2 => content <= 15,
        3 => 1 <= content && content <= 600,
        _ => false,
    }
}

// A step other than 0 alone: in use with a content that its kind may hold, a bit and a cabin, or free with every field zero.
fn fields_fit(used: u16, kind: u16, content: u16, own: u16, cabin: u16) -> bool
    ensures { result ≡ fields_fit used kind content own cabin }
{
    if used == 1 {
        content_fits(kind, content) && own < 2 && cabin < 8
    } else {
        used == 0 && kind == 0 && content == 0 && own == 0 && cabin == 0
    }
}

// The steps that do not fit as every step but 0 must.
fn step_faults(t: &[u16; WORDS]) -> u16
    ensures { result ≡ faults places (fields_at (table_of t.now)) }
{
    passing(0, PLACES, |i| {
        !fields_fit(
            words::used_at(t, i),
            words::kind_at(t, i),
            words::content_at(t, i),
            words::own_at(t, i),
            words::cabin_at(t, i),
        )
    })
}

// A step in use of cabin c.
fn in_cabin(used: u16, cabin: u16, c: u16) -> bool
    ensures { result ≡ (eqb used 1 && eqb cabin c) }
{
    used == 1 && cabin == c
}

// The steps in use of cabin c, step 0 among those of cabin 0.
fn steps_of(t: &[u16; WORDS], c: u16) -> u16
    ensures { result ≡ cabin_steps (table_of t.now) c }
{
    passing(
        0,
        PLACES,
        |i| in_cabin(words::used_at(t, i), words::cabin_at(t, i), c),
    )
}

// The steps in use of each cabin.
fn cabin_steps(t: &[u16; WORDS]) -> [u16; CABINS]
    ensures { result ≡ tabulate cabin_count (cabin_steps (table_of t.now)) }
{
    array::from_fn(|c| steps_of(t, c as u16))
}

// An exit alone: empty with bit 0, or a target that is a place, and a bit.
fn link_fits(target: u16, bit: u16) -> bool
    ensures { result ≡ link_fits target bit }
{
    if target == 0 {
        bit == 0
    } else {
        target < 128 && bit < 2
    }
}

// The exits that do not fit.
fn link_faults(t: &[u16; WORDS]) -> u16
    ensures { result ≡ faults (exit_places places) (exit_fits (table_of t.now)) }
{
    passing(
        0,
        LINKS,
        |p| !link_fits(words::target_in(t, p), words::bit_in(t, p)),
    )
}

// Both counters of a step that is not in use are zero.
fn counts_fit(used: u16, a: u16, b: u16) -> bool
    ensures { result ≡ counts_fit used a b }
{
    if used == 1 { true } else { a == 0 && b == 0 }
}

// The steps not in use with a counter that is not zero.
fn count_faults(t: &[u16; WORDS]) -> u16
    ensures { result ≡ faults places (counters_fit (table_of t.now)) }
{
    passing(0, PLACES, |i| {
        !counts_fit(
            words::used_at(t, i),
            words::counter_at(t, i, 0),
            words::counter_at(t, i, 1),
        )
    })
}

// The steps from the capacity on that are in use.
fn used_above(t: &[u16; WORDS], capacity: usize) -> u16
    requires { capacity ≤ places }
    ensures { result ≡ faults places (free_above (table_of t.now) capacity) }
{
    passing(capacity, PLACES, |i| words::used_at(t, i) != 0)
}

// The exits that hold a link.
fn filled(t: &[u16; WORDS]) -> u16
    ensures { result ≡ faults (exit_places places) (empty_at (table_of t.now)) }
{
    passing(0, LINKS, |p| words::target_in(t, p) != 0)
}

// The sum of the counters.
fn counted(t: &[u16; WORDS]) -> u32
    ensures { result ≡ total (places * counters) (λ q. get_or (table_of t.now).counts q 0) }
{
    let mut n = 0u32;
    // n is the sum of the counters below place q.
    for q in 0..COUNTS {
        n += u32::from(words::count_in(t, q));
    }
    n
}

// The capacities that a table may have: 1 to 128.
pub fn capacity_fits(capacity: u16) -> bool
    ensures { result ≡ capacity_fits capacity }
{
    1 <= capacity && capacity <= 128
}

// The capacity is in range, and the last number given is below it.
fn numbers_fit(capacity: u16, last: u16) -> bool
    ensures { result ≡ numbers_fit capacity last }
{
    capacity_fits(capacity) && last < capacity
}

// Step 0 is the alarm, in use, with a bit; its first counter counts nothing, and it is no cabin's.
fn alarm_fits(used: u16, kind: u16, content: u16, own: u16, count: u16, cabin: u16) -> bool
    ensures { result ≡ alarm_fits used kind content own count cabin }
{
    used == 1 && kind == 0 && content == 0 && own < 2 && count == 0 && cabin == 0
}

// All steps, exits and counters fit, each alone. Step 0 has been looked at: it is the alarm, so it is the one step that must not fit as the others, of
// which none is of kind 0.
fn arrays_fit(t: &[u16; WORDS]) -> bool
    requires { ((table_of t.now).capacity ≤ places) × (fields_at (table_of t.now) 0 ≡ false) }
    ensures { result ≡ arrays_fit (table_of t.now) }
{
    if step_faults(t) != 1 {
        return false;
    }
    if link_faults(t) != 0 {
        return false;
    }
    if count_faults(t) != 0 {
        return false;
    }
    used_above(t, usize::from(words::capacity(t))) == 0
}

// What each cabin is charged: its steps, without step 0, which is no cabin's.
fn charges_of(cabins: [u16; CABINS]) -> [u16; CABINS]
    requires { 1 ≤ get_or cabins 0 0 }
    ensures { result ≡ set cabins 0 (get_or cabins 0 0 - 1) }
{
    let mut charges = cabins;
    charges[0] = charges[0] - 1;
    charges
}

// The list of quotas is good, and the charges fit it.
fn quotas_hold(t: &[u16; WORDS], charges: &[u16; CABINS]) -> bool
    requires { (1 ≤ (table_of t.now).capacity) × (charges.now ≡ tabulate cabin_count (charge (table_of t.now))) }
    ensures { result ≡ quotas_hold (table_of t.now) }
{
    let capacity = words::capacity(t);
    let quotas = cabins::quotas_of(t);
    cabins::quotas_fit(capacity, &quotas) && cabins::shares_fit(capacity, &quotas, charges)
}

// What the cabins of a table are charged, where it is sound, whatever stands in its words; it is refused where it is not.
pub fn charges(t: &[u16; WORDS]) -> Result<[u16; CABINS], Refusal>
    ensures sound { refused result ≡ first (table_tests (table_of t.now)) }
    ensures charges { IfOk result (λ charges. charges ≡ tabulate cabin_count (charge (table_of t.now))) }
{
    if !numbers_fit(words::capacity(t), words::last(t)) {
        return Err(Refusal::NotSound);
    }
    if !alarm_fits(
        words::used_at(t, 0),
        words::kind_at(t, 0),
        words::content_at(t, 0),
        words::own_at(t, 0),
        words::count_in(t, 0),
        words::cabin_at(t, 0),
    ) {
        return Err(Refusal::NotSound);
    }
    if !arrays_fit(t) {
        return Err(Refusal::NotSound);
    }
    if counted(t) != u32::from(filled(t)) {
        return Err(Refusal::NotSound);
    }
    let charges = charges_of(cabin_steps(t));
    if !quotas_hold(t, &charges) {
        return Err(Refusal::NotSound);
    }
    if !withdraw::spans(t) {
        return Err(Refusal::NotSound);
    }
    Ok(charges)
}

// Whether a table is sound.
pub fn is_sound(t: &[u16; WORDS]) -> bool
    ensures { result ≡ sound (table_of t.now) }
{
    charges(t).is_ok()
}

// A table that is not sound is refused.
pub fn check_table(t: &[u16; WORDS]) -> Result<(), Refusal>
    ensures { refused result ≡ first (table_tests (table_of t.now)) }
{
    charges(t)?;
    Ok(())
}

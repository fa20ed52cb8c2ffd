// The calls fresh, read, add, link and counts on a lent table (document 01, "Calls", "Keys"; document 02, W5).

#![tactic(auto)]

ghost use Rattle.std.specs.Prelude.{◌≡◌, not, ◌≤◌, ◌<◌};
ghost use Rattle.table.specs.Table.{places, in_use};
ghost use Rattle.table.specs.Sound.{Sound};
ghost use Rattle.table.specs.Answer.{refused, answer_of};
ghost use Rattle.table.specs.Calls.{fresh_call, after, number_given, add_refusal, add_call, link_refusal, link_call, read_refusal, read_call, reading_of, counts_call};
ghost use Rattle.words.specs.Words.{table_of, words_of};
ghost use Rattle.edits.specs.Refusals.{step_refusal};

use table::{Answer, Fields, Refusal};
use words::{CABINS, QUOTAS, WORDS};

// Fresh: a table of the capacity and with the quotas asked for, or refusal 2 or 16 and a table of capacity 1.
pub fn fresh(t: &mut [u16; WORDS], capacity: u16, quotas: &[u16; QUOTAS]) -> Answer
    ensures answer { answer_of result ≡ (fresh_call capacity quotas.now).answer }
    ensures table { t.new ≡ words_of (fresh_call capacity quotas.now).table }
{
    if !soundness::capacity_fits(capacity) {
        steps::refused_table(t);
        return Err(Refusal::BadCapacity);
    }
    if !cabins::quotas_fit(capacity, quotas) {
        steps::refused_table(t);
        return Err(Refusal::BadCabins);
    }
    steps::fresh_table(t, capacity, quotas);
    Ok((0, 0))
}

// What read asks, in its order.
fn check_read(t: &[u16; WORDS], step: u16) -> Result<(), Refusal>
    ensures { refused result ≡ read_refusal (table_of t.now) step }
{
    soundness::check_table(t)?;
    if !steps::in_use(t, step) {
        return Err(Refusal::NotInUse);
    }
    Ok(())
}

// Read: all fields of a step in use.
pub fn read(t: &[u16; WORDS], step: u16) -> Result<Fields, Refusal>
    ensures { reading_of result ≡ read_call (table_of t.now) step }
{
    check_read(t, step)?;
    Ok(steps::fields_of(t, usize::from(step)))
}

// The number after k on the circle of the numbers from 1 to the capacity less 1.
fn next_number(capacity: u16, k: u16) -> u16
    requires { (capacity ≤ places) × (k < places) }
    ensures { result ≡ after capacity k }
{
    if k + 1 < capacity { k + 1 } else { 1 }
}

// The number that add gives: the first free one upward from the number after the last given, past the top to 1.
fn number_given(t: &[u16; WORDS]) -> u16
    requires { ((table_of t.now).capacity ≤ places) × ((table_of t.now).last < places) }
    ensures { result ≡ number_given (table_of t.now).capacity (table_of t.now).last
        (λ k. not (in_use (table_of t.now) k)) }
{
    let capacity = words::capacity(t);
    let mut left = capacity;
    let mut k = next_number(capacity, words::last(t));
    // The number given is the first free one from k on, among the numbers left on the circle. It is found with some left: add is refused on a
    // full table before.
    // It stays a `loop`, by a rule of the project: document 01 names this form, "by break from a loop".
    let n = loop {
        if left == 0 || !words::in_use(t, usize::from(k)) {
            break k;
        }
        left -= 1;
        k = next_number(capacity, k);
    };
    n
}

// What add asks of the holder, its exit, the kind and the room on a sound table, in its order.
fn check_step(
    t: &[u16; WORDS],
    holder: u16,
    exit: u16,
    kind: u16,
    content: u16,
) -> Result<(), Refusal>
    requires { Sound (table_of t.now) }
    ensures { refused result ≡ step_refusal (table_of t.now) holder exit kind content }
{
    steps::check_fill(t, holder, exit)?;
    if !soundness::content_fits(kind, content) {
        return Err(Refusal::BadKind);
    }
    if steps::count_used(t) == words::capacity(t) {
        return Err(Refusal::Full);
    }
    Ok(())
}

// What add asks, in its order. The charges are those that the soundness test counted.
fn check_add(
    t: &[u16; WORDS],
    holder: u16,
    exit: u16,
    kind: u16,
    content: u16,
    cabin: u16,
) -> Result<(), Refusal>
    ensures { refused result ≡ add_refusal (table_of t.now) holder exit kind content cabin }
{
    let charges = soundness::charges(t)?;
    let c = usize::from(cabin);
    if CABINS <= c {
        return Err(Refusal::BadCabins);
    }
    check_step(t, holder, exit, kind, content)?;
    let quotas = cabins::quotas_of(t);
    cabins::check_share(words::capacity(t), &quotas, &charges, c)
}

// Add: a new step of the cabin, with bit 0 and empty exits, and a link to it with bit 0 in the holder's exit. The answer is its number.
pub fn add(
    t: &mut [u16; WORDS],
    holder: u16,
    exit: u16,
    kind: u16,
    content: u16,
    cabin: u16,
) -> Answer
    ensures answer { answer_of result ≡ (add_call (table_of t.old) holder exit kind content cabin).answer }
    ensures table { t.new ≡ words_of (add_call (table_of t.old) holder exit kind content cabin).table }
{
    check_add(t, holder, exit, kind, content, cabin)?;
    let n = number_given(t);
    words::take_step(t, n, kind, content, cabin);
    words::relink(t, usize::from(holder), usize::from(exit), n, 0);
    Ok((n, 0))
}

// What link asks, in its order.
fn check_link(
    t: &[u16; WORDS],
    source: u16,
    from: u16,
    second: u16,
    into: u16,
) -> Result<(), Refusal>
    ensures { refused result ≡ link_refusal (table_of t.now) source from second into }
{
    soundness::check_table(t)?;
    steps::check_hold(t, source, from)?;
    steps::check_fill(t, second, into)
}

// Link: the target in exit `from` of the source is copied into exit `into` of the second step, always weak: with the bit that its target has not.
// `CopyPtr` of source paper 001 does the same.
pub fn link(t: &mut [u16; WORDS], source: u16, from: u16, second: u16, into: u16) -> Answer
    ensures answer { answer_of result ≡ (link_call (table_of t.old) source from second into).answer }
    ensures table { t.new ≡ words_of (link_call (table_of t.old) source from second into).table }
{
    check_link(t, source, from, second, into)?;
    let j = words::target_at(t, usize::from(source), usize::from(from));
    let own = words::own_at(t, usize::from(j));
    let weak = 1 - own;
    words::relink(t, usize::from(second), usize::from(into), j, weak);
    Ok((0, 0))
}

// The spoken counts: steps in use, and free ones. A table that is not sound gets refusal 1.
pub fn counts(t: &[u16; WORDS]) -> Answer
    ensures { answer_of result ≡ (counts_call (table_of t.now)).answer }
{
    soundness::check_table(t)?;
    let n = steps::count_used(t);
    Ok((n, words::capacity(t) - n))
}

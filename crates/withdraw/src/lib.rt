// The search by withdrawing, on a copy of the counters: withdrawing a step and withdrawing an exit call each other. It serves rule 2 of clearing,
// with the first candidates of rule 3, and the soundness test.

#![tactic(auto)]

ghost use Rattle.std.specs.Prelude.{◌≡◌, List, ℕ, ◌*◌, ◌<◌, get_or, replicate, eqb};
ghost use Rattle.finite.specs.Below.{one, all, tabulate};
ghost use Rattle.finite.specs.Reach.{marked};
ghost use Rattle.table.specs.Table.{places, counters, exit_place, exits_of};
ghost use Rattle.table.specs.Clear.{emptied, doubtful};
ghost use Rattle.words.specs.Words.{table_of};
ghost use Rattle.withdraw.specs.Search.{slot_at, at, rest, Ranged, Pending, Withdrawn, still_linked, Spans};
ghost use Rattle.withdraw.specs.Withdraw.{Losing, candidate};

use words::{COUNTERS, COUNTS, PLACES, WORDS, passing};

// Withdraws the exits of step i, which is marked. Source paper 001 searches by nested calls too, but flips bits and makes links weak on its way;
// document 01 decides, and only marks steps here: bits, links and stored counters stay.
#[cycle(withdraw_exit_withdraw_step)]
fn withdraw_step(t: &[u16; WORDS], left: &mut [u16; COUNTS], marks: &mut [u16; PLACES], i: usize)
    requires { (i < places) × Ranged (table_of t.now) ×
        ((counts : List ℕ) × Pending (table_of t.now) counts left.old marks.old (rest (slot_at (table_of t.now)) i 0)) }
    ensures { Withdrawn (table_of t.now) left.old marks.old left.new marks.new
        (rest (slot_at (table_of t.now)) i 0) }
{
    // The exits below e are withdrawn.
    for e in 0..words::exits_of(i) {
        withdraw_exit(t, left, marks, i, e);
    }
}

// Withdraws exit e of step i: its link counts no more, and a step that has no strong link left is marked in turn. A link too many is noted at
// counter 0, in which no link counts. Paper 001 goes along strong links alone; here a weak link is withdrawn too, so that the links left to a marked
// step are those from steps that are not marked.
#[cycle(withdraw_exit_withdraw_step)]
fn withdraw_exit(
    t: &[u16; WORDS],
    left: &mut [u16; COUNTS],
    marks: &mut [u16; PLACES],
    i: usize,
    e: usize,
)
    requires { (i < places) × (e < exits_of i) × Ranged (table_of t.now) ×
        ((counts : List ℕ) × Pending (table_of t.now) counts left.old marks.old (at (slot_at (table_of t.now)) (exit_place i e))) }
    ensures { Withdrawn (table_of t.now) left.old marks.old left.new marks.new
        (at (slot_at (table_of t.now)) (exit_place i e)) }
{
    let j = usize::from(words::target_at(t, i, e));
    if j == 0 {
        return;
    }
    let b = words::bit_at(t, i, e);
    let q = j * COUNTERS + usize::from(b);
    let n = left[q];
    if n == 0 {
        left[0] = 1;
        return;
    }
    left[q] = n - 1;
    if n == 1 {
        if b == words::own_at(t, j) {
            marks[j] = 1;
            withdraw_step(t, left, marks, j);
        }
    }
}

// What is left at the beginning: all counters.
fn counters_of(t: &[u16; WORDS]) -> [u16; COUNTS]
    ensures { result ≡ (table_of t.now).counts }
{
    let mut left = [0u16; COUNTS];
    // The counters below q are copied.
    for q in 0..COUNTS {
        left[q] = words::count_in(t, q);
    }
    left
}

// Whether step k is marked and links to it are left, in the counter of its weak ones.
fn still_linked(t: &[u16; WORDS], left: &[u16; COUNTS], doubt: &[u16; PLACES], k: usize) -> bool
    requires { (k < places) × Ranged (table_of t.now) }
    ensures { result ≡ still_linked (table_of t.now) left.now doubt.now k }
{
    if doubt[k] != 1 {
        return false;
    }
    left[k * COUNTERS + usize::from(1 - words::own_at(t, k))] != 0
}

// The candidates, where nothing is pending: `wanted` gets 1 for each marked step that has links left.
fn mark_wanted(
    t: &[u16; WORDS],
    left: &[u16; COUNTS],
    doubt: &[u16; PLACES],
    wanted: &mut [u16; PLACES],
)
    requires { Ranged (table_of t.now) × (wanted.old ≡ replicate places 0) }
    ensures { wanted.new ≡
        tabulate places (λ k. one (still_linked (table_of t.now) left.now doubt.now k)) }
{
    // The candidates below k are marked.
    for k in 0..PLACES {
        if still_linked(t, left, doubt, k) {
            wanted[k] = 1;
        }
    }
}

// Finds the steps that are doubtful once exit e of step i is emptied, which holds the last strong link to its target: `doubt` gets 1 for each, and
// `wanted` gets 1 for each of them that has a link from a step that is not doubtful. Both are lent with zeros.
pub fn find_doubtful(
    t: &[u16; WORDS],
    i: usize,
    e: usize,
    doubt: &mut [u16; PLACES],
    wanted: &mut [u16; PLACES],
)
    requires { Losing (table_of t.now) i e × (doubt.old ≡ replicate places 0) × (wanted.old ≡ replicate places 0) }
    ensures doubt { doubt.new ≡ tabulate places (λ k. one (marked (doubtful (emptied (table_of t.now) i e)) k)) }
    ensures wanted { wanted.new ≡ tabulate places (λ k. one (candidate (emptied (table_of t.now) i e) k)) }
{
    let j = usize::from(words::target_at(t, i, e));
    let mut left = counters_of(t);
    // The counter of the exit's own link, in which no link of a marked step counts: 0, as the search asks of a step that it marks.
    left[j * COUNTERS + usize::from(words::own_at(t, j))] = 0;
    doubt[j] = 1;
    withdraw_step(t, &mut left, doubt, j);
    mark_wanted(t, &left, doubt, wanted);
}

// Whether every counter has come to 0.
fn all_zero(left: &[u16; COUNTS]) -> bool
    ensures { result ≡ all (places * counters) (λ q. eqb (get_or left.now q 0) 0) }
{
    passing(0, COUNTS, |q| left[q] != 0) == 0
}

// Whether the steps marked are those in use.
fn all_used(t: &[u16; WORDS], marks: &[u16; PLACES]) -> bool
    ensures { result ≡ all places (λ i. eqb (get_or (table_of t.now).used i 0) (get_or marks.now i 0)) }
{
    passing(0, PLACES, |i| words::used_at(t, i) != marks[i]) == 0
}

// Withdraws step 0 on a copy of the counters, weak links too, each from the counter of its own bit: whether every counter comes to 0, none having
// gone below, and the steps marked are those in use.
pub fn spans(t: &[u16; WORDS]) -> bool
    requires { Ranged (table_of t.now) }
    ensures { Spans (table_of t.now) result }
{
    let mut left = counters_of(t);
    let mut marks = [0u16; PLACES];
    marks[0] = 1;
    withdraw_step(t, &mut left, &mut marks, 0);
    if !all_zero(&left) {
        return false;
    }
    all_used(t, &marks)
}

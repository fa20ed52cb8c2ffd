// Rules 3 and 4 of clearing on the lent table: doubtful steps are taken back; those still doubtful are freed. For a preview: which steps would stay.

#![tactic(auto)]

ghost use Rattle.std.specs.Prelude.{◌≡◌, ◌+◌, ◌<◌, length, set};
ghost use Rattle.table.specs.Table.{Table, places, exits_of, linked};
ghost use Rattle.table.specs.Sound.{Formed};
ghost use Rattle.table.specs.Clear.{weakened, restored, repair, unlinked, each_doubtful, release};
ghost use Rattle.words.specs.Words.{table_of, Becomes};
ghost use Rattle.marking.specs.Marking.{meant};
ghost use Rattle.repairing.specs.Repairing.{under_repair, as_marks, Standing, Repairable, Added, Candidates, Settling};

use words::{PLACES, WORDS};

// The link in exit e of step k, where it is strong, is made weak, and the counters follow.
fn weaken_exit(t: &mut [u16; WORDS], k: usize, e: usize)
    requires { Standing (table_of t.old) k × (e < exits_of k) }
    ensures { Becomes t.old t.new (weakened (table_of t.old) k e) }
{
    let target = words::target_at(t, k, e);
    let b = words::bit_at(t, k, e);
    let j = usize::from(target);
    if j == 0 {
        return;
    }
    if b != words::own_at(t, j) {
        return;
    }
    words::relink(t, k, e, target, 1 - b);
}

// Rule 3: the bit of step k is flipped, as by `Swap` of source paper 001, and then every strong link out of it is made weak.
fn restore_step(t: &mut [u16; WORDS], k: usize)
    requires { Standing (table_of t.old) k }
    ensures { Becomes t.old t.new (restored (table_of t.old) k) }
{
    words::flip(t, k);
    // The links in the exits below e are weak.
    for e in 0..words::exits_of(k) {
        weaken_exit(t, k, e);
    }
}

// Step i becomes a candidate where it is a doubtful step; 0 stands for no step. Gives back the low mark: i where it is a candidate below `low`,
// else `low`.
// `doubt` and `wanted` stay two parameters, here and below: a struct of both would be no plainer, since `doubt` is only read where `wanted` grows.
fn want_step(i: usize, low: usize, doubt: &[u16; PLACES], wanted: &mut [u16; PLACES]) -> usize
    requires { (i < places) × (length wanted.old ≡ places) }
    ensures { Added (meant i) doubt.now wanted.old wanted.new low result }
{
    if i == 0 {
        return low;
    }
    if doubt[i] != 1 {
        return low;
    }
    wanted[i] = 1;
    if i < low {
        return i;
    }
    low
}

// The doubtful steps that step k has a link to become candidates. Gives back the low mark, below which no candidate is new.
fn want_targets(
    t: &[u16; WORDS],
    k: usize,
    low: usize,
    doubt: &[u16; PLACES],
    wanted: &mut [u16; PLACES],
) -> usize
    requires { (k < places) × (length wanted.old ≡ places) × Formed (table_of t.now) }
    ensures { Added (linked (table_of t.now) k) doubt.now wanted.old wanted.new low result }
{
    let mut mark = low;
    // The doubtful steps that the exits below e lead to are candidates, and none below `mark` is new.
    for e in 0..words::exits_of(k) {
        mark = want_step(usize::from(words::target_at(t, k, e)), mark, doubt, wanted);
    }
    mark
}

// Step k, a candidate, is doubtful no more, and the doubtful steps that it has a link to become candidates. Gives back the low mark: the step after k,
// or the lowest new candidate below it.
fn keep_step(
    t: &[u16; WORDS],
    k: usize,
    doubt: &mut [u16; PLACES],
    wanted: &mut [u16; PLACES],
) -> usize
    requires { (k < places) × (length wanted.old ≡ places) × Formed (table_of t.now) }
    ensures certain { doubt.new ≡ set doubt.old k 0 }
    ensures added { Added (linked (table_of t.now) k) doubt.new (set wanted.old k 0) wanted.new (k + 1) result }
{
    doubt[k] = 0;
    wanted[k] = 0;
    want_targets(t, k, k + 1, doubt, wanted)
}

// Rule 3: while there is a candidate, the lowest is taken back, and the doubtful steps that it has a link to become candidates. `wanted` has the first
// candidates. `doubt` is left with the steps still doubtful. Source paper 001 flips bits within its search, in the order in which it meets the nodes;
// document 01 takes the lowest candidate first, and decides.
pub fn repair_steps(
    t: &mut [u16; WORDS],
    n: usize,
    doubt: &mut [u16; PLACES],
    wanted: &mut [u16; PLACES],
)
    requires { Repairable (table_of t.old) n doubt.old × Candidates n (linked (table_of t.old)) doubt.old wanted.old 0 }
    ensures repaired { under_repair (table_of t.new) doubt.new ≡
        repair n (under_repair (table_of t.old) doubt.old) }
    ensures able { Repairable (table_of t.new) n doubt.new }
    ensures size { length t.new ≡ length t.old }
{
    let mut low = 0;
    // `wanted` has the candidates, and none is below `low`.
    // It stays a `while`: it jumps back to the lowest new candidate, and a `for` with such jumps would be no plainer.
    while low < n {
        if wanted[low] == 1 {
            restore_step(t, low);
            low = keep_step(t, low, doubt, wanted);
        } else {
            low += 1;
        }
    }
}

// Rule 3 on the marks alone: `doubt` is left with the steps that a repair leaves doubtful, and no link is made weak. The table repaired is one in which
// the doubtful steps have the same links as in t: in t the exit that is to be cleared may still hold its link.
pub fn keep_steps(t: &[u16; WORDS], n: usize, doubt: &mut [u16; PLACES], wanted: &mut [u16; PLACES])
    requires { Formed (table_of t.now) × ((u : Table) × Settling (table_of t.now) u n doubt.old wanted.old) }
    ensures { (u : Table) → Settling (table_of t.now) u n doubt.old wanted.old →
        as_marks n doubt.new ≡ (repair n (under_repair u doubt.old)).doubt }
{
    let mut next = 0;
    // `wanted` has the candidates, and none is below `next`.
    // It stays a `while`: it jumps back to the lowest new candidate, and a `for` with such jumps would be no plainer.
    while next < n {
        if wanted[next] == 1 {
            next = keep_step(t, next, doubt, wanted);
        } else {
            next += 1;
        }
    }
}

// Rule 4: the exits of step k are emptied, and its links leave the counters.
fn unlink_step(t: &mut [u16; WORDS], k: usize)
    requires { Standing (table_of t.old) k }
    ensures { Becomes t.old t.new (unlinked (table_of t.old) k) }
{
    // The exits below e are empty.
    for e in 0..words::exits_of(k) {
        words::relink(t, k, e, 0, 0);
    }
}

// Rule 4: the links of the steps still doubtful leave the counters.
fn unlink_steps(t: &mut [u16; WORDS], n: usize, doubt: &[u16; PLACES])
    requires { Repairable (table_of t.old) n doubt.now }
    ensures parted { Becomes t.old t.new
        (each_doubtful (as_marks n doubt.now) unlinked (table_of t.old)) }
    ensures able { Repairable (table_of t.new) n doubt.now }
{
    // The doubtful steps below k hold no link.
    for k in 0..n {
        if doubt[k] == 1 {
            unlink_step(t, k);
        }
    }
}

// Rule 4: the steps still doubtful are freed. Their links leave the counters, and then their records become zero. Source paper 001 deletes the pointers of
// a freed node one by one, and each can start a search again; document 01 frees all these steps together, without a search, and decides.
pub fn free_steps(t: &mut [u16; WORDS], n: usize, doubt: &[u16; PLACES])
    requires { Repairable (table_of t.old) n doubt.now }
    ensures { Becomes t.old t.new (release (table_of t.old) (as_marks n doubt.now)) }
{
    unlink_steps(t, n, doubt);
    // The records of the doubtful steps below k are zero.
    for k in 0..n {
        if doubt[k] == 1 {
            words::blank_step(t, k);
        }
    }
}

// A table as an array of words that is lent to every call: which word is which field, the numbers that the documents give, and the reading and
// writing of single fields. The one place that changes a link, with its counters, is `relink`.

#![tactic(auto)]

ghost use Rattle.std.specs.Prelude.{◌≡◌, Bool, false, true, ℕ, ◌+◌, ◌*◌, ◌≤◌, ◌<◌, length, get_or, set, replicate};
ghost use Rattle.std.proofs.lemmas.List.Edits.{sets};
ghost use Rattle.finite.specs.Below.{count};
ghost use Rattle.table.specs.Table.{places, exits_of, exit_places, counters, quota_numbers, exit_place, in_use, kind_of, content_of, own_bit, cabin_of, target_of, link_bit, counter_of, with_links, with_steps, with_numbers};
ghost use Rattle.table.specs.Calls.{lowered, raised, relink, with_step};
ghost use Rattle.table.specs.Clear.{flipped, blanked};
ghost use Rattle.words.specs.Words.{words, table_of, words_of, blank_table, with_fields, Becomes, Relinkable};

use table::Fields;

// The words of a table.
pub const WORDS: usize = 1938;

// A table has places for 128 steps; a step has four exits and two counters.
pub const PLACES: usize = 128;

pub const EXITS: usize = 4;

// The exits that step 0 has beside its four, one for each entry: none yet (document 02, W12).
const ENTRIES: usize = 0;

pub const COUNTERS: usize = 2;
// Eight cabins share a table (document 02, W5); each has a guarantee and a limit in the list of quotas.
pub const CABINS: usize = 8;

pub const QUOTAS: usize = 16;

// The kind of a contact, which alone has a line result. A number, since any may stand in the word of a kind, and an enum would say no more.
pub const CONTACT: u16 = 1;

// The bytes that a lent buffer has to have where steps are listed in it: one for every step but step 0.
pub const STEPS_ROOM: usize = 127;

// The places of all exits, and of all counters.
pub const LINKS: usize = 512;

pub const COUNTS: usize = 256;

// Where the fields begin; the capacity is word 0 and the last number given word 1.
const USED_FROM: usize = 2;

const KINDS_FROM: usize = 130;

const CONTENTS_FROM: usize = 258;

const OWN_FROM: usize = 386;

const TARGETS_FROM: usize = 514;

const BITS_FROM: usize = 1026;

const COUNTS_FROM: usize = 1538;

const CABINS_FROM: usize = 1794;

pub const QUOTAS_FROM: usize = 1922;

// How many numbers from `first` on, below `end`, pass a test. Those below `first` are known not to.
pub fn passing<F: Fn(usize) -> bool>(first: usize, end: usize, test: F) -> u16
    requires range { (first ≤ end) × (end ≤ 65535) }
    requires callable { (k : ℕ) → k < end → F.pre test k }
    ensures { (p : ℕ → Bool) → ((k : ℕ) → k < first → p k ≡ false) →
        ((k : ℕ) (r : Bool) → first ≤ k → k < end → F.post test k r → r ≡ p k) → result ≡ count end p }
{
    let mut n = 0u16;
    // n numbers below k pass.
    for k in first..end {
        if test(k) {
            n += 1;
        }
    }
    n
}

pub fn capacity(t: &[u16; WORDS]) -> u16
    ensures { result ≡ (table_of t.now).capacity }
{
    t[0]
}

// The number last given to a step.
pub fn last(t: &[u16; WORDS]) -> u16
    ensures { result ≡ (table_of t.now).last }
{
    t[1]
}

// 1 for a step in use, 0 for a free one.
pub fn used_at(t: &[u16; WORDS], i: usize) -> u16
    requires { i < places }
    ensures { result ≡ get_or (table_of t.now).used i 0 }
{
    t[USED_FROM + i]
}

pub fn in_use(t: &[u16; WORDS], i: usize) -> bool
    requires { i < places }
    ensures { result ≡ in_use (table_of t.now) i }
{
    used_at(t, i) == 1
}

pub fn kind_at(t: &[u16; WORDS], i: usize) -> u16
    requires { i < places }
    ensures { result ≡ kind_of (table_of t.now) i }
{
    t[KINDS_FROM + i]
}

pub fn content_at(t: &[u16; WORDS], i: usize) -> u16
    requires { i < places }
    ensures { result ≡ content_of (table_of t.now) i }
{
    t[CONTENTS_FROM + i]
}

// The bit of its own that step i has.
pub fn own_at(t: &[u16; WORDS], i: usize) -> u16
    requires { i < places }
    ensures { result ≡ own_bit (table_of t.now) i }
{
    t[OWN_FROM + i]
}

// The cabin that added step i.
pub fn cabin_at(t: &[u16; WORDS], i: usize) -> u16
    requires { i < places }
    ensures { result ≡ cabin_of (table_of t.now) i }
{
    t[CABINS_FROM + i]
}

// Number k of the quotas: of each cabin its guarantee, then its limit.
pub fn quota_in(t: &[u16; WORDS], k: usize) -> u16
    requires { k < quota_numbers }
    ensures { result ≡ get_or (table_of t.now).quotas k 0 }
{
    t[QUOTAS_FROM + k]
}

// The target in the exit at place p; 0 is an empty exit.
pub fn target_in(t: &[u16; WORDS], p: usize) -> u16
    requires { p < exit_places places }
    ensures { result ≡ get_or (table_of t.now).targets p 0 }
{
    t[TARGETS_FROM + p]
}

// The bit of the link in the exit at place p.
pub fn bit_in(t: &[u16; WORDS], p: usize) -> u16
    requires { p < exit_places places }
    ensures { result ≡ get_or (table_of t.now).bits p 0 }
{
    t[BITS_FROM + p]
}

// The counter at place q.
pub fn count_in(t: &[u16; WORDS], q: usize) -> u16
    requires { q < places * counters }
    ensures { result ≡ get_or (table_of t.now).counts q 0 }
{
    t[COUNTS_FROM + q]
}

// The number of exits of step i.
pub fn exits_of(i: usize) -> usize
    ensures { result ≡ exits_of i }
{
    if i == 0 { EXITS + ENTRIES } else { EXITS }
}

// How many places the exits of the steps below n have: those of the entries, which stand first, and four for each step.
pub fn exit_places(n: usize) -> usize
    requires { n ≤ places }
    ensures { result ≡ exit_places n }
{
    ENTRIES + n * EXITS
}

// The place of exit e of step i.
pub fn exit_place(i: usize, e: usize) -> usize
    requires { (i < places) × (e < exits_of i) }
    ensures { result ≡ exit_place i e }
{
    if e < EXITS {
        exit_places(i) + e
    } else {
        e - EXITS
    }
}

// The target in exit e of step i.
pub fn target_at(t: &[u16; WORDS], i: usize, e: usize) -> u16
    requires { (i < places) × (e < exits_of i) }
    ensures { result ≡ target_of (table_of t.now) i e }
{
    target_in(t, exit_place(i, e))
}

// The bit of the link in exit e of step i.
pub fn bit_at(t: &[u16; WORDS], i: usize, e: usize) -> u16
    requires { (i < places) × (e < exits_of i) }
    ensures { result ≡ link_bit (table_of t.now) i e }
{
    bit_in(t, exit_place(i, e))
}

// Counter b of step j.
pub fn counter_at(t: &[u16; WORDS], j: usize, b: usize) -> u16
    requires { (j < places) × (b < counters) }
    ensures { result ≡ counter_of (table_of t.now) j b }
{
    count_in(t, j * COUNTERS + b)
}

// Every word is zero but the capacity and the last number given: no step is in use.
pub fn erase(t: &mut [u16; WORDS], capacity: u16, last: u16)
    ensures { t.new ≡ words_of (blank_table capacity last) }
{
    *t = [0u16; WORDS];
    t[0] = capacity;
    t[1] = last;
}

// Step n is in use, of that kind, content and cabin, as the number last given.
pub fn take_step(t: &mut [u16; WORDS], n: u16, kind: u16, content: u16, cabin: u16)
    requires { n < places }
    ensures { Becomes t.old t.new (with_step (table_of t.old) n kind content cabin) }
{
    let i = usize::from(n);
    t[1] = n;
    t[USED_FROM + i] = 1;
    t[KINDS_FROM + i] = kind;
    t[CONTENTS_FROM + i] = content;
    t[CABINS_FROM + i] = cabin;
}

// The capacity and the last number given are set; the steps and the quotas stay.
pub fn put_numbers(t: &mut [u16; WORDS], capacity: u16, last: u16)
    ensures { Becomes t.old t.new (with_numbers (table_of t.old) capacity last (table_of t.old).quotas) }
{
    t[0] = capacity;
    t[1] = last;
}

// The quotas are set; all else stays.
pub fn put_quotas(t: &mut [u16; WORDS], quotas: &[u16; QUOTAS])
    ensures { Becomes t.old t.new (with_numbers (table_of t.old) (table_of t.old).capacity
        (table_of t.old).last quotas.now) }
{
    put_words(t, QUOTAS_FROM, quotas);
}

// Step i is in use where `used` is 1, free where it is 0, with these fields; its links, its counters and the number last given stay.
pub fn put_step(
    t: &mut [u16; WORDS],
    i: usize,
    used: u16,
    kind: u16,
    content: u16,
    own: u16,
    cabin: u16,
)
    requires { i < places }
    ensures { Becomes t.old t.new (with_steps (table_of t.old) (table_of t.old).last
        (set (table_of t.old).used i used) (set (table_of t.old).kinds i kind)
        (set (table_of t.old).contents i content) (set (table_of t.old).own i own)
        (set (table_of t.old).cabins i cabin)) }
{
    t[USED_FROM + i] = used;
    t[KINDS_FROM + i] = kind;
    t[CONTENTS_FROM + i] = content;
    t[OWN_FROM + i] = own;
    t[CABINS_FROM + i] = cabin;
}

// The bit of its own that step i has is turned.
pub fn flip(t: &mut [u16; WORDS], i: usize)
    requires { (i < places) × (own_bit (table_of t.old) i < counters) }
    ensures { Becomes t.old t.new (flipped (table_of t.old) i) }
{
    t[OWN_FROM + i] = 1 - own_at(t, i);
}

// The record of step i becomes zero; its links are not looked at.
pub fn blank_step(t: &mut [u16; WORDS], i: usize)
    requires { i < places }
    ensures { Becomes t.old t.new (blanked (table_of t.old) i) }
{
    put_step(t, i, 0, 0, 0, 0, 0);
    put_counts(t, i, [0u16; COUNTERS]);
}

// A target and a bit are put into exit e of step i; no counter changes.
pub fn put_link(t: &mut [u16; WORDS], i: usize, e: usize, j: u16, b: u16)
    requires { (i < places) × (e < exits_of i) }
    ensures { Becomes t.old t.new (with_links (table_of t.old)
        (set (table_of t.old).targets (exit_place i e) j) (set (table_of t.old).bits (exit_place i e) b)
        (table_of t.old).counts) }
{
    let p = exit_place(i, e);
    t[TARGETS_FROM + p] = j;
    t[BITS_FROM + p] = b;
}

// The words from a place on are set to these few numbers. A `copy_from_slice` would test in each call whether they overlap with the table, which
// takes a third more time for the record of a step.
fn put_words(t: &mut [u16; WORDS], from: usize, numbers: &[u16])
    requires { from + length numbers.now ≤ words }
    ensures { t.new ≡ sets t.old from numbers.now }
{
    // The first k numbers are put.
    for (k, number) in numbers.iter().enumerate() {
        t[from + k] = *number;
    }
}

// Targets and bits are put into the four exits of step i; no counter changes.
pub fn put_links(t: &mut [u16; WORDS], i: usize, targets: [u16; EXITS], bits: [u16; EXITS])
    requires { i < places }
    ensures { Becomes t.old t.new (with_links (table_of t.old)
        (sets (table_of t.old).targets (exit_places i) targets) (sets (table_of t.old).bits (exit_places i) bits)
        (table_of t.old).counts) }
{
    let p = exit_places(i);
    put_words(t, TARGETS_FROM + p, &targets);
    put_words(t, BITS_FROM + p, &bits);
}

// Both counters of step i are set.
fn put_counts(t: &mut [u16; WORDS], i: usize, counts: [u16; COUNTERS])
    requires { i < places }
    ensures { Becomes t.old t.new (with_links (table_of t.old)
        (table_of t.old).targets (table_of t.old).bits (sets (table_of t.old).counts (i * counters) counts)) }
{
    put_words(t, COUNTS_FROM + i * COUNTERS, &counts);
}

// The whole record of step i is set: in use where `used` is 1, free where it is 0, with these fields.
pub fn put_fields(t: &mut [u16; WORDS], i: usize, used: u16, f: Fields)
    requires { i < places }
    ensures { Becomes t.old t.new (with_fields (table_of t.old) i used f) }
{
    put_step(t, i, used, f.kind, f.content, f.own, f.cabin);
    put_links(t, i, f.targets, f.bits);
    put_counts(t, i, f.counts);
}

// All counters are set to 0.
pub fn zero_counts(t: &mut [u16; WORDS])
    ensures { Becomes t.old t.new (with_links (table_of t.old)
        (table_of t.old).targets (table_of t.old).bits (replicate (places * counters) 0)) }
{
    t[COUNTS_FROM..COUNTS_FROM + COUNTS].fill(0);
}

// Counter b of step j falls by one; step 0 stands for no step. `raise` stays apart from it: they differ by a sign, but each asks something else.
fn lower(t: &mut [u16; WORDS], j: u16, b: u16)
    requires { (j < places) × (b < counters) × ((j ≡ 0 → ⊥) → 0 < counter_of (table_of t.old) j b) }
    ensures { Becomes t.old t.new (with_links (table_of t.old)
        (table_of t.old).targets (table_of t.old).bits (lowered j b (table_of t.old).counts)) }
{
    if j != 0 {
        let q = usize::from(j) * COUNTERS + usize::from(b);
        t[COUNTS_FROM + q] = count_in(t, q) - 1;
    }
}

// Counter b of step j rises by one; step 0 stands for no step.
pub fn raise(t: &mut [u16; WORDS], j: u16, b: u16)
    requires { (j < places) × (b < counters) × ((j ≡ 0 → ⊥) → counter_of (table_of t.old) j b < 65535) }
    ensures { Becomes t.old t.new (with_links (table_of t.old)
        (table_of t.old).targets (table_of t.old).bits (raised j b (table_of t.old).counts)) }
{
    if j != 0 {
        let q = usize::from(j) * COUNTERS + usize::from(b);
        t[COUNTS_FROM + q] = count_in(t, q) + 1;
    }
}

// What exit e of step i holds leaves the counters, and a link to j with bit b takes its place and is counted; with j 0 the exit is emptied.
pub fn relink(t: &mut [u16; WORDS], i: usize, e: usize, j: u16, b: u16)
    requires { Relinkable (table_of t.old) i e j b }
    ensures { Becomes t.old t.new (relink (table_of t.old) i e j b) }
{
    let old = target_at(t, i, e);
    let old_bit = bit_at(t, i, e);
    lower(t, old, old_bit);
    raise(t, j, b);
    put_link(t, i, e, j, b);
}

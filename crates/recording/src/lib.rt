// What stands between a step record and a table (document 01, "Image"; document 02, W5 and W9): the record of a step, a record put in place, the counters
// worked out from the links, and the contents of edition 1. What is said of them is in the crate image; the records are of edition 2. They serve the image
// and the slips.

#![tactic(auto)]

ghost use Rattle.std.specs.Prelude.{◌≡◌, true, ℕ, ◌+◌, ◌*◌, ◌<◌, ◌≤◌, get_or, replicate};
ghost use Rattle.table.specs.Table.{places, counters};
ghost use Rattle.table.specs.Sound.{sound};
ghost use Rattle.image.specs.Image.{edition1, edition2, step_fields_of, with_record, counted, old_content, contents_sayable};
ghost use Rattle.words.specs.Words.{table_of, Becomes};
ghost use Rattle.records.specs.Records.{record_fields};

use records::StepRecord;
use words::WORDS;

// The five bits of a step as one number: a sum of 1, 2, 4, 8 for the exits in order and 16 for the step.
fn pack(first: u16, second: u16, third: u16, fourth: u16, own: u16) -> u16
    requires { (first < 2) × (second < 2) × (third < 2) × (fourth < 2) × (own < 2) }
    ensures { result ≡ first + 2 * second + 4 * third + 8 * fourth + 16 * own }
{
    first + 2 * second + 4 * third + 8 * fourth + 16 * own
}

// The record of step i of a sound table, in use or free.
pub fn step_record(t: &[u16; WORDS], i: usize) -> StepRecord
    requires { (i < places) × (sound (table_of t.now) ≡ true) }
    ensures { record_fields edition2 result ≡ step_fields_of edition2 (table_of t.now) i }
{
    let sum = pack(
        words::bit_at(t, i, 0),
        words::bit_at(t, i, 1),
        words::bit_at(t, i, 2),
        words::bit_at(t, i, 3),
        words::own_at(t, i),
    );
    StepRecord {
        number: i as u16,
        kind: words::kind_at(t, i),
        content: words::content_at(t, i),
        bits: sum,
        first: words::target_at(t, i, 0),
        second: words::target_at(t, i, 1),
        third: words::target_at(t, i, 2),
        fourth: words::target_at(t, i, 3),
        cabin: words::cabin_at(t, i),
    }
}

// The step of a record is in use, with the record's fields; no counter changes.
pub fn put_record(t: &mut [u16; WORDS], r: StepRecord)
    requires { r.number < places }
    ensures { Becomes t.old t.new (with_record (table_of t.old) (record_fields edition2 r)) }
{
    let i = usize::from(r.number);
    let bits = r.bits;
    words::put_step(t, i, 1, r.kind, r.content, bits / 16 % 2, r.cabin);
    let targets = [r.first, r.second, r.third, r.fourth];
    let link_bits = [bits % 2, bits / 2 % 2, bits / 4 % 2, bits / 8 % 2];
    words::put_links(t, i, targets, link_bits);
}

// Works out the counters of every step, all zero so far, from the links out of the steps below the capacity. A target that no table has is
// passed over: the table is not sound then.
pub fn count_links(t: &mut [u16; WORDS])
    requires { ((table_of t.old).capacity ≤ places) × ((p : ℕ) → get_or (table_of t.old).bits p 0 < counters) ×
        ((table_of t.old).counts ≡ replicate (places * counters) 0) }
    ensures { Becomes t.old t.new (counted (table_of t.old)) }
{
    let n = words::exit_places(usize::from(words::capacity(t)));
    // The links in the exits before the place p are counted.
    for p in 0..n {
        let target = words::target_in(t, p);
        if usize::from(target) < words::PLACES {
            let bit = words::bit_in(t, p);
            words::raise(t, target, bit);
        }
    }
}

// Works out the counters of every step anew, whatever they are.
pub fn recount(t: &mut [u16; WORDS])
    requires { ((table_of t.old).capacity ≤ places) × ((p : ℕ) → get_or (table_of t.old).bits p 0 < counters) }
    ensures { Becomes t.old t.new (counted (table_of t.old)) }
{
    words::zero_counts(t);
    count_links(t);
}

// Whether an old telephone takes a content: all but a contact above 99. Both numbers are looked at, without a branch, since that counts quicker.
fn old_content(kind: u16, content: u16) -> bool
    ensures { result ≡ old_content kind content }
{
    (kind != 1) | (content <= 99)
}

// Whether edition 1 can say the contents of a table.
pub fn has_old_contents(t: &[u16; WORDS]) -> bool
    requires { (table_of t.now).capacity ≤ places }
    ensures { result ≡ contents_sayable edition1 (table_of t.now) }
{
    let larger = words::passing(
        0,
        usize::from(words::capacity(t)),
        |i| !old_content(words::kind_at(t, i), words::content_at(t, i)),
    );
    larger == 0
}

// The pairs of records of a slip: the old and the new record of each step that differs in two tables, written and compared (document 02, W7). What they
// are is in the crate image. The records are of edition 2.

#![tactic(auto)]

ghost use Rattle.std.specs.Prelude.{◌≡◌, ◌++◌, ◌*◌, ◌<◌, ◌≤◌, length, take, drop};
ghost use Rattle.finite.specs.Below.{count, same};
ghost use Rattle.table.specs.Table.{places};
ghost use Rattle.image.specs.Slip.{record_length, record_in, changed, pairs_below};
ghost use Rattle.words.specs.Words.{table_of};
ghost use Rattle.pairs.specs.SoundPair.{SoundPair};

use records::Edition;
use words::WORDS;

// The bytes of a record, and of an old and a new one.
const RECORD: usize = 22;

pub const PAIR: usize = 44;

// The two tables that a slip is of, both sound and of one capacity: the old records are those of t, the new ones those of u.
#[derive(Clone, Copy, Drop)]
pub struct Tables<'a> {
    pub t: &'a [u16; WORDS],
    pub u: &'a [u16; WORDS],
    ghost sound: { SoundPair (table_of t.now) (table_of u.now) },
}

impl Tables<'_> {
    // Whether step i has another record in the second table than in the first.
    fn differs(&self, i: usize) -> bool
        requires { i < places }
        ensures { result ≡ changed (table_of self.now.t.now) (table_of self.now.u.now) i }
    {
        let old = recording::step_record(self.t, i);
        let new = recording::step_record(self.u, i);
        old != new
    }

    // The number of steps whose record differs.
    pub fn count_changed(&self) -> u16
        ensures { result ≡ count (table_of self.now.t.now).capacity (changed (table_of self.now.t.now) (table_of self.now.u.now)) }
    {
        words::passing(0, usize::from(words::capacity(self.t)), |i| self.differs(i))
    }

    // Puts the old and the new record of step i at the start of the part.
    fn put_pair(&self, part: &mut [u8], i: usize)
        requires { (2 * record_length ≤ length part.old) × (i < places) }
        ensures { part.new ≡
            (record_in (table_of self.now.t.now) i ++ record_in (table_of self.now.u.now) i) ++ drop (2 * record_length) part.old }
    {
        let old = recording::step_record(self.t, i);
        records::put_step(part, Edition::Two, old);
        let new = recording::step_record(self.u, i);
        records::put_step(&mut part[RECORD..], Edition::Two, new);
    }

    // Puts the records of all steps that differ at the start of the part, by ascending step.
    pub fn put_pairs(&self, part: &mut [u8])
        requires { length (pairs_below (table_of self.now.t.now) (table_of self.now.u.now) (table_of self.now.t.now).capacity) ≤ length part.old }
        ensures { part.new ≡
            pairs_below (table_of self.now.t.now) (table_of self.now.u.now) (table_of self.now.t.now).capacity ++
            drop (length (pairs_below (table_of self.now.t.now) (table_of self.now.u.now) (table_of self.now.t.now).capacity)) part.old }
    {
        let n = usize::from(words::capacity(self.t));
        let mut at: usize = 0;
        // The records of the steps below i that differ stand before the place at; the rest is as it was.
        for i in 0..n {
            if self.differs(i) {
                self.put_pair(&mut part[at..], i);
                at += PAIR;
            }
        }
    }

    // Whether the part begins with the old and the new record of step i.
    fn has_pair(&self, part: &[u8], i: usize) -> bool
        requires { (2 * record_length ≤ length part.now) × (i < places) }
        ensures { result ≡ same (take (2 * record_length) part.now)
            (record_in (table_of self.now.t.now) i ++ record_in (table_of self.now.u.now) i) }
    {
        let mut pair = [0u8; PAIR];
        self.put_pair(&mut pair[..], i);
        part.starts_with(&pair)
    }

    // Whether the part is the records of all steps that differ, by ascending step.
    pub fn has_pairs(&self, part: &[u8]) -> bool
        requires { length part.now ≡ length (pairs_below (table_of self.now.t.now) (table_of self.now.u.now) (table_of self.now.t.now).capacity) }
        ensures { result ≡ same (pairs_below (table_of self.now.t.now) (table_of self.now.u.now) (table_of self.now.t.now).capacity) part.now }
    {
        let n = usize::from(words::capacity(self.t));
        let mut at: usize = 0;
        // The records of the steps below i that differ stand before the place at.
        for i in 0..n {
            if self.differs(i) {
                if !self.has_pair(&part[at..], i) {
                    return false;
                }
                at += PAIR;
            }
        }
        true
    }
}

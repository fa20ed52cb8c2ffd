// Who can be rung: the steps that some trial enters, found from step 0 outward. Each step is met once, and each of its exits is read once.

#![tactic(auto)]

ghost use Rattle.std.specs.Prelude.{◌≡◌, ◌&&◌, ℕ, ◌≤◌, ◌<◌, length, eqb, Ok};
ghost use Rattle.finite.specs.Below.{count};
ghost use Rattle.table.specs.Answer.{steps_room, answer_of};
ghost use Rattle.table.specs.Table.{places, exits};
ghost use Rattle.table.specs.Sound.{Sound, Formed};
ghost use Rattle.table.specs.Trial.{is_contact};
ghost use Rattle.table.specs.Rung.{goes_on, is_entered, rung_call};
ghost use Rattle.words.specs.Words.{table_of};
ghost use Rattle.words.specs.Marks.{is_marked};
ghost use Rattle.marking.specs.Marking.{meant, linked_within};
ghost use Rattle.ringing.specs.Row.{Row, Grown, rung_of};

use table::{Answer, Refusal};
use words::{CONTACT, EXITS, PLACES, STEPS_ROOM, WORDS, passing};

// The steps met so far: a mark for each, and a row of their numbers in the order in which they were met, in its places before `end`.
#[derive(Drop)]
struct Met {
    seen: [u16; PLACES],
    row: [u16; PLACES],
    end: usize,
}

impl Met {
    // Step 0 alone, where every trial starts.
    fn start() -> Self
        ensures row { Row result }
        ensures alone { (k : ℕ) → is_marked result.seen k ≡ eqb k 0 }
    {
        let mut seen = [0u16; PLACES];
        seen[0] = 1;
        let row = [0u16; PLACES];
        Met { seen, row, end: 1 }
    }

    // Step j, which a step goes on to, joins the row at its end, unless it is there; 0 stands for no step.
    fn enter_step(&mut self, j: usize)
        requires { (j < places) × Row self.old }
        ensures { Grown (meant j) self.old self.new }
    {
        if j == 0 {
            return;
        }
        if self.seen[j] == 1 {
            return;
        }
        self.seen[j] = 1;
        self.row[self.end] = j as u16;
        self.end += 1;
    }

    // The steps that the first m exits of step i lead to join the row.
    fn enter_targets(&mut self, t: &[u16; WORDS], i: usize, m: usize)
        requires { Formed (table_of t.now) × (i < places) × (m ≤ exits) × Row self.old }
        ensures { Grown (linked_within m (table_of t.now) i) self.old self.new }
    {
        // The steps that the exits below e lead to have joined.
        for e in 0..m {
            self.enter_step(usize::from(words::target_at(t, i, e)));
        }
    }
}

// How many exits step i can go on by, from its first: a contact has a line result for each, any other step takes the answered one.
fn ways(t: &[u16; WORDS], i: usize) -> usize
    requires { i < places }
    ensures most { result ≤ exits }
    ensures ways { (j : ℕ) → goes_on (table_of t.now) i j ≡ linked_within result (table_of t.now) i j }
{
    if words::kind_at(t, i) == CONTACT {
        return EXITS;
    }
    1
}

// The steps that some trial of a sound table enters, by their marks. Each step met, step 0 first, is asked once where it goes on to.
fn marks_entered(t: &[u16; WORDS]) -> Met
    requires { Sound (table_of t.now) }
    ensures { (k : ℕ) → is_marked result.seen k ≡ is_entered (goes_on (table_of t.now)) (table_of t.now).capacity k }
{
    let mut met = Met::start();
    let mut at = 0;
    // The steps of the row before `at` go on to steps of the row alone.
    // It stays a `while`: the row grows while it is read, and a `for` over all places with a way out would be no plainer.
    while at < met.end {
        let i = usize::from(met.row[at]);
        let m = ways(t, i);
        met.enter_targets(t, i, m);
        at += 1;
    }
    met.seen[0] = 0;
    met
}

// How many of the marked steps below n are contacts.
fn count_contacts(t: &[u16; WORDS], n: usize, seen: &[u16; PLACES]) -> u16
    requires { n ≤ places }
    ensures { result ≡ count n (λ k. is_marked seen.now k && is_contact (table_of t.now) k) }
{
    passing(0, n, |k| seen[k] == 1 && words::kind_at(t, k) == CONTACT)
}

// Lists the steps that some trial of a sound table enters, in a buffer with the room. Gives back how many there are, and how many of them are contacts.
fn list_entered(t: &[u16; WORDS], buffer: &mut [u8]) -> (u16, u16)
    requires { Sound (table_of t.now) × (steps_room ≤ length buffer.old) }
    ensures answer { answer_of (Ok result) ≡ (rung_of (table_of t.now) buffer.old).answer }
    ensures written { buffer.new ≡ (rung_of (table_of t.now) buffer.old).buffer }
{
    let met = marks_entered(t);
    let n = usize::from(words::capacity(t));
    let contacts = count_contacts(t, n, &met.seen);
    let steps = marking::list_marks(n, &met.seen, buffer);
    (steps, contacts)
}

// Tells who can be rung: the numbers of the steps that some trial enters are written to the start of the buffer, ascending, a byte each. The answer has how
// many there are, and how many of them are contacts. A refused call writes nothing.
pub fn rung(t: &[u16; WORDS], buffer: &mut [u8]) -> Answer
    ensures answer { answer_of result ≡ (rung_call (table_of t.now) buffer.old).answer }
    ensures written { buffer.new ≡ (rung_call (table_of t.now) buffer.old).buffer }
{
    soundness::check_table(t)?;
    if buffer.len() < STEPS_ROOM {
        return Err(Refusal::TooShort);
    }
    Ok(list_entered(t, buffer))
}

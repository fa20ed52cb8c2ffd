// The calls on a dispatcher (document 02, W11): an array of words that is lent to every call, sixteen for the cabins and one for the cabin last served.
// Any words may stand in it.

#![tactic(auto)]

ghost use Rattle.std.specs.Prelude.{◌≡◌, ◌<◌, length};
ghost use Rattle.table.specs.Answer.{refused, answer_of, first};
ghost use Rattle.line.specs.Line.{line_cabins, dispatcher_words, around, next_cabin, fresh, raise, withdraw, next, cabin_tests, line_call, dispatcher_of, line_words_of};

use table::{Answer, Refusal};

// The words of a dispatcher: one for each cabin, then the cabin last served.
pub const LINE_WORDS: usize = 17;

const LINE_CABINS: usize = 16;

const LAST: usize = 16;

// Fresh: nobody waits, and cabin 15 counts as last served. It is not refused.
pub fn fresh(d: &mut [u16; LINE_WORDS]) -> Answer
    ensures answer { answer_of result ≡ (line_call (dispatcher_of d.old) fresh).answer }
    ensures words { d.new ≡ line_words_of (line_call (dispatcher_of d.old) fresh).dispatcher }
{
    *d = [0u16; LINE_WORDS];
    d[LAST] = 15;
    Ok((0, 0))
}

// What raise and withdraw ask, in their order.
fn check_cabin(d: &[u16; LINE_WORDS], cabin: u16) -> Result<(), Refusal>
    ensures { refused result ≡ first (cabin_tests (dispatcher_of d.now) cabin) }
{
    if LINE_CABINS <= usize::from(d[LAST]) {
        return Err(Refusal::NotSound);
    }
    if LINE_CABINS <= usize::from(cabin) {
        return Err(Refusal::NoSuchCabin);
    }
    Ok(())
}

// Raise: the cabin waits. The word of one that waits already stays as it is.
pub fn raise(d: &mut [u16; LINE_WORDS], cabin: u16) -> Answer
    ensures answer { answer_of result ≡ (line_call (dispatcher_of d.old) (raise cabin)).answer }
    ensures words { d.new ≡ line_words_of (line_call (dispatcher_of d.old) (raise cabin)).dispatcher }
{
    check_cabin(d, cabin)?;
    let c = usize::from(cabin);
    if d[c] == 0 {
        d[c] = 1;
    }
    Ok((0, 0))
}

// Withdraw: the cabin does not wait.
pub fn withdraw(d: &mut [u16; LINE_WORDS], cabin: u16) -> Answer
    ensures answer { answer_of result ≡ (line_call (dispatcher_of d.old) (withdraw cabin)).answer }
    ensures words { d.new ≡ line_words_of (line_call (dispatcher_of d.old) (withdraw cabin)).dispatcher }
{
    check_cabin(d, cabin)?;
    let c = usize::from(cabin);
    d[c] = 0;
    Ok((0, 0))
}

// The cabin after c, going round.
fn around(c: u16) -> u16
    requires { c < line_cabins }
    ensures { result ≡ around c }
{
    if c < 15 { c + 1 } else { 0 }
}

// The first waiting cabin after the one last served, going round; where nobody waits, some cabin.
fn next_cabin(d: &[u16; LINE_WORDS]) -> u16
    requires { (dispatcher_of d.now).last < line_cabins }
    ensures { result ≡ next_cabin (dispatcher_of d.now) }
{
    let mut c = around(d[LAST]);
    // Each time round: the cabin served next is the first that waits from c on, among the cabins left.
    for _ in 0..LINE_CABINS {
        if d[usize::from(c)] != 0 {
            return c;
        }
        c = around(c);
    }
    c
}

// Next: the cabin served next is the one last served, and does not wait any more. The answer is the cabin.
pub fn next(d: &mut [u16; LINE_WORDS]) -> Answer
    ensures answer { answer_of result ≡ (line_call (dispatcher_of d.old) next).answer }
    ensures words { d.new ≡ line_words_of (line_call (dispatcher_of d.old) next).dispatcher }
{
    if usize::from(d[LAST]) >= LINE_CABINS {
        return Err(Refusal::NotSound);
    }
    let cabin = next_cabin(d);
    let served = usize::from(cabin);
    if d[served] == 0 {
        return Err(Refusal::NobodyWaits);
    }
    d[served] = 0;
    d[LAST] = cabin;
    Ok((cabin, 0))
}

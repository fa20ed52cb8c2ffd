// Trials: a plan is followed from step 0 and the steps entered are written into a lent trace (document 02, W3; document 01, "Calls").

#![tactic(auto)]

ghost use Rattle.std.specs.Prelude.{◌≡◌, true, ◌≤◌, length, Ok};
ghost use Rattle.table.specs.Sound.{Sound};
ghost use Rattle.table.specs.Answer.{moves_of, tried_of};
ghost use Rattle.table.specs.Trial.{TrialOutcome, results_fit, try_from, trial_call};
ghost use Rattle.words.specs.Words.{table_of};

use table::{End, Ending, Refusal};
use words::{CONTACT, WORDS};

// The exit of all other kinds, answered.
const ANSWERED: usize = 0;

// The number of the last exit, line fault.
const LINE_FAULT: u8 = 3;

// Whether every line result is the number of an exit.
fn results_fit(results: &[u8]) -> bool
    ensures { result ≡ results_fit results.now }
{
    results.iter().all(|&number| number <= LINE_FAULT)
}

// How a trial of a sound table ends within the limit, the last step and the moves; the steps entered are written into the trace. A contact takes the exit
// of its line result, every other step the answered one. Each target is a place, so its number fits a byte.
fn follow(t: &[u16; WORDS], limit: u16, results: &[u8], trace: &mut [u8]) -> End
    requires sound { Sound (table_of t.now) }
    requires fit { results_fit results.now ≡ true }
    requires room { limit ≤ length trace.old }
    ensures { ◌≡◌ {A = TrialOutcome} (record { answer = tried_of (Ok result); trace = trace.new })
        (try_from (table_of t.now) 0 0 limit trace.old results.now) }
{
    let mut step: u16 = 0;
    let mut moves: u16 = 0;
    let mut used: usize = 0;
    // Each time round: the trial from `step`, with the results from `used` on and the moves left, ends as the whole trial does.
    // A `for` over the moves is no plainer: the trial ends by one of three tests, also at the limit, so nothing would stand behind it.
    loop {
        let mut exit = ANSWERED;
        if words::kind_at(t, usize::from(step)) == CONTACT {
            if used == results.len() {
                return End {
                    ending: Ending::Spent,
                    last: step,
                    moves,
                };
            }
            exit = usize::from(results[used]);
            used += 1;
        }
        let next = words::target_at(t, usize::from(step), exit);
        if next == 0 {
            return End {
                ending: Ending::Open,
                last: step,
                moves,
            };
        }
        if moves == limit {
            return End {
                ending: Ending::Stopped,
                last: step,
                moves,
            };
        }
        trace[usize::from(moves)] = next as u8;
        step = next;
        moves += 1;
    }
}

// The trial of a table within a limit of moves: how it ends, the last step and the moves made.
pub fn trial(t: &[u16; WORDS], limit: u16, results: &[u8], trace: &mut [u8]) -> Result<End, Refusal>
    ensures answer { tried_of result ≡ (trial_call (table_of t.now) limit results.now trace.old).answer }
    ensures trace { trace.new ≡ (trial_call (table_of t.now) limit results.now trace.old).trace }
    ensures moves { moves_of (tried_of result) ≡ moves_of (trial_call (table_of t.now) limit results.now trace.old).answer }
    ensures most { moves_of (tried_of result) ≤ limit }
{
    soundness::check_table(t)?;
    if !results_fit(results) {
        return Err(Refusal::BadResult);
    }
    let room = usize::from(limit);
    if trace.len() < room {
        return Err(Refusal::TooShort);
    }
    Ok(follow(t, limit, results, trace))
}

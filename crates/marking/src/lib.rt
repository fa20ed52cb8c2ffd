// Marks of steps, one for each place: how many there are, and the numbers of the marked steps as a list of bytes.

#![tactic(auto)]

ghost use Rattle.std.specs.Prelude.{◌≡◌, ◌++◌, ◌≤◌, length, drop};
ghost use Rattle.finite.specs.Below.{count, those};
ghost use Rattle.table.specs.Table.{places};
ghost use Rattle.words.specs.Marks.{is_marked};

use words::{PLACES, passing};

// The number of marked steps below n.
pub fn count_marks(n: usize, marks: &[u16; PLACES]) -> u16
    requires { n ≤ places }
    ensures { result ≡ count n (is_marked marks.now) }
{
    passing(0, n, |k| marks[k] == 1)
}

// Writes the numbers of the marked steps below n to the start of the buffer, ascending, a byte each; the bytes behind them stay. Gives back how many
// there are. A step is a place, so its number fits a byte.
pub fn list_marks(n: usize, marks: &[u16; PLACES], buffer: &mut [u8]) -> u16
    requires { (n ≤ places) × (count n (is_marked marks.now) ≤ length buffer.old) }
    ensures counted { result ≡ count n (is_marked marks.now) }
    ensures written { buffer.new ≡
        those n (is_marked marks.now) ++ drop (count n (is_marked marks.now)) buffer.old }
{
    let mut at = 0usize;
    // The numbers of the marked steps below k stand in the first `at` bytes.
    for (k, mark) in marks[..n].iter().enumerate() {
        if *mark == 1 {
            buffer[at] = k as u8;
            at += 1;
        }
    }
    at as u16
}

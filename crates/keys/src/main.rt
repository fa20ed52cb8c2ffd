// The program `keys`: it answers each line of its input with a line (document 01, "Keys"). What it reads and writes no contract can say; the work
// is done by the crate `session`, whose contracts say it for each block.

#![tactic(auto)]

use session::Line;
use std::io::Read;
use words::WORDS;

// A block of input has at most so many bytes.
const BLOCK: usize = 4096;
// Room for the answers of a block: eighteen bytes for each of its bytes.
const ROOM: usize = 18 * BLOCK;

// What comes after a block of input: more of it, its end, or nothing, since it could not be read or an answer could not be written.
#[derive(Clone, Copy, PartialEq, Eq, Drop)]
enum Turn {
    More,
    Ended,
    Failed,
}

// Writes answers to standard output. Where that fails, it says so on standard error, and the answer is false.
fn put(rt: &(impl Print + Eprint), answers: &[u8]) -> bool {
    match rt.write_all(answers) {
        Ok(()) => true,
        Err(error) => {
            let _ = eprintln!(rt; "keys: the answers could not be written: {error}");
            false
        }
    }
}

// Reads a block once, and writes the answers of the lines ended in it before it answers. A read that fails is said on standard error.
fn answer_block(
    rt: &(impl Print + Eprint),
    input: &mut impl Read,
    t: &mut [u16; WORDS],
    line: &mut Line,
) -> Turn {
    let mut block = [0; BLOCK];
    let n = match input.read(&mut block) {
        Ok(n) => n,
        Err(error) => {
            let _ = eprintln!(rt; "keys: the input could not be read: {error}");
            return Turn::Failed;
        }
    };
    if n == 0 {
        return Turn::Ended;
    }
    let mut out = [0; ROOM];
    let end = session::feed(t, line, &block[..n], &mut out);
    if put(rt, &out[..end]) {
        Turn::More
    } else {
        Turn::Failed
    }
}

// Answers the line begun where the input ends.
fn answer_last(rt: &(impl Print + Eprint), t: &mut [u16; WORDS], line: &Line) {
    let mut out = [0; ROOM];
    let end = session::finish(t, line, &mut out);
    put(rt, &out[..end]);
}

// The table and the line begun stand here, and are lent to all else. A proved loop has to end, and nothing says that the input does. So the loop
// counts its turns, up to a number that no run reaches.
fn main(rt: HostRuntime) {
    let mut input = rt.stdin();
    let mut t = [0; WORDS];
    let mut line = Line::new();
    session::start(&mut t);
    for _ in 0..u64::MAX {
        match answer_block(&rt, &mut input, &mut t, &mut line) {
            Turn::More => {}
            Turn::Ended => {
                answer_last(&rt, &mut t, &line);
                return;
            }
            Turn::Failed => return,
        }
    }
}

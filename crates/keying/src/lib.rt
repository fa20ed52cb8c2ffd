// Key lines: the decoder, and the call that a key line makes (document 01, "Keys").

#![tactic(auto)]

ghost use Rattle.std.specs.Prelude.{◌≡◌, true, ℕ, ◌+◌, ◌-◌, ◌≤◌, ◌<◌, length, get_or};
ghost use Rattle.finite.specs.Below.{all};
ghost use Rattle.table.specs.Answer.{answer_of};
ghost use Rattle.words.specs.Words.{table_of, words_of};
ghost use Rattle.keyline.specs.Keys.{digit, is_digit, is_line, decimal, decode, key_call};

use keyline::Command;
use table::{Answer, Refusal};
use words::WORDS;

// The alarm is held.
const HELD: u8 = b'H';

const STAR: u8 = b'*';
// The alarm is pressed.
const PRESSED: u8 = b'A';

// The digits after the star. They stay numbers: the definition of a key line asks for them as digits, and each is used once.
// The digit that adds.
const ADD: u8 = 1;
// The digit that links.
const LINK: u8 = 2;
// The digit that clears.
const CLEAR: u8 = 3;
// The digit that counts.
const COUNT: u8 = 4;

// The cabin that key lines add for (document 02, W5).
const KEY_CABIN: u16 = 0;

// The bytes of a key line before its digits.
const HEAD: usize = 3;
// All bytes of a key line but its digits.
const FRAME: usize = 4;

// Whether the n bytes of a line from a place on are digits.
fn digits(line: &[u8], from: usize, n: usize) -> bool
    requires { from + n ≤ length line.now }
    ensures { result ≡ all n (λ i. is_digit (get_or line.now (from + i) 0)) }
{
    line[from..from + n].iter().all(u8::is_ascii_digit)
}

// The number that a digit spells.
fn digit_value(key: u8) -> u16
    requires { digit 0 ≤ key }
    ensures { result ≡ key - digit 0 }
{
    u16::from(key - b'0')
}

// The number that w digits of a line spell from a place on.
fn decimal(line: &[u8], from: usize, w: usize) -> u16
    requires within { from + w ≤ length line.now }
    requires short { w ≤ 3 }
    requires spelt { (i : ℕ) → i < w → is_digit (get_or line.now (from + i) 0) ≡ true }
    ensures { result ≡ decimal line.now from w }
{
    let mut value = 0;
    // Each time round: the digits before this one spell the value.
    for key in &line[from..from + w] {
        value = value * 10 + digit_value(*key);
    }
    value
}

// Whether a line is H, star, the digit of a call, n digits and A, and nothing else. The length is looked at first.
fn is_line(line: &[u8], call: u8, n: usize) -> bool
    requires { (call ≤ 9) × (n ≤ 8) }
    ensures { result ≡ is_line line.now call n }
{
    if line.len() != n + FRAME {
        return false;
    }
    if line[0] != HELD {
        return false;
    }
    if line[1] != STAR {
        return false;
    }
    if line[2] != b'0' + call {
        return false;
    }
    if !digits(line, HEAD, n) {
        return false;
    }
    line[HEAD + n] == PRESSED
}

// The command of a key line, or none, for any bytes of any length. Steps and contents have three digits, exits and kinds one; the first digit
// stands at place 3.
pub fn decode(line: &[u8]) -> Option<Command>
    ensures { result ≡ decode line.now }
{
    if is_line(line, ADD, 8) {
        return Some(Command::Add {
            holder: decimal(line, 3, 3),
            exit: decimal(line, 6, 1),
            kind: decimal(line, 7, 1),
            content: decimal(line, 8, 3),
        });
    }
    if is_line(line, LINK, 8) {
        return Some(Command::Link {
            source: decimal(line, 3, 3),
            exit: decimal(line, 6, 1),
            second: decimal(line, 7, 3),
            other: decimal(line, 10, 1),
        });
    }
    if is_line(line, CLEAR, 4) {
        return Some(Command::Clear {
            step: decimal(line, 3, 3),
            exit: decimal(line, 6, 1),
        });
    }
    if is_line(line, COUNT, 0) {
        return Some(Command::Count);
    }
    None
}

// The call of a key line: the answer and the table of the call that it makes, or refusal 9. The line is decoded first; each call tests the table
// itself, so that it is tested once.
pub fn key_line(t: &mut [u16; WORDS], line: &[u8]) -> Answer
    ensures answer { answer_of result ≡ (key_call (table_of t.old) line.now).answer }
    ensures table { t.new ≡ words_of (key_call (table_of t.old) line.now).table }
{
    let Some(command) = decode(line) else {
        soundness::check_table(t)?;
        return Err(Refusal::NotKeyLine);
    };
    match command {
        Command::Add {
            holder,
            exit,
            kind,
            content,
        } => edits::add(t, holder, exit, kind, content, KEY_CABIN),
        Command::Link {
            source,
            exit,
            second,
            other,
        } => edits::link(t, source, exit, second, other),
        Command::Clear { step, exit } => clearing::clear(t, step, exit),
        Command::Count => edits::counts(t),
    }
}

// A session of the program `keys`: bytes go in by blocks, and a line of answer comes out for each line (document 01, "Keys").

#![tactic(auto)]

ghost use Rattle.std.specs.Prelude.{◌≡◌, List, [], ◌∷◌, ℕ, ◌+◌, ◌*◌, ◌≤◌, ◌<◌, ◌↔◌, length, take, IsTrue};
ghost use Rattle.std.proofs.lemmas.List.Edits.{sets};
ghost use Rattle.table.specs.Answer.{answer_of};
ghost use Rattle.words.specs.Words.{table_of};
ghost use Rattle.keyline.specs.Keys.{key_call};
ghost use Rattle.session.specs.Puts.{Puts};
ghost use Rattle.session.specs.Session.{kept_most, spelled, number_then, three_numbers, printed, keep, feed, fed_output, finish_output, first_state, state_of};

use itoa::Buffer;
use std::marker::Model;
use table::Answer;
use words::WORDS;

// The byte that ends a line.
const LINE_END: u8 = b'\n';
// The blank between two numbers.
const BLANK: u8 = b' ';
// The bytes that are kept of a line: one more than the longest key line has.
pub const KEPT: usize = 13;
// The capacity of the table.
const CAPACITY: u16 = 128;

// What is kept of the line begun. A clause sees the bytes; there are none where no line is begun.
#[derive(Drop)]
pub struct Line {
    bytes: [u8; KEPT],
    kept: usize,
}

impl Model for Line {
    ghost Value = { List ℕ };

    ghost view = { λ l. take l.kept l.bytes };

    ghost invariant = { λ l. l.kept ≤ kept_most };
}

impl Line {
    // No line is begun.
    pub fn new() -> Self
        ensures { result ≡ [] }
    {
        Line {
            bytes: [0; KEPT],
            kept: 0,
        }
    }

    // Keeps a byte, where fewer than 13 are kept.
    pub fn keep(&mut self, byte: u8)
        ensures { self.new ≡ keep self.old byte }
    {
        if self.kept < KEPT {
            self.bytes[self.kept] = byte;
            self.kept += 1;
        }
    }

    // The line is ended: none is begun.
    pub fn clear(&mut self)
        ensures { self.new ≡ [] }
    {
        self.kept = 0;
    }

    pub fn is_empty(&self) -> bool
        ensures { IsTrue result ↔ (self.now ≡ []) }
    {
        self.kept == 0
    }

    // The bytes that are kept, in their order.
    pub fn as_bytes(&self) -> &[u8]
        ensures { result.now ≡ self.now }
    {
        &self.bytes[..self.kept]
    }
}

// The output of a block or of the end of input: the bytes lent for it, and the place after those that are put.
#[derive(Drop)]
struct Writer<'a> {
    bytes: &'a mut [u8],
    at: usize,
}

impl<'a> Writer<'a> {
    // Puts a byte.
    fn put_byte(&mut self, byte: u8)
        requires { self.old.at < length self.old.bytes.now }
        ensures { Puts self.old self.new (byte ∷ []) }
    {
        self.bytes[self.at] = byte;
        self.at += 1;
    }

    // Puts the decimal digits of a number.
    fn put_number(&mut self, n: u16)
        requires { self.old.at + length (spelled n) ≤ length self.old.bytes.now }
        ensures { Puts self.old self.new (spelled n) }
    {
        let mut buffer = Buffer::new();
        let digits = buffer.format(n).as_bytes();
        let end = self.at + digits.len();
        self.bytes[self.at..end].copy_from_slice(digits);
        self.at = end;
    }

    // Puts a number and the byte after it.
    fn put_number_then(&mut self, n: u16, byte: u8)
        requires { self.old.at + 6 ≤ length self.old.bytes.now }
        ensures { Puts self.old self.new (number_then n byte) × (self.new.at ≤ self.old.at + 6) }
    {
        self.put_number(n);
        self.put_byte(byte);
    }

    // Puts three numbers as a line.
    fn put_numbers(&mut self, refusal: u16, first: u16, second: u16)
        requires { self.old.at + 18 ≤ length self.old.bytes.now }
        ensures { Puts self.old self.new (three_numbers refusal first second) × (self.new.at ≤ self.old.at + 18) }
    {
        self.put_number_then(refusal, BLANK);
        self.put_number_then(first, BLANK);
        self.put_number_then(second, LINE_END);
    }

    // Puts the line of an answer.
    fn put_answer(&mut self, answer: Answer)
        requires { self.old.at + 18 ≤ length self.old.bytes.now }
        ensures { Puts self.old self.new (printed (answer_of answer)) × (self.new.at ≤ self.old.at + 18) }
    {
        match answer {
            Err(why) => self.put_numbers(why.into(), 0, 0),
            Ok((first, second)) => self.put_numbers(0, first, second),
        }
    }

    // The call of a line, and the line that answers it, which is put.
    fn end_line(&mut self, t: &mut [u16; WORDS], line: &[u8])
        requires { self.old.at + 18 ≤ length self.old.bytes.now }
        ensures table { table_of t.new ≡ (key_call (table_of t.old) line.now).table }
        ensures text { Puts self.old self.new (printed (key_call (table_of t.old) line.now).answer) }
        ensures room { self.new.at ≤ self.old.at + 18 }
    {
        let answer = keying::key_line(t, line);
        self.put_answer(answer);
    }
}

// The table that `keys` begins with; no line is begun.
pub fn start(t: &mut [u16; WORDS])
    ensures { state_of t.new [] ≡ first_state }
{
    let quotas = cabins::sole_quotas(CAPACITY);
    steps::fresh_table(t, CAPACITY, &quotas);
}

// A block of input: the lines ended in it are called on the table, and the lines that answer them put at the start of the output. The answer is the
// place after them.
pub fn feed(t: &mut [u16; WORDS], line: &mut Line, block: &[u8], out: &mut [u8]) -> usize
    requires { 18 * length block.now ≤ length out.old }
    ensures kept { length line.new ≤ kept_most }
    ensures state { state_of t.new line.new ≡ feed (state_of t.old line.old) block.now }
    ensures place { result ≡ length (fed_output (state_of t.old line.old) block.now) }
    ensures text { out.new ≡ sets out.old 0 (fed_output (state_of t.old line.old) block.now) }
    ensures room { (result ≤ length out.new) × (result ≡ length (take result out.new)) }
{
    let mut writer = Writer { bytes: out, at: 0 };
    // Each time round: the table and the line begun are those after the bytes before this one, and their answers are put.
    for byte in block {
        if *byte == LINE_END {
            writer.end_line(t, line.as_bytes());
            line.clear();
        } else {
            line.keep(*byte);
        }
    }
    // A line keeps thirteen bytes at most; no machine code comes of it.
    let _ = &line.kept;
    writer.at
}

// The end of input: a line begun is answered at the start of the output. The answer is the place after it.
pub fn finish(t: &mut [u16; WORDS], line: &Line, out: &mut [u8]) -> usize
    requires { 18 ≤ length out.old }
    ensures place { result ≡ length (finish_output (state_of t.old line.now)) }
    ensures text { out.new ≡ sets out.old 0 (finish_output (state_of t.old line.now)) }
    ensures room { (result ≤ length out.new) × (result ≡ length (take result out.new)) }
{
    if line.is_empty() {
        return 0;
    }
    let mut writer = Writer { bytes: out, at: 0 };
    writer.end_line(t, line.as_bytes());
    writer.at
}

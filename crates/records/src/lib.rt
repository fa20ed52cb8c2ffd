// The records of an image, in bytes: a header and step records, of either edition, put and read (document 01, "Image"; document 02, W5). What is said of
// the functions is in specs/.

#![tactic(auto)]

ghost use Rattle.std.specs.Prelude.{◌≡◌, ◌&&◌, [], ◌∷◌, ◌++◌, ◌+◌, ◌*◌, ◌≤◌, length, drop, eqb};
ghost use Rattle.image.specs.Image.{edition2, record_bytes, record_size, header_kind_of, header_field_count, step_kind_of, step_field_count, image_size, word_at, capacity_in, quotas_by};
ghost use Rattle.records.specs.Records.{edition_of, edition_read, put_words, added, record_fields, cabin_at, step_read, read_step, read_header};

use words::QUOTAS;

// Edition 1 and edition 2 of an image (document 02, W5).
#[derive(Clone, Copy, PartialEq, Eq, Drop)]
pub enum Edition {
    One,
    Two,
}

impl Edition {
    // The length in bytes of the header record of an edition.
    pub fn header_size(self) -> usize
        ensures { result ≡ record_size (header_field_count (edition_of self)) }
    {
        match self {
            Edition::One => 10,
            Edition::Two => 42,
        }
    }

    // The length in bytes of a step record of an edition.
    pub fn step_size(self) -> usize
        ensures { result ≡ record_size (step_field_count (edition_of self)) }
    {
        match self {
            Edition::One => 20,
            Edition::Two => 22,
        }
    }

    // The kind of the header record of an edition.
    fn header_kind(self) -> u16
        ensures { result ≡ header_kind_of (edition_of self) }
    {
        match self {
            Edition::One => 1,
            Edition::Two => 3,
        }
    }

    // The kind of the step records of an edition.
    fn step_kind(self) -> u16
        ensures { result ≡ step_kind_of (edition_of self) }
    {
        match self {
            Edition::One => 2,
            Edition::Two => 4,
        }
    }

    // The length in bytes of an image of an edition with so many step records.
    pub fn image_size(self, steps: u16) -> usize
        ensures { result ≡ image_size (edition_of self) steps }
    {
        self.header_size() + self.step_size() * usize::from(steps)
    }
}

// The fields of a step record, in their order; the four before the cabin are the targets. A record of edition 1 has no cabin, which is 0 then.
#[derive(Clone, Copy, PartialEq, Eq, Drop)]
pub struct StepRecord {
    pub number: u16,
    pub kind: u16,
    pub content: u16,
    pub bits: u16,
    pub first: u16,
    pub second: u16,
    pub third: u16,
    pub fourth: u16,
    pub cabin: u16,
}

// The edition, the capacity and the last number given, as a header says them.
#[derive(Drop)]
pub struct Header {
    pub edition: Edition,
    pub capacity: u16,
    pub last: u16,
}

// Puts a number as two bytes at a place, little-endian.
pub fn put_word(part: &mut [u8], at: usize, value: u16)
    requires { at + 2 ≤ length part.old }
    ensures { part.new ≡ put_words part.old at (value ∷ []) }
{
    let [low, high] = value.to_le_bytes();
    part[at] = low;
    part[at + 1] = high;
}

// Puts numbers from a place on, each as two bytes.
fn put_numbers(part: &mut [u8], at: usize, numbers: &[u16])
    requires { at + 2 * length numbers.now ≤ length part.old }
    ensures { part.new ≡ put_words part.old at numbers.now }
{
    // The numbers below k are put.
    for (k, number) in numbers.iter().enumerate() {
        put_word(part, at + 2 * k, *number);
    }
}

// Puts the header record of an edition at the start of the part; that of edition 1 has no quotas.
pub fn put_header(
    part: &mut [u8],
    edition: Edition,
    capacity: u16,
    last: u16,
    steps: u16,
    quotas: &[u16; QUOTAS],
)
    requires { record_size (header_field_count (edition_of edition)) ≤ length part.old }
    ensures { part.new ≡
        record_bytes (header_kind_of (edition_of edition)) (capacity ∷ last ∷ steps ∷ added (edition_of edition) quotas.now) ++
        drop (record_size (header_field_count (edition_of edition))) part.old }
{
    put_numbers(
        part,
        0,
        &[
            edition.header_size() as u16,
            edition.header_kind(),
            capacity,
            last,
            steps,
        ],
    );
    if let Edition::Two = edition {
        put_numbers(part, 10, quotas);
    }
}

// Puts a step record of an edition at the start of the part; that of edition 1 has no cabin.
pub fn put_step(part: &mut [u8], edition: Edition, r: StepRecord)
    requires { record_size (step_field_count (edition_of edition)) ≤ length part.old }
    ensures { part.new ≡
        record_bytes (step_kind_of (edition_of edition)) (record_fields (edition_of edition) r) ++
        drop (record_size (step_field_count (edition_of edition))) part.old }
{
    put_numbers(
        part,
        0,
        &[
            edition.step_size() as u16,
            edition.step_kind(),
            r.number,
            r.kind,
            r.content,
            r.bits,
            r.first,
            r.second,
            r.third,
            r.fourth,
        ],
    );
    if let Edition::Two = edition {
        put_word(part, 20, r.cabin);
    }
}

// The number that two bytes at a place make, little-endian.
pub fn word_at(part: &[u8], at: usize) -> u16
    requires { at + 2 ≤ length part.now }
    ensures { result ≡ word_at part.now at }
{
    u16::from_le_bytes([part[at], part[at + 1]])
}

// Whether the part begins with a record of that length and kind.
fn begins(part: &[u8], size: usize, kind: u16) -> bool
    requires { 4 ≤ length part.now }
    ensures { result ≡ (eqb (word_at part.now 0) size && eqb (word_at part.now 2) kind) }
{
    usize::from(word_at(part, 0)) == size && word_at(part, 2) == kind
}

// Whether the kind of the header is that of an edition.
pub fn is_of(bytes: &[u8], edition: Edition) -> bool
    requires { 4 ≤ length bytes.now }
    ensures { result ≡ eqb (word_at bytes.now 2) (header_kind_of (edition_of edition)) }
{
    word_at(bytes, 2) == edition.header_kind()
}

// The edition that the header says.
fn edition_read(bytes: &[u8]) -> Edition
    requires { 4 ≤ length bytes.now }
    ensures { result ≡ edition_read bytes.now }
{
    if is_of(bytes, Edition::Two) {
        Edition::Two
    } else {
        Edition::One
    }
}

// The edition, the capacity and the last number given, where the bytes begin with a header, are as long as it says and a table has the capacity.
pub fn read_header(bytes: &[u8]) -> Option<Header>
    ensures { result ≡ read_header bytes.now }
{
    if bytes.len() < 10 {
        return None;
    }
    let edition = edition_read(bytes);
    if bytes.len() != edition.image_size(word_at(bytes, 8)) {
        return None;
    }
    if !begins(bytes, edition.header_size(), edition.header_kind()) {
        return None;
    }
    let capacity = word_at(bytes, 4);
    if 128 < capacity {
        return None;
    }
    Some(Header {
        edition,
        capacity,
        last: word_at(bytes, 6),
    })
}

// The quotas in a header of edition 2.
fn read_quotas(bytes: &[u8]) -> [u16; QUOTAS]
    requires { 42 ≤ length bytes.now }
    ensures { result ≡ quotas_by edition2 bytes.now }
{
    let mut quotas = [0u16; QUOTAS];
    // The numbers below k are those of the header.
    for (k, quota) in quotas.iter_mut().enumerate() {
        *quota = word_at(bytes, 10 + 2 * k);
    }
    quotas
}

// The quotas that a header says: in edition 2 those in it, in edition 1 those that give all steps to cabin 0.
pub fn quotas_in(bytes: &[u8], edition: Edition, capacity: u16) -> [u16; QUOTAS]
    requires { (capacity ≡ capacity_in bytes.now) × (edition ≡ Edition.Two → 42 ≤ length bytes.now) }
    ensures { result ≡ quotas_by (edition_of edition) bytes.now }
{
    match edition {
        Edition::One => cabins::sole_quotas(capacity),
        Edition::Two => read_quotas(bytes),
    }
}

// The cabin of the step record that the part begins with; in edition 1 it is 0.
fn cabin_in(part: &[u8], edition: Edition) -> u16
    requires { edition ≡ Edition.Two → 22 ≤ length part.now }
    ensures { result ≡ cabin_at (edition_of edition) part.now 0 }
{
    match edition {
        Edition::One => 0,
        Edition::Two => word_at(part, 20),
    }
}

// The fields of the step record that the part begins with.
pub fn step_fields(part: &[u8], edition: Edition) -> StepRecord
    requires { (20 ≤ length part.now) × (edition ≡ Edition.Two → 22 ≤ length part.now) }
    ensures { result ≡ step_read (edition_of edition) part.now 0 }
{
    StepRecord {
        number: word_at(part, 4),
        kind: word_at(part, 6),
        content: word_at(part, 8),
        bits: word_at(part, 10),
        first: word_at(part, 12),
        second: word_at(part, 14),
        third: word_at(part, 16),
        fourth: word_at(part, 18),
        cabin: cabin_in(part, edition),
    }
}

// The step record that the part begins with, where it is one of the edition, its step is one that a table has and its bits are at most 31.
pub fn read_step(part: &[u8], edition: Edition) -> Option<StepRecord>
    ensures { result ≡ read_step (edition_of edition) part.now }
{
    let size = edition.step_size();
    if part.len() < size {
        return None;
    }
    if !begins(part, size, edition.step_kind()) {
        return None;
    }
    if 128 <= word_at(part, 4) {
        return None;
    }
    if 31 < word_at(part, 10) {
        return None;
    }
    Some(step_fields(part, edition))
}

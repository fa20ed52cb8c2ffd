// The call write image, and the length of the image by itself (document 01, "Image"; document 02, W1 and W5). What is said of them is in the crate
// image.

#![tactic(auto)]

ghost use Rattle.std.specs.Prelude.{◌≡◌, true, ◌++◌, ◌≤◌, length, drop};
ghost use Rattle.table.specs.Table.{steps_in_use};
ghost use Rattle.table.specs.Sound.{sound};
ghost use Rattle.table.specs.Answer.{answer_of, first};
ghost use Rattle.image.specs.Image.{image, image_length, put, room_tests, length_call, write_call};
ghost use Rattle.words.specs.Words.{table_of};
ghost use Rattle.records.specs.Records.{edition_of};

use records::Edition;
use table::{Answer, Refusal};
use words::WORDS;

// Puts the image of a sound table, in an edition, at the start of a buffer that has the room; steps is the number of steps in use.
fn put_image(t: &[u16; WORDS], edition: Edition, steps: u16, buffer: &mut [u8])
    requires { (sound (table_of t.now) ≡ true) × (steps ≡ steps_in_use (table_of t.now)) ×
        (image_length (edition_of edition) (table_of t.now) ≤ length buffer.old) }
    ensures { buffer.new ≡
        image (edition_of edition) (table_of t.now) ++ drop (image_length (edition_of edition) (table_of t.now)) buffer.old }
{
    let capacity = words::capacity(t);
    let quotas = cabins::quotas_of(t);
    records::put_header(buffer, edition, capacity, words::last(t), steps, &quotas);
    let n = usize::from(capacity);
    let size = edition.step_size();
    let mut at = edition.header_size();
    // The header and the records of the steps in use below i stand before the place at; the rest is as it was.
    for i in 0..n {
        if words::in_use(t, i) {
            let r = recording::step_record(t, i);
            records::put_step(&mut buffer[at..], edition, r);
            at += size;
        }
    }
}

// The image of a sound table, in an edition, at the start of the buffer, and its length; or refusal 11, and nothing is written.
pub fn fill(t: &[u16; WORDS], edition: Edition, buffer: &mut [u8]) -> Answer
    requires { sound (table_of t.now) ≡ true }
    ensures answer { answer_of result ≡
        (put (first (room_tests (edition_of edition) (table_of t.now) (length buffer.old)))
        (edition_of edition) (table_of t.now) buffer.old).answer }
    ensures written { buffer.new ≡
        (put (first (room_tests (edition_of edition) (table_of t.now) (length buffer.old)))
        (edition_of edition) (table_of t.now) buffer.old).buffer }
{
    let steps = steps::count_used(t);
    let size = edition.image_size(steps);
    if buffer.len() < size {
        return Err(Refusal::TooShort);
    }
    put_image(t, edition, steps, buffer);
    Ok((size as u16, 0))
}

// The length of the image that write image would write, which is the room that it needs.
pub fn image_length(t: &[u16; WORDS]) -> Answer
    ensures { answer_of result ≡ length_call (table_of t.now) }
{
    soundness::check_table(t)?;
    let steps = steps::count_used(t);
    Ok((Edition::Two.image_size(steps) as u16, 0))
}

// Writes the image of a sound table, in edition 2, to the start of the buffer, and gives back its length. A refused call writes nothing.
pub fn write_image(t: &[u16; WORDS], buffer: &mut [u8]) -> Answer
    ensures answer { answer_of result ≡ (write_call (table_of t.now) buffer.old).answer }
    ensures written { buffer.new ≡ (write_call (table_of t.now) buffer.old).buffer }
{
    soundness::check_table(t)?;
    fill(t, Edition::Two, buffer)
}

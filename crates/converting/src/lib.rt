// An image of one edition converted to the other (document 02, W6). What is said of the calls is in the crate image.

#![tactic(auto)]

ghost use Rattle.std.specs.Prelude.{◌≡◌, true};
ghost use Rattle.table.specs.Answer.{answer_of};
ghost use Rattle.table.specs.Sound.{sound};
ghost use Rattle.image.specs.Image.{edition1, edition2};
ghost use Rattle.image.specs.Convert.{has_sole_quotas, sayable, convert_call};
ghost use Rattle.words.specs.Words.{table_of};
ghost use Rattle.records.specs.Records.{edition_of};

use records::Edition;
use table::{Answer, Refusal};
use words::WORDS;

// Whether the quotas of a table are those of edition 1.
fn is_sole(t: &[u16; WORDS]) -> bool
    ensures { result ≡ has_sole_quotas (table_of t.now) }
{
    let quotas = cabins::quotas_of(t);
    let sole = cabins::sole_quotas(words::capacity(t));
    quotas == sole
}

// Whether an edition can say a sound table. Edition 1 can where quotas and contents are its own: under those quotas no other cabin than 0 has a step,
// since its limit is 0.
fn is_sayable(t: &[u16; WORDS], edition: Edition) -> bool
    requires { sound (table_of t.now) ≡ true }
    ensures { result ≡ sayable (edition_of edition) (table_of t.now) }
{
    match edition {
        Edition::One => is_sole(t) && recording::has_old_contents(t),
        Edition::Two => true,
    }
}

// Converts an image to an edition, into the buffer, by a table of its own. A refused call writes nothing.
fn convert(edition: Edition, bytes: &[u8], buffer: &mut [u8]) -> Answer
    ensures answer { answer_of result ≡ (convert_call (edition_of edition) bytes.now buffer.old).answer }
    ensures written { buffer.new ≡ (convert_call (edition_of edition) bytes.now buffer.old).buffer }
{
    let mut t = [0u16; WORDS];
    if !loading::take_image(&mut t, bytes) {
        return Err(Refusal::NotAccepted);
    }
    if records::is_of(bytes, edition) {
        return Err(Refusal::NotAccepted);
    }
    if !is_sayable(&t, edition) {
        return Err(Refusal::NeedsEdition2);
    }
    writing::fill(&t, edition, buffer)
}

// Up: an image of edition 1 becomes one of edition 2.
pub fn convert_up(bytes: &[u8], buffer: &mut [u8]) -> Answer
    ensures answer { answer_of result ≡ (convert_call edition2 bytes.now buffer.old).answer }
    ensures written { buffer.new ≡ (convert_call edition2 bytes.now buffer.old).buffer }
{
    convert(Edition::Two, bytes, buffer)
}

// Down: an image of edition 2 becomes one of edition 1.
pub fn convert_down(bytes: &[u8], buffer: &mut [u8]) -> Answer
    ensures answer { answer_of result ≡ (convert_call edition1 bytes.now buffer.old).answer }
    ensures written { buffer.new ≡ (convert_call edition1 bytes.now buffer.old).buffer }
{
    convert(Edition::One, bytes, buffer)
}

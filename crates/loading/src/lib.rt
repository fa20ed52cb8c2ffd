// The call load image (document 01, "Image"; document 02, W5: two editions; W9). What is said of it is in the crate image. The
// edition of an image is its header's.

#![tactic(auto)]

ghost use Rattle.std.specs.Prelude.{◌≡◌, true, ◌&&◌, ◌≤◌, length};
ghost use Rattle.table.specs.Answer.{answer_of};
ghost use Rattle.table.specs.Table.{with_numbers};
ghost use Rattle.table.specs.Sound.{sound};
ghost use Rattle.image.specs.Image.{load_call, capacity_in, quotas_by, image_table, contents_sayable, accepted};
ghost use Rattle.words.specs.Words.{words, table_of, words_of, blank_table};
ghost use Rattle.records.specs.Records.{edition_of};

use records::{Edition, Header};
use table::{Answer, Refusal};
use words::WORDS;

// An empty table, with the capacity, the last number given and the quotas that the header says.
fn take_header(t: &mut [u16; WORDS], bytes: &[u8], header: &Header)
    requires { (header.now.capacity ≡ capacity_in bytes.now) × (header.now.edition ≡ Edition.Two → 42 ≤ length bytes.now) }
    ensures table { table_of t.new ≡
        with_numbers (blank_table header.now.capacity header.now.last) header.now.capacity header.now.last
        (quotas_by (edition_of header.now.edition) bytes.now) }
    ensures size { length t.new ≡ words }
{
    words::erase(t, header.capacity, header.last);
    let quotas = records::quotas_in(bytes, header.edition, header.capacity);
    words::put_quotas(t, &quotas);
}

// Whether the table that an image says is sound, and one whose contents the image's edition can say.
fn acceptable(t: &[u16; WORDS], edition: Edition) -> bool
    ensures { result ≡ (sound (table_of t.now) && contents_sayable (edition_of edition) (table_of t.now)) }
{
    if !soundness::is_sound(t) {
        return false;
    }
    match edition {
        Edition::One => recording::has_old_contents(t),
        Edition::Two => true,
    }
}

// Whether the image is accepted. Where it is, the table becomes the one that its records say.
pub fn take_image(t: &mut [u16; WORDS], bytes: &[u8]) -> bool
    ensures answer { result ≡ accepted bytes.now }
    ensures table { result ≡ true → t.new ≡ words_of (image_table bytes.now) }
{
    let Some(header) = records::read_header(bytes) else {
        return false;
    };
    let edition = header.edition;
    take_header(t, bytes, &header);
    let steps = &bytes[edition.header_size()..];
    // The records before this part are those of different steps, and the table has their fields; all other steps are blank.
    for part in steps.chunks_exact(edition.step_size()) {
        let Some(r) = records::read_step(part, edition) else {
            return false;
        };
        if words::used_at(t, usize::from(r.number)) != 0 {
            return false;
        }
        recording::put_record(t, r);
    }
    recording::count_links(t);
    acceptable(t, edition)
}

// The table that the records of an image say, where the image is accepted; else a fresh table of capacity 1.
pub fn load_image(t: &mut [u16; WORDS], bytes: &[u8]) -> Answer
    ensures answer { answer_of result ≡ (load_call bytes.now).answer }
    ensures table { t.new ≡ words_of (load_call bytes.now).table }
{
    if !take_image(t, bytes) {
        steps::refused_table(t);
        return Err(Refusal::NotAccepted);
    }
    Ok((0, 0))
}

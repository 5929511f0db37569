// Images: the full stripe and the log as bytes.
ghost use Rattle.std.specs.Prelude.{◌≡◌, ◌+◌, ◌*◌, ◌≤◌, length};
ghost use Rattle.std.proofs.lemmas.List.Edits.{sets};
ghost use Rattle.layout.specs.Refusals.{answer_number};
ghost use Rattle.image.specs.Image.{bytes_of};
ghost use Rattle.image.specs.ImageCall.{image_number, image_leaves};

use layout::{Header, Refusal, ValidHeader};

// Stores the bytes of words from index `at` on.
fn put_words(bytes: &mut [u8], at: usize, words: &[u32])
    requires { at + 4 * length words.now ≤ length bytes.old }
    ensures { bytes.new ≡ sets bytes.old at (bytes_of words.now) }
{
    // by index: of what is written to `as_chunks_mut` a proof knows the length alone
    for (i, word) in words.iter().enumerate() {
        crate::bytes::put_word(bytes, at + 4 * i, *word);
    }
}

// Stores the image of the buffers, each word 4 bytes, low byte first. Tests 1, 2 (full, log, image).
pub fn image(header: Header, full: &[u32], log: &[u32], image: &mut [u8]) -> Result<(), Refusal>
    ensures value { answer_number result ≡ image_number header full.now log.now image.old }
    ensures image_after { image.new ≡ image_leaves header full.now log.now image.old }
{
    let header = ValidHeader::try_from(header)?;
    if full.len() != header.full_size()
        || log.len() != header.log_size()
        || image.len() != header.image_size()
    {
        return Err(Refusal::Length);
    }
    put_words(image, 0, full);
    put_words(image, 4 * full.len(), log);
    Ok(())
}

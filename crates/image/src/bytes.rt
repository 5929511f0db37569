// A word and its four bytes, low byte first: the one way there and the one way back. A word is named by where it begins, as the image's definition names it;
// it is read by four indices, where `first_chunk` would have a case of too few bytes to rule out.
ghost use Rattle.std.specs.Prelude.{◌≡◌, ◌+◌, ◌≤◌, length};
ghost use Rattle.std.proofs.lemmas.List.Edits.{sets};
ghost use Rattle.image.specs.Image.{little, number_at};

// The number of the four bytes from `at` on.
pub(crate) fn number_at(bytes: &[u8], at: usize) -> u32
    requires { at + 4 ≤ length bytes.now }
    ensures { result ≡ number_at bytes.now at }
{
    u32::from_le_bytes([bytes[at], bytes[at + 1], bytes[at + 2], bytes[at + 3]])
}

// Stores the 4 bytes of a word from index `at` on.
pub(crate) fn put_word(bytes: &mut [u8], at: usize, word: u32)
    requires { at + 4 ≤ length bytes.old }
    ensures { bytes.new ≡ sets bytes.old at (little 4 word) }
{
    bytes[at..at + 4].copy_from_slice(&word.to_le_bytes());
}

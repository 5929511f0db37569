// Where the words of a stripe come from. What loads them sees words alone, by one contract; each kind of source is an instance. That a source has the words
// of a stripe stays a clause of what is lent both, since a type for it would hold both. So does that it has fewer than 2^64: an instance may have any number.
ghost use Rattle.std.specs.Prelude.{◌≡◌, ◌*◌, ◌/◌, ◌<◌, ℕ, List, length, get_or};
ghost use Rattle.image.specs.Image.{words_of};

// Words that can be read: `count` of them, of the list `words`.
pub trait Source: Copy {
    ghost count: { Self → ℕ };

    ghost words: { Self → List ℕ };

    // Word number q.
    fn word(self, q: usize) -> u32
        requires { q < count self }
        ensures { result ≡ get_or (words self) q 0 };
}

// Bytes of an image: four to a word, low byte first.
impl Source for &[u8] {
    ghost count = { λ s. length s.now / 4 };

    ghost words = { λ s. words_of s.now };

    fn word(self, q: usize) -> u32 {
        crate::bytes::number_at(self, 4 * q)
    }
}

// Words that a vault lives in, for callers that have no image of them.
impl Source for &[u32] {
    ghost count = { λ s. length s.now };

    ghost words = { λ s. s.now };

    fn word(self, q: usize) -> u32 {
        self[q]
    }
}

// A stripe of an image: its bytes, the marks of its positions, and the rows that are loaded from any source of words. A row is the words of one position.
ghost use Rattle.std.specs.Prelude.{◌≡◌, true, false, ◌++◌, ◌+◌, ◌*◌, ◌≤◌, ◌<◌, length, drop, replicate};
ghost use Rattle.field.specs.Words.{table};
ghost use Rattle.code.specs.Stripe.{modulus_of, position_count, stripe_words};
ghost use Rattle.code.specs.steps.Storing.{word_from};
ghost use Rattle.image.specs.Erasures.{erasures_in, marks_of};
ghost use Rattle.image.specs.Loading.{stripe_in, are_below, rows_in};
ghost use Rattle.image.specs.steps.Loading.{columns_of};

use crate::Reading;
use crate::source::Source;
use code::{Range, Stripe};

impl<'a> Reading<'a> {
    // The bytes of a stripe, a part of the image.
    pub fn stripe_bytes(self, level: usize) -> &'a [u8]
        requires { level ≤ self.header.header.k }
        ensures { result.now ≡ stripe_in self.entry.header.header self.entry.image.now level }
    {
        let start = 4 * self.header.stripe_at(level);
        let size = code::number::two_to(level + 1) * self.header.width();
        let end = start + 4 * size;
        &self.image[start..end]
    }

    // The marks of a stripe's positions, in the place of as many that are false as the largest stripe has positions. In a lent array: one that a function gives
    // is copied by `memcpy`, which the archive for C does not ask of its surroundings.
    pub fn mark(self, level: usize, marks: &mut [bool])
        requires within { level ≤ self.header.header.k }
        requires marks_value { marks.old ≡ replicate 2048 false }
        ensures { marks.new ≡ marks_of self.entry.header.header (erasures_in self.entry.erasures.now) level }
    {
        crate::erasures::mark_stripe(self.header, self.erasures, level, marks);
    }
}

// Whether the words of a row, from word number `at` on, are words of the field.
fn row_in_field<S: Source>(source: S, at: usize, st: Stripe) -> bool
    requires inside { at + st.width ≤ S.count source }
    requires size { S.count source < 18446744073709551616 }
    ensures { result ≡ are_below (modulus_of st) (table st.width (word_from (S.words source) at)) }
{
    // No early end: a loop that has none takes four words at a time. A fold says the same with the flag as its first argument.
    let mut fine = true;
    for j in 0..st.width {
        if field::MODULUS <= source.word(at + j) {
            fine = false;
        }
    }
    fine
}

// Loads as many words as the row has, from word number `at` on.
fn load_row<S: Source>(row: &mut [u32], source: S, at: usize)
    requires inside { at + length row.old ≤ S.count source }
    requires size { S.count source < 18446744073709551616 }
    ensures { row.new ≡ table (length row.old) (word_from (S.words source) at) }
{
    for (j, word) in row.iter_mut().enumerate() {
        *word = source.word(at + j);
    }
}

// Loads a range of columns of each row, zeros for a marked row. With the first range, whether every word of every surviving row is a word of the field: all
// columns are tested then, each row right after it is loaded. A later range is not tested, and passes.
// The stripe may have any numbers with a level up to 15, where a `ValidStripe` would ask more; and a type for a range that ends inside it would hold it.
pub fn load<S: Source>(
    part: &mut [u32],
    source: S,
    marks: &[bool],
    st: Stripe,
    range: Range,
) -> bool
    requires level { st.level ≤ 15 }
    requires source_len { S.count source ≡ stripe_words st }
    requires size { stripe_words st < 18446744073709551616 }
    requires marks_len { position_count st ≤ length marks.now }
    requires inside { range.from + range.cols ≤ st.width }
    requires room { position_count st * range.cols ≤ length part.old }
    ensures first { range.from ≡ 0 → result ≡ are_below (modulus_of st) (rows_in st marks.now (S.words source)) }
    ensures later { 0 < range.from → result ≡ true }
    ensures part_after { part.new ≡
        columns_of st.width range.from range.cols (position_count st) (rows_in st marks.now (S.words source)) ++
        drop (position_count st * range.cols) part.old }
{
    let rows = code::number::two_to(st.level + 1);
    let width = st.width;
    let from = range.from;
    let cols = range.cols;
    let mut fine = true;
    // The rows of the part by index: of what is written to `chunks_exact_mut` a proof knows the length alone.
    for (i, marked) in marks[..rows].iter().enumerate() {
        let to = i * cols;
        let at = i * width;
        if *marked {
            part[to..to + cols].fill(0);
        } else {
            load_row(&mut part[to..to + cols], source, at + from);
            // here, where the row has just been read, and in no pass of its own
            if from == 0 {
                fine = fine & row_in_field(source, at, st);
            }
        }
    }
    fine
}

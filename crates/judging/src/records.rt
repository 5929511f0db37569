// Test 10, range by range of columns: a mark for each block says what its words so far may be.
ghost use Rattle.std.specs.Prelude.{◌≡◌, true, false, ◌||◌, ◌+◌, ◌*◌, ◌^◌, ◌≤◌, ◌<◌, eqb, ltb, length};
ghost use Rattle.code.specs.Stripe.{block_count};
ghost use Rattle.layout.specs.Records.{is_data, is_struck_word, are_data, is_struck};
ghost use Rattle.judging.specs.steps.Judging.{row_fits, Judged, all_fit};

use crate::VaultStripe;
use code::{Range, Stripe};

// What the words of a block may be: the data of a record, or those of a struck one. Before the first data word they may be both.
#[derive(Clone, Copy)]
pub struct Fit {
    pub plain: bool,
    pub struck: bool,
}

// Whether a number is one that block j may have: its place on the full stripe, and below n on a level.
// `full` is the case of the definition (`row_fits`), told by the stripe: an enum for it would be made of this test and go by a match here.
fn number_fits(full: bool, n: usize, j: usize, number: usize) -> bool
    ensures { result ≡ elim full [ true ↦ eqb number j | false ↦ ltb number n ] }
{
    if full { number == j } else { number < n }
}

// What some data words of one block may be.
fn words_fit(words: &[u32]) -> Fit
    ensures { (result.plain ≡ are_data words.now) × (result.struck ≡ is_struck words.now) }
{
    Fit {
        plain: layout::words::all_data(words),
        struck: layout::words::is_struck(words),
    }
}

// What the words of block j in the columns from `from` on may be. n is 2^k, which `judge` computes once and not for each block.
fn row_fits(st: Stripe, n: usize, from: usize, row: &[u32], j: usize) -> Fit
    requires records { n ≡ 2 ^ st.k }
    requires some { 0 < length row.now }
    ensures plain { result.plain ≡ row_fits is_data st from row.now j }
    ensures struck { result.struck ≡ row_fits is_struck_word st from row.now j }
{
    if 0 < from {
        return words_fit(row);
    }
    if !number_fits(st.level == st.k, n, j, row[0] as usize) {
        return Fit {
            plain: false,
            struck: false,
        };
    }
    words_fit(&row[1..])
}

// Judges the words of a range of columns, which stand in rows: whether those of all blocks so far may be those of records.
pub fn judge(words: &[u32], vault: VaultStripe, range: Range, fits: &mut [Fit]) -> bool
    requires some { 0 < range.cols }
    requires words_len { block_count vault.valid.stripe * range.cols ≤ length words.now }
    requires fits_len { block_count vault.valid.stripe ≤ length fits.old }
    ensures fits_after { Judged vault.valid.stripe range.from range.cols words.now fits.old fits.new }
    ensures value { result ≡ all_fit fits.new (block_count vault.valid.stripe) }
{
    // locals of their own, since the loop's invariant speaks of them
    let st = vault.valid.stripe;
    let cols = range.cols;
    let n = code::number::two_to(st.k);
    let rows = vault.valid.block_count();
    let marks = &mut fits[..rows];
    // every mark is stored, so that nothing ends early; the flag goes along in the same pass
    let mut all = true;
    for (j, mark) in marks.iter_mut().enumerate() {
        let at = j * cols;
        let row = row_fits(st, n, range.from, &words[at..at + cols], j);
        let fine = Fit {
            plain: mark.plain & row.plain,
            struck: mark.struck & row.struck,
        };
        *mark = fine;
        all = all & (fine.plain | fine.struck);
    }
    all
}

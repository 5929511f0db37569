// The blocks of a stripe laid over what the stripes before it left, a range of their columns at a time.
ghost use Rattle.std.specs.Prelude.{◌≡◌, ℕ, suc, ◌+◌, ◌*◌, ◌-◌, ◌≤◌, ◌<◌, length};
ghost use Rattle.code.specs.Stripe.{block_count, block_words};
ghost use Rattle.judging.specs.Decoding.{block_number};
ghost use Rattle.range_laying.specs.Laid.{laid, origins_laid};
ghost use Rattle.range_laying.specs.steps.Blocks.{row_words, copied_rows, copied_columns, laid_range, Placed};

use crate::{Content, RowPlaces};
use code::Range;
use judging::VaultStripe;

// Copies `count` words of each row.
fn copy_rows(
    out: &mut [u32],
    to: RowPlaces,
    words: &[u32],
    from: RowPlaces,
    count: usize,
    rows: usize,
)
    requires to_inside { (to.first + count ≤ to.stride) × (rows * to.stride ≤ length out.old) }
    requires from_inside { (from.first + count ≤ from.stride) × (rows * from.stride ≤ length words.now) }
    ensures { out.new ≡ copied_rows to.first to.stride from.first from.stride count words.now rows out.old }
{
    // By index: the rows of `out` are written a part at a time, and of what is written to `chunks_exact_mut` a proof knows the length alone.
    for i in 0..rows {
        let x = from.first + i * from.stride;
        let y = to.first + i * to.stride;
        layout::words::copy_row(out, y, words, x, count);
    }
}

// Copies the words of a range of columns, which stand in rows, to their columns of `out`, whose rows lack the first `skip` columns.
fn copy_columns(words: &[u32], vault: VaultStripe, range: Range, skip: usize, out: &mut [u32])
    requires inside { (0 < range.cols) × (range.from + range.cols ≤ vault.valid.stripe.width) × (skip ≤ vault.valid.stripe.width) }
    requires words_len { block_count vault.valid.stripe * range.cols ≤ length words.now }
    requires out_len { block_count vault.valid.stripe * (vault.valid.stripe.width - skip) ≤ length out.old }
    ensures { out.new ≡ copied_columns vault.valid.stripe range skip words.now out.old }
{
    let st = vault.valid.stripe;
    let rows = vault.valid.block_count();
    let from = range.from;
    let end = from + range.cols;
    let first = from.max(skip);
    if first < end {
        let to = RowPlaces {
            first: first - skip,
            stride: st.width - skip,
        };
        let of = RowPlaces {
            first: first - from,
            stride: range.cols,
        };
        copy_rows(out, to, words, of, end - first, rows);
    }
}

// Lays blocks of s data words over the records, one after the other.
fn lay_data(blocks: &[u32], s: usize, rows: usize, out: &mut [u32])
    requires blocks_len { length blocks.now ≡ rows * suc s }
    requires by_index { (j : ℕ) → j < rows → suc (block_number (suc s) blocks.now j) * s ≤ length out.old }
    ensures { out.new ≡ laid s blocks.now rows out.old }
{
    // By index: `chunks_exact` would ask that s + 1 fits, also where there is no block. The stripe, which bounds s, is no matter of copying.
    for j in 0..rows {
        let at = j * (s + 1);
        let to = blocks[at] as usize * s;
        layout::words::copy_row(out, to, blocks, at + 1, s);
    }
}

// Lays the origins of a level's blocks over those of the records, one after the other: the level, and the number of the write.
fn lay_origins(vault: VaultStripe, blocks: &[u32], out: &mut [u32])
    requires blocks_len { length blocks.now ≡ block_words vault.valid.stripe }
    requires by_index { (j : ℕ) → j < block_count vault.valid.stripe → suc (block_number vault.valid.stripe.width blocks.now j) * 2 ≤ length out.old }
    ensures { out.new ≡
        origins_laid vault.valid.stripe.width vault.valid.stripe.level vault.valid.stripe.first blocks.now
        (block_count vault.valid.stripe) out.old }
{
    let width = vault.valid.stripe.width;
    let level = vault.valid.stripe.level;
    let first = vault.valid.stripe.first;
    let rows = vault.valid.block_count();
    // By index: of each block the number alone is read, to which a piece of `chunks_exact` would add a name.
    for i in 0..rows {
        let from = i * width;
        let write = first + i;
        crate::pairs::put_pair(out, blocks[from] as usize, level as u32, write as u32);
    }
}

// Lays a range of the columns of a stripe's blocks, which stand in rows. On the full stripe a block's record is the one of its place, and a range is laid where
// it stands; on a level the blocks' numbers say where, and the range is all columns.
pub fn lay_range(content: Content, vault: VaultStripe, range: Range, words: &[u32], out: &mut [u32])
    requires inside { (0 < range.cols) × (range.from + range.cols ≤ vault.valid.stripe.width) }
    requires words_len { length words.now ≡ block_count vault.valid.stripe * range.cols }
    requires out_len { block_count vault.valid.stripe * row_words content vault.valid.stripe ≤ length out.old }
    requires placed { vault.valid.stripe.level < vault.valid.stripe.k → Placed content vault.valid.stripe range words.now out.old }
    ensures { out.new ≡ laid_range content vault.valid.stripe range words.now out.old }
{
    let st = vault.valid.stripe;
    let rows = vault.valid.block_count();
    let whole = st.level == st.k;
    match content {
        Content::Blocks => copy_columns(words, vault, range, 0, out),
        Content::Records => {
            if whole {
                copy_columns(words, vault, range, 1, out);
            } else {
                lay_data(words, st.width - 1, rows, out);
            }
        }
        Content::Origins => {
            if whole {
                crate::pairs::fill_pairs(out, rows, st.k as u32, 0);
            } else {
                lay_origins(vault, words, out);
            }
        }
    }
}

// Mixing of rows in place, a row at a time. Rows are named by where they begin: two of them are of one slice, and both change.
ghost use Rattle.std.specs.Prelude.{◌≡◌, ◌+◌, ◌*◌, ◌≤◌, ◌<◌, ℕ, length, get_or};
ghost use Rattle.field.specs.Field.{fermat};
ghost use Rattle.field.specs.Words.{Words};
ghost use Rattle.code.specs.Rows.{lifted};
ghost use Rattle.code.specs.Transform.{mixed_halves};
ghost use Rattle.code.specs.steps.Mixing.{crossed_row, sum_row, mix_row, each_block};
ghost use Rattle.mixing.specs.steps.Words.{crossing_of};

use crate::direction::{Direction, Factors, Mixing, One, Power, Same};
use crate::row_powers::RowPowers;

// Crosses `width` words from index `low` with as many from index `high`, each pair under its factor. By index: of what is written through
// `iter_mut().zip(..)`, as two rows of one slice ask for, a proof knows the length alone.
pub(crate) fn cross_row<D: Direction, F: Factors>(
    part: &mut [u32],
    low: usize,
    high: usize,
    width: usize,
    factors: F,
)
    requires width_bound { low + width ≤ high }
    requires width_in_bounds { high + width ≤ length part.old }
    requires covered { (word : ℕ) → word < width → F.covers factors word }
    requires words { Words fermat.modulus part.old }
    ensures { part.new ≡ crossed_row (crossing_of D.unmixing fermat.modulus) (F.value factors) width low high part.old }
{
    for j in 0..width {
        let x = low + j;
        let y = high + j;
        let (a, b) = D::cross(factors.of(j), part[x], part[y]);
        part[x] = a;
        part[y] = b;
    }
}

// Mixes `width` words from index `low` with as many from index `high`, under a factor; no product where it is 1.
fn mix_row(part: &mut [u32], low: usize, high: usize, width: usize, factor: Power)
    requires width_bound { low + width ≤ high }
    requires width_in_bounds { high + width ≤ length part.old }
    requires words { Words fermat.modulus part.old }
    ensures { part.new ≡ mix_row fermat.modulus width low high factor.g part.old }
{
    if factor.g == 1 {
        cross_row::<Mixing, _>(part, low, high, width, Same(One));
    } else {
        cross_row::<Mixing, _>(part, low, high, width, Same(factor));
    }
}

// Mixes as many rows as there are powers (older) with the next ones (newer). Row i of the newer has power i for its factor.
pub fn mix(part: &mut [u32], width: usize, powers: RowPowers)
    requires part_len { length part.old ≡ (powers.rows + powers.rows) * width }
    requires words { Words fermat.modulus part.old }
    ensures { let m = powers.entry.rows in
        part.new ≡
        lifted width (m + m) (m + m) (mixed_halves fermat.modulus (get_or powers.entry.table.now powers.entry.step 0) m) part.old }
{
    let rows = powers.rows;
    let half = rows * width;
    // by index: two rows at a time, half of all apart
    for i in 0..rows {
        let low = i * width;
        mix_row(part, low, half + low, width, powers.of(i));
    }
}

// Crosses the first `size` words of each of `blocks` blocks with the next ones, each pair under its factor.
pub(crate) fn cross_each<D: Direction, F: Factors>(
    half: &mut [u32],
    blocks: usize,
    size: usize,
    factors: F,
)
    requires half_len { length half.old ≡ blocks * (size + size) }
    requires size_bound { size + size < 9223372036854775808 }
    requires covered { (word : ℕ) → word < size → F.covers factors word }
    requires words { Words fermat.modulus half.old }
    ensures { half.new ≡
        each_block blocks (size + size)
        (crossed_row (crossing_of D.unmixing fermat.modulus) (F.value factors) size 0 size) half.old }
{
    let both = size + size;
    // by index: of what is written to `chunks_exact_mut` a proof knows the length alone
    for b in 0..blocks {
        let at = b * both;
        cross_row::<D, _>(&mut half[at..at + both], 0, size, size, factors);
    }
}

// Sums and differences of the two rows of each of `blocks` blocks: a row alone has the factor 1, whatever the root is, in mixing and in unmixing.
pub fn sum_each(half: &mut [u32], blocks: usize, width: usize)
    requires half_len { length half.old ≡ blocks * (width + width) }
    requires width_bound { width + width < 9223372036854775808 }
    requires words { Words fermat.modulus half.old }
    ensures { half.new ≡ each_block blocks (width + width) (sum_row fermat.modulus width 0 width) half.old }
{
    cross_each::<Mixing, _>(half, blocks, width, Same(One));
}

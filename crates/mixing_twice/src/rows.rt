// Two levels of mixing, and of unmixing, in one pass over four rows. Rows are named by where they begin: four of them are of one slice, and all change.
ghost use Rattle.std.specs.Prelude.{◌≡◌, ◌+◌, ◌*◌, ◌%◌, ◌≤◌, ◌<◌, length, get_or};
ghost use Rattle.field.specs.Field.{fermat};
ghost use Rattle.field.specs.Words.{Words};
ghost use Rattle.code.specs.Rows.{lifted};
ghost use Rattle.code.specs.steps.Mixing.{each_block};
ghost use Rattle.mixing_twice.specs.steps.Quads.{quad_row, EntryFactors, QuadFactors, four_of, turn_of, twice};

use crate::direction::{ThreeFactors, TwoLevels, UnreducedFactor};
use mixing::direction::{One, Power};
use mixing::row_powers::RowPowers;

// Crosses `width` words of four rows, `far` apart, under the factors t. By index: of what is written through `iter_mut().zip(..)`, as rows of
// one slice would be, a proof knows the length alone.
fn cross_rows<D: TwoLevels, F: UnreducedFactor>(
    part: &mut [u32],
    at: usize,
    far: usize,
    width: usize,
    t: &ThreeFactors<F>,
)
    requires width_in_bounds { at + far + far + far + width ≤ length part.old }
    requires words { Words fermat.modulus part.old }
    ensures { part.new ≡ quad_row (four_of D.unmixing) (F.value t.now.t1) (F.value t.now.t2) far width at part.old }
{
    for j in 0..width {
        let x0 = at + j;
        let x1 = x0 + far;
        let x2 = x1 + far;
        let x3 = x2 + far;
        let (a, b, c, d) = D::cross_four(t, part[x0], part[x1], part[x2], part[x3]);
        part[x0] = a;
        part[x1] = b;
        part[x2] = c;
        part[x3] = d;
    }
}

// Crosses four rows under the entries 2e, e and 3e of a table of powers, around it; no product where these are entry 0. It takes table and entry, since a row's
// `RowPowers` has but one of the three.
fn cross_by<D: TwoLevels>(
    part: &mut [u32],
    at: usize,
    far: usize,
    width: usize,
    table: &[u32],
    e: usize,
)
    requires width_in_bounds { at + far + far + far + width ≤ length part.old }
    requires entry_factors { EntryFactors fermat.modulus e table.now }
    requires words { Words fermat.modulus part.old }
    ensures { part.new ≡
        quad_row (four_of D.unmixing) (get_or table.now (2 * e % 2048) 0) (get_or table.now (e % 2048) 0) far width at part.old }
{
    if e == 0 {
        let t = ThreeFactors {
            t1: One,
            t2: One,
            t3: One,
        };
        cross_rows::<D, _>(part, at, far, width, &t);
    } else {
        let t1 = Power {
            g: table[2 * e % 2048],
        };
        let t2 = Power { g: table[e % 2048] };
        let t3 = Power {
            g: table[3 * e % 2048],
        };
        let t = ThreeFactors { t1, t2, t3 };
        cross_rows::<D, _>(part, at, far, width, &t);
    }
}

// Crosses 4m rows, two levels at once, of which m are the rows of `powers`. Row i's factors are entries 2i, i and 3i steps on.
fn cross<D: TwoLevels>(part: &mut [u32], width: usize, powers: RowPowers)
    requires part_len { let m = powers.rows in length part.old ≡ (m + m + (m + m)) * width }
    requires quad_factors { QuadFactors fermat.modulus (turn_of D.unmixing) powers.rows powers.step powers.table.now }
    requires words { Words fermat.modulus part.old }
    ensures { let m = powers.entry.rows in
        part.new ≡
        lifted width (m + m + (m + m)) (m + m + (m + m))
        (twice D.unmixing fermat.modulus (get_or powers.entry.table.now powers.entry.step 0) m) part.old }
{
    let m = powers.rows;
    // by index: four rows at a time, m of them apart
    for i in 0..m {
        cross_by::<D>(
            part,
            i * width,
            m * width,
            width,
            powers.table,
            i * powers.step,
        );
    }
}

// Crosses each of `blocks` blocks of 4m rows, two levels at once, of which m are the rows of `powers`. In its caller's body the loop over rows has too few
// registers.
#[inline(never)]
pub fn cross_each<D: TwoLevels>(half: &mut [u32], blocks: usize, width: usize, powers: RowPowers)
    requires half_len { let m = powers.rows in length half.old ≡ blocks * ((m + m + (m + m)) * width) }
    requires width_bound { let m = powers.rows in (m + m + (m + m)) * width < 9223372036854775808 }
    requires m_bound { powers.rows < 4294967296 }
    requires quad_factors { QuadFactors fermat.modulus (turn_of D.unmixing) powers.rows powers.step powers.table.now }
    requires words { Words fermat.modulus half.old }
    ensures { let m = powers.entry.rows in
        half.new ≡
        each_block blocks ((m + m + (m + m)) * width)
        (lifted width (m + m + (m + m)) (m + m + (m + m))
        (twice D.unmixing fermat.modulus (get_or powers.entry.table.now powers.entry.step 0) m)) half.old }
{
    let m = powers.rows;
    let size = (m + m + (m + m)) * width;
    // by index: of what is written to `chunks_exact_mut` a proof knows the length alone
    for b in 0..blocks {
        let at = b * size;
        cross::<D>(&mut half[at..at + size], width, powers);
    }
}

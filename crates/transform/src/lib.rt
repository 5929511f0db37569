// All mixing of 2^level rows, in place, on slices that the caller lends, and its inverse. A row has words of any number; each function does the same to every
// column.
// That the words are below p, and how many there are, stays in clauses: they stand in buffers of u32, which the C interface lends, and change in place. So do
// the level, at most 10, and the width beside them: a type that says how many words these are would hold the words.
#![tactic(auto)]

mod large_rows;
pub mod small_rows;

ghost use Rattle.std.specs.Prelude.{◌≡◌, ◌*◌, ◌^◌, ◌≤◌, length};
ghost use Rattle.field.specs.Field.{fermat, root_of};
ghost use Rattle.field.specs.Words.{Words};
ghost use Rattle.code.specs.Rows.{lifted};
ghost use Rattle.transform.specs.steps.Transforms.{transform_of};

use mixing_twice::direction::TwoLevels;

// All mixing of 2^level rows, or its inverse, but for the factor 2^level.
pub fn cross_all<D: TwoLevels>(half: &mut [u32], level: usize, width: usize)
    requires level_bound { level ≤ 10 }
    requires half_len { length half.old ≡ 2 ^ level * width }
    requires words { Words fermat.modulus half.old }
    ensures { half.new ≡
        lifted width (2 ^ level) (2 ^ level)
        (transform_of D.unmixing fermat.modulus (root_of fermat level) level level) half.old }
{
    if width < 4 {
        crate::small_rows::cross_small_rows::<D>(half, level, width);
    } else {
        crate::large_rows::cross_large_rows::<D>(half, level, width);
    }
}

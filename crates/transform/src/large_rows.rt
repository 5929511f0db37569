// All mixing of 2^level rows of four words and more, and its inverse, in place: two levels at once, a row at a time.
ghost use Rattle.std.specs.Prelude.{◌≡◌, ◌*◌, ◌^◌, ◌≤◌, length};
ghost use Rattle.field.specs.Field.{fermat, root_of};
ghost use Rattle.field.specs.Words.{Words};
ghost use Rattle.code.specs.Rows.{lifted};
ghost use Rattle.transform.specs.steps.Transforms.{transform_of};

use mixing_twice::direction::TwoLevels;

// All mixing of 2^level rows, or its inverse, but for the factor 2^level. Pass by pass over the rows, of two levels each; where the number of levels is odd,
// pass 0 is the level of single rows alone.
pub(crate) fn cross_large_rows<D: TwoLevels>(half: &mut [u32], level: usize, width: usize)
    requires level_bound { level ≤ 11 }
    requires half_len { length half.old ≡ 2 ^ level * width }
    requires words { Words fermat.modulus half.old }
    ensures { half.new ≡
        lifted width (2 ^ level) (2 ^ level)
        (transform_of D.unmixing fermat.modulus (root_of fermat level) level level) half.old }
{
    let odd = level % 2;
    let passes = level / 2 + odd;
    for turn in 0..passes {
        let pass = D::pass(turn, passes);
        if pass < odd {
            mixing::rows::sum_each(half, code::number::two_to(level - 1), width);
        } else {
            let l = 2 * pass - odd;
            let blocks = code::number::two_to(level - l - 2);
            mixing_twice::rows::cross_each::<D>(half, blocks, width, D::powers(l + 1).half());
        }
    }
}

// All mixing of 2^level rows of few words, and its inverse, in place.
ghost use Rattle.std.specs.Prelude.{◌≡◌, ◌*◌, ◌^◌, ◌≤◌, length};
ghost use Rattle.field.specs.Field.{fermat, root_of};
ghost use Rattle.field.specs.Words.{Words};
ghost use Rattle.code.specs.Rows.{lifted};
ghost use Rattle.transform.specs.steps.Transforms.{transform_of};

use mixing::direction::Direction;

// All mixing of 2^level rows of `width` words, at most 3,072 in all, or its inverse, but for the factor 2^level: at most 1,536 words have a factor in a level.
pub fn cross_small_rows<D: Direction>(half: &mut [u32], level: usize, width: usize)
    requires level_bound { (level ≤ 11) × (2 ^ level * width ≤ 3072) }
    requires half_len { length half.old ≡ 2 ^ level * width }
    requires words { Words fermat.modulus half.old }
    ensures { half.new ≡
        lifted width (2 ^ level) (2 ^ level)
        (transform_of D.unmixing fermat.modulus (root_of fermat level) level level) half.old }
{
    // the library has no heap
    let mut factors = [0u32; 1536];
    for turn in 0..level {
        let l = D::pass(turn, level);
        let powers = D::powers(l);
        let words = powers.rows * width;
        let blocks = code::number::two_to(level - l - 1);
        mixing::words::repeat(&mut factors, width, powers);
        mixing::words::cross_words_each::<D>(half, blocks, &factors[..words]);
    }
}

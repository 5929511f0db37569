// The logarithms of the decoder's weights (`logs`, logarithms/specs/Weights) by cyclic convolution. The logarithm of a position's weight is a sum over the
// erased positions of a term that depends on the difference of exponents alone, so that all of them are one convolution of the marks with the table of
// logarithms: mixed, multiplied word by word, unmixed. Such a sum has to stay below p, and a logarithm has 16 bits: it is done for each of three digits
// of six bits. Where there are few positions the sums are made directly.
// That the words are below p, and how many there are, stays in clauses: they stand in slices of u32 that change in place, the part in one that the C interface
// lends, the logarithms in one with room for the largest stripe, whose rest is promised to stay.
#![tactic(auto)]

mod columns;
mod convolved;
mod direct;
mod exponents;
mod sums;

ghost use Rattle.std.specs.Prelude.{◌≡◌, suc, ◌++◌, ◌*◌, ◌^◌, ◌≤◌, length, drop};
ghost use Rattle.logarithms.specs.Weights.{erased_to};
ghost use Rattle.logarithms.specs.Weights as Weights;

use exponents::{Marks, Positions};

// From this level on the convolution takes no longer than the sums made directly, or hardly longer, where half of the positions are erased; and it grows less.
const CONVOLVED_FROM: usize = 9;

// Stores the logarithms of all positions at the beginning of an array. The words of the part serve to compute these: what is left there is open.
// The level comes as a number beside the marks, and both are made `Marks` here.
pub fn store_logs(logs: &mut [u32], part: &mut [u32], marks: &[bool], level: usize)
    requires level_bound { level ≤ 10 }
    requires level_in_bounds { 2 ^ suc level ≤ length marks.now }
    requires level_bound_2 { erased_to marks.now (2 ^ suc level) ≤ 2 ^ level }
    requires logs_len { 2 ^ suc level ≤ length logs.old }
    requires room { 3 * 2 ^ suc level ≤ length part.old }
    ensures { logs.new ≡ Weights.logs level marks.now ++ drop (2 ^ suc level) logs.old }
{
    let marks = Marks {
        at: Positions { level },
        erased: marks,
    };
    if level < CONVOLVED_FROM {
        direct::store_direct(logs, part, marks);
    } else {
        convolved::store_convolved(logs, part, marks);
    }
}

// The logarithms by cyclic convolution, a digit at a time.
ghost use Rattle.std.specs.Prelude.{◌≡◌, suc, ◌++◌, ◌*◌, ◌^◌, ◌≤◌, length, drop};
ghost use Rattle.logarithms.specs.Weights.{erased_to};
ghost use Rattle.logarithms.specs.Weights as Weights;

use crate::columns::Digit;
use crate::exponents::Marks;
use crate::sums;

// Stores the logarithms of all positions at the beginning of an array. What is left in the part is open.
pub fn store_convolved(logs: &mut [u32], part: &mut [u32], marks: Marks)
    requires half { erased_to marks.erased.now (2 ^ suc marks.at.level) ≤ 2 ^ marks.at.level }
    requires logs_len { 2 ^ suc marks.at.level ≤ length logs.old }
    requires room { 2 * 2 ^ suc marks.at.level ≤ length part.old }
    ensures { logs.new ≡ Weights.logs marks.entry.at.level marks.entry.erased.now ++ drop (2 ^ suc marks.entry.at.level) logs.old }
{
    let at = marks.at;
    sums::start(logs, part, marks);
    sums::add_digit(logs, part, at, Digit { unit: 1 });
    sums::add_digit(logs, part, at, Digit { unit: 64 });
    sums::add_digit(logs, part, at, Digit { unit: 4096 });
}

// Columns of a word for each position, by the exponents of the positions' points in bit-reversed order: the marks, a digit of the logarithms, and their mixing.
ghost use Rattle.std.specs.Prelude.{◌≡◌, ◌++◌, suc, ◌+◌, ◌^◌, ◌<◌, length, take};
ghost use Rattle.field.specs.Field.{fermat};
ghost use Rattle.field.specs.Words.{Words};
ghost use Rattle.code.specs.Transform.{bit_reversed};
ghost use Rattle.code.specs.Convolution.{products};
ghost use Rattle.weights.specs.steps.Digits.{flags, digits, crossed_column, sum_rows};

use crate::exponents::{Marks, Positions};
use mixing::direction::{Direction, Mixing, Unmixing};

// A digit of the logarithms: six of their sixteen bits, those from `unit` on.
#[derive(Clone, Copy)]
pub struct Digit {
    pub unit: u32,
    ghost some: { 0 < unit },
}

// The marks, 1 where a position is erased.
pub fn load_flags(column: &mut [u32], marks: Marks)
    requires { length column.old ≡ 2 ^ suc marks.at.level }
    ensures { column.new ≡ bit_reversed (suc marks.entry.at.level) (flags marks.entry.at.level marks.entry.erased.now) }
{
    for (j, word) in column.iter_mut().enumerate() {
        let i = marks.at.position(marks.at.reversed(j));
        *word = u32::from(marks.erased[i]);
    }
}

// A digit of the logarithms of u^d - 1, for all exponents d.
fn load_digits(column: &mut [u32], at: Positions, digit: Digit)
    requires { length column.old ≡ 2 ^ suc at.level }
    ensures { column.new ≡ bit_reversed (suc at.level) (digits at.level digit.unit) }
{
    for (j, word) in column.iter_mut().enumerate() {
        *word = at.log_of_less(at.reversed(j)) / digit.unit % 64;
    }
}

// All mixing of a column, which is rows of one word, or its inverse, but for a factor 2^(level + 1).
pub fn cross<D: Direction>(column: &mut [u32], at: Positions)
    requires column_len { length column.old ≡ 2 ^ suc at.level }
    requires words { Words fermat.modulus column.old }
    ensures { column.new ≡ crossed_column D.unmixing at.level column.old }
{
    transform::small_rows::cross_small_rows::<D>(column, at.level + 1, 1);
}

// Multiplies each word of a column by the word in its place of another one.
fn multiply(column: &mut [u32], by: &[u32])
    requires by_len { length by.now ≡ length column.old }
    requires words { Words fermat.modulus column.old }
    requires words_2 { Words fermat.modulus by.now }
    ensures { column.new ≡ products fermat.modulus (length column.old) by.now column.old }
{
    for (i, word) in column.iter_mut().enumerate() {
        *word = field::mul(by[i], *word);
    }
}

// The sums of a digit for all positions, behind the mixed marks.
pub fn store_sums(part: &mut [u32], at: Positions, digit: Digit)
    requires part_len { length part.old ≡ 2 ^ suc at.level + 2 ^ suc at.level }
    requires words { Words fermat.modulus (take (2 ^ suc at.level) part.old) }
    ensures { part.new ≡
        take (2 ^ suc at.level) part.old ++ sum_rows at.level digit.unit (take (2 ^ suc at.level) part.old) }
{
    let (marks, sums) = part.split_at_mut(at.count());
    load_digits(sums, at, digit);
    cross::<Mixing>(sums, at);
    multiply(sums, marks);
    cross::<Unmixing>(sums, at);
}

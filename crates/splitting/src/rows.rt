// Rows of a level taken apart: of two rows one is half their sum, which goes to the level below, and the other their difference times a factor, which stays for
// the next pass. Both are halved here, so that no power of 2 is left, and the row that is done with is cleared.
ghost use Rattle.std.specs.Prelude.{◌≡◌, ◌+◌, ◌*◌, ◌/◌, ◌%◌, ◌≤◌, ◌<◌, length, get_or};
ghost use Rattle.field.specs.Field.{fermat};
ghost use Rattle.field.specs.Residue.{plus, times};
ghost use Rattle.field.specs.Words.{Words};
ghost use Rattle.code.specs.steps.Storing.{stored, always};
ghost use Rattle.splitting.specs.steps.Unfolding.{half_sum, difference_by, half_difference};

use mixing::direction::{Factor, Power};
use mixing::row_powers::RowPowers;

// The inverse of 2.
const HALF: u32 = 32769;

// The factor -1, by which a product does not fit 32 bits: it is the difference from 0.
#[derive(Clone, Copy)]
struct MinusOne;

impl Factor for MinusOne {
    ghost value = { λ _. 65536 };

    #[inline(always)]
    fn product(self, y: u32) -> u32 {
        field::sub(0, y)
    }
}

// A number over 2: an odd one is 1 more than an even one. No product of the field, and no branch.
#[inline(always)]
fn half(x: u32) -> u32
    requires { x < 131074 }
    ensures { result ≡ x / 2 + x % 2 * 32769 }
{
    x / 2 + x % 2 * HALF
}

// Half the sum of two words. The sum is halved as it is, so that both take one reduction: a difference that wraps is the larger one.
#[inline(always)]
fn half_of_sum(a: u32, b: u32) -> u32
    requires { (a < fermat.modulus) × (b < fermat.modulus) }
    ensures { result ≡ times fermat.modulus 32769 (plus fermat.modulus a b) }
{
    let h = half(a + b);
    h.min(h.wrapping_sub(field::MODULUS))
}

// One row out of two, from index `at` on: three slices, so that the compiler knows that no store changes what is read.
fn split_row<F: Factor>(
    to: &mut [u32],
    low: &mut [u32],
    high: &mut [u32],
    at: usize,
    width: usize,
    factor: F,
)
    requires to_len { at + width ≤ length to.old }
    requires low_len { at + width ≤ length low.old }
    requires high_len { at + width ≤ length high.old }
    requires low_words { Words fermat.modulus low.old }
    requires high_words { Words fermat.modulus high.old }
    ensures to { to.new ≡ stored at (λ j. half_sum fermat.modulus 32769 low.old high.old (at + j)) width to.old }
    ensures low { low.new ≡ stored at (always 0) width low.old }
    ensures high { high.new ≡ stored at (λ j. difference_by fermat.modulus (F.value factor) low.old high.old (at + j)) width high.old }
{
    for j in 0..width {
        let x = at + j;
        let a = low[x];
        let b = high[x];
        to[x] = half_of_sum(a, b);
        low[x] = 0;
        high[x] = factor.product(field::sub(a, b));
    }
}

// The same by a factor that may be -1.
fn split_by(to: &mut [u32], low: &mut [u32], high: &mut [u32], at: usize, width: usize, g: u32)
    requires factor { g < fermat.modulus }
    requires to_len { at + width ≤ length to.old }
    requires low_len { at + width ≤ length low.old }
    requires high_len { at + width ≤ length high.old }
    requires low_words { Words fermat.modulus low.old }
    requires high_words { Words fermat.modulus high.old }
    ensures to { to.new ≡ stored at (λ j. half_sum fermat.modulus 32769 low.old high.old (at + j)) width to.old }
    ensures low { low.new ≡ stored at (always 0) width low.old }
    ensures high { high.new ≡ stored at (λ j. difference_by fermat.modulus g low.old high.old (at + j)) width high.old }
{
    if g == 65536 {
        split_row(to, low, high, at, width, MinusOne);
    } else {
        split_row(to, low, high, at, width, Power { g });
    }
}

// All rows. Row i's factor is the inverse of mixing's, over 2.
pub(crate) fn split_rows(
    to: &mut [u32],
    low: &mut [u32],
    high: &mut [u32],
    width: usize,
    powers: RowPowers,
)
    requires to_len { length to.old ≡ powers.rows * width }
    requires low_len { length low.old ≡ powers.rows * width }
    requires high_len { length high.old ≡ powers.rows * width }
    requires low_words { Words fermat.modulus low.old }
    requires high_words { Words fermat.modulus high.old }
    ensures to { to.new ≡ stored 0 (half_sum fermat.modulus 32769 low.old high.old) (powers.entry.rows * width) to.old }
    ensures low { low.new ≡ stored 0 (always 0) (powers.entry.rows * width) low.old }
    ensures high { high.new ≡
        stored 0 (half_difference fermat.modulus 32769 (get_or powers.entry.table.now powers.entry.step 0) width low.old high.old)
        (powers.entry.rows * width) high.old }
{
    for i in 0..powers.rows {
        let g = half(powers.of(i).g);
        split_by(to, low, high, i * width, width, g);
    }
}

// Coding of a stripe (docs/FORMAT.md, section 4) in place, on a slice that the caller lends, and the steps that decoding shares.
#![tactic(auto)]

pub mod factors;

ghost use Rattle.std.specs.Prelude.{◌≡◌, ◌⊎◌, ℕ, ◌+◌, ◌≤◌, ◌<◌, length, get_or, take};
ghost use Rattle.std.proofs.lemmas.List.Edits.{sets};
ghost use Rattle.field.specs.Field.{fermat};
ghost use Rattle.field.specs.Words.{Words};
ghost use Rattle.code.specs.Rows.{lifted};
ghost use Rattle.code.specs.Transform.{turned};
ghost use Rattle.code.specs.Stripe.{modulus_of, root_in, block_count, block_words, coded_stripe};
ghost use Rattle.code.specs.steps.Storing.{stored, scaled_word, scale_row};
ghost use Rattle.mixing.specs.steps.Words.{root_for};
ghost use Rattle.transform.specs.steps.Transforms.{transform_of};

use code::ValidStripe;
use mixing::direction::{Direction, Factor, Mixing};
use mixing_twice::direction::TwoLevels;

// Here and below the rows stay a slice beside the stripe: of a struct with a `&mut` slice in it a contract would have to say which of its values it means. A
// row is named by where it begins, and by an index: the row that is read and the one that is stored are of one slice, and may be one.

// All mixing of a half of a stripe, or its inverse, but for the factor 2^level.
pub fn cross_half<D: TwoLevels>(half: &mut [u32], st: ValidStripe)
    requires half_len { length half.old ≡ block_words st.stripe }
    requires words { Words (modulus_of st.stripe) half.old }
    ensures { half.new ≡
        lifted st.stripe.width (block_count st.stripe) (block_count st.stripe)
        (transform_of D.unmixing (modulus_of st.stripe) (root_in st.stripe) st.stripe.k st.stripe.level) half.old }
{
    transform::cross_all::<D>(half, st.stripe.level, st.stripe.width);
}

// Multiplies the row from index `at` on by `g`.
pub fn scale_row<F: Factor>(part: &mut [u32], at: usize, width: usize, g: F)
    requires width_in_bounds { at + width ≤ length part.old }
    requires words { Words fermat.modulus part.old }
    ensures { part.new ≡ scale_row fermat.modulus width at (F.value g) part.old }
{
    scale_row_over(part, at, at, width, g);
}

// The row from index `from` on times `g`, in the place of the row at `to`: of a row that it does not reach, or of one that begins no later.
pub fn scale_row_over<F: Factor>(part: &mut [u32], from: usize, to: usize, width: usize, g: F)
    requires apart { (from + width ≤ to) ⊎ (to ≤ from) }
    requires width_bound { (from + width ≤ length part.old) × (to + width ≤ length part.old) }
    requires by_index { (j : ℕ) → j < width → get_or part.old (from + j) 0 < fermat.modulus }
    ensures { part.new ≡ stored to (scaled_word fermat.modulus from (F.value g) part.old) width part.old }
{
    // by index: a row is stored in the slice in which it stands
    for j in 0..width {
        let x = from + j;
        let y = to + j;
        part[y] = g.product(part[x]);
    }
}

// Turns as many rows as there are blocks, or turns them back, in the place of those from index `to` on: of the second half, or of themselves. The row of write
// t is multiplied by w^rev(t), where w is the stripe's root, or its inverse: that is the power of the root of 1,024 records at t with its ten bits reversed.
pub fn turn<D: Direction>(part: &mut [u32], st: ValidStripe, to: usize)
    requires place { (block_words st.stripe ≤ to) ⊎ (to ≡ 0) }
    requires room { to + block_words st.stripe ≤ length part.old }
    requires words { Words (modulus_of st.stripe) (take (block_words st.stripe) part.old) }
    ensures { part.new ≡
        sets part.old to
        (lifted st.stripe.width (block_count st.stripe) (block_count st.stripe)
        (turned (modulus_of st.stripe) (root_for D.unmixing (modulus_of st.stripe) (root_in st.stripe)) st.stripe.k st.stripe.first)
        (take (block_words st.stripe) part.old)) }
{
    let first = st.stripe.first;
    let width = st.stripe.width;
    let rows = st.block_count();
    let powers = D::powers(10);
    // by index: a row's number gives its factor, and it is stored in the slice in which it stands
    for j in 0..rows {
        let from = j * width;
        let e = code::number::reversed(10, first + j) as usize;
        scale_row_over(part, from, to + from, width, powers.of(e));
    }
}

// Codes the blocks in the first half of the rows: X where they stand, and Y behind it. Y is turned first, while the blocks stand. What stands in the second
// half does not matter. To cross both halves is two lines, in decoding too (`evaluate` and `unmix_halves` of
// the crate decoder): a function of them would have the contracts of both, and each caller its own law of what they come to.
pub fn code(part: &mut [u32], st: ValidStripe)
    requires part_len { length part.old ≡ block_words st.stripe + block_words st.stripe }
    requires words { Words (modulus_of st.stripe) (take (block_words st.stripe) part.old) }
    ensures { part.new ≡ coded_stripe st.stripe (take (block_words st.stripe) part.old) }
{
    let half = st.half_size();
    turn::<Mixing>(part, st, half);
    cross_half::<Mixing>(&mut part[..half], st);
    cross_half::<Mixing>(&mut part[half..], st);
}

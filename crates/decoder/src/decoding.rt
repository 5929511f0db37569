// Decoding of a range of columns of a stripe, in place, by the steps of specs/steps/Decoder. The part holds the rows, X then Y. The factors by which rows are
// multiplied and divided stand in an array of their own.
ghost use Rattle.std.specs.Prelude.{◌≡◌, ◌++◌, ◌+◌, ◌*◌, ◌-◌, ◌^◌, ◌≤◌, ◌<◌, suc, length, take, drop};
ghost use Rattle.field.specs.Power.{inverse};
ghost use Rattle.field.specs.Words.{Words};
ghost use Rattle.code.specs.Rows.{lifted};
ghost use Rattle.code.specs.Stripe.{modulus_of, generator_of, root_in, block_count, position_count, block_words, stripe_words};
ghost use Rattle.decoder.specs.Decoding.{is_consistent};
ghost use Rattle.decoder.specs.steps.Decoder.{left_of, raised, Factors};
ghost use Rattle.decoder.specs.steps.Decoder as Decoder;
ghost use Rattle.code.specs.steps.Storing.{stored};
ghost use Rattle.field.specs.Field.{fermat};
ghost use Rattle.decoder.specs.steps.RowTests.{derive_at, all_to, same_at, low_rows};
ghost use Rattle.decoder.specs.Promises.{Enough};

use code::ValidStripe;
use encoder::factors::Word;
use mixing::direction::{Mixing, Unmixing};

// A stripe, the marks of its positions and the words that stand for their factors. The rows stay beside it: of a struct with a `&mut` in it a contract would
// have to say at each place which of its values it means, entry's or return's.
#[derive(Clone, Copy)]
struct MarkedStripe<'a> {
    st: ValidStripe,
    marks: &'a [bool],
    factors: &'a [u32],
    ghost marks_len: { position_count st.stripe ≤ length marks.now },
    ghost factors_len: { position_count st.stripe ≤ length factors.now },
    ghost factors_small: { Words (modulus_of st.stripe - 1) factors.now },
}

// Step 1: multiplies each row by its position's factor, and clears the rows of erased positions.
fn weigh(part: &mut [u32], marked: MarkedStripe)
    requires part_len { length part.old ≡ stripe_words marked.st.stripe }
    requires words { Words (modulus_of marked.st.stripe) part.old }
    ensures { let st = marked.entry.st.stripe in
        part.new ≡
        lifted st.width (position_count st) (position_count st)
        (Decoder.weighed (modulus_of st) st.level marked.entry.marks.now
        (raised (modulus_of st) (generator_of st) st.level marked.entry.factors.now)) part.old }
{
    let st = marked.st;
    let width = st.stripe.width;
    let rows = st.position_count();
    // By index: a position's row, mark and factor side by side.
    for i in 0..rows {
        let at = i * width;
        let g = if marked.marks[i] {
            0
        } else {
            crate::factors_65537::factor(marked.factors[i], st.stripe)
        };
        encoder::scale_row(part, at, width, Word { value: g });
    }
}

// Step 2: the inverse transforms of X and of Y, and Y's turned back.
fn unmix_halves(part: &mut [u32], st: ValidStripe)
    requires part_len { length part.old ≡ stripe_words st.stripe }
    requires words { Words (modulus_of st.stripe) part.old }
    ensures { part.new ≡
        lifted st.stripe.width (position_count st.stripe) (position_count st.stripe)
        (Decoder.halves_unmixed (modulus_of st.stripe) (inverse (modulus_of st.stripe) (root_in st.stripe)) st.stripe.k st.stripe.level st.stripe.first)
        part.old }
{
    let half = st.half_size();
    encoder::cross_half::<Unmixing>(&mut part[..half], st);
    encoder::cross_half::<Unmixing>(&mut part[half..], st);
    encoder::turn::<Unmixing>(&mut part[half..], st, 0);
}

// Whether two rows are equal. They are named by where they begin, as the definitions name them.
fn same_row(part: &[u32], low: usize, high: usize, width: usize) -> bool
    requires { (low + width ≤ length part.now) × (high + width ≤ length part.now) }
    ensures { result ≡ all_to width (same_at low high part.now) }
{
    part[low..low + width] == part[high..high + width]
}

// The check: whether row j of the first half is row j of the second, for each j whose reversed bits are not below the count of erasures.
fn has_low_degree(part: &[u32], st: ValidStripe, erased: usize) -> bool
    requires { length part.now ≡ stripe_words st.stripe }
    ensures { result ≡ low_rows st.stripe.level erased st.stripe.width part.now }
{
    let width = st.stripe.width;
    let rows = st.block_count();
    let half = st.half_size();
    (0..rows).all(|j| {
        let low = j * width;
        (code::number::reversed(st.stripe.level, j) as usize) < erased
            || same_row(part, low, half + low, width)
    })
}

// a times the row at `low` less b times the row at `high`, in the latter's place.
fn derive_row(part: &mut [u32], low: usize, high: usize, width: usize, a: u32, b: u32)
    requires width_bound { (low + width ≤ high) × (high + width ≤ length part.old) }
    requires a_bound { (a < fermat.modulus - 1) × (b < fermat.modulus - 1) }
    requires words { Words fermat.modulus part.old }
    ensures { part.new ≡ stored high (derive_at fermat.modulus low high a b part.old) width part.old }
{
    // By index: of what is written through `iter_mut().zip(..)`, as two rows of one slice ask for, a proof knows the length alone.
    for j in 0..width {
        let x = low + j;
        let y = high + j;
        let s = field::short_65537::mul(a, part[x]);
        part[y] = field::sub(s, field::short_65537::mul(b, part[y]));
    }
}

// Step 3: the second half becomes the coefficients of z R'(z). 32769 = (p + 1) / 2 is the half of 1, so that b is the half of the number of rows.
fn derive(part: &mut [u32], st: ValidStripe)
    requires part_len { length part.old ≡ stripe_words st.stripe }
    requires words { Words (modulus_of st.stripe) part.old }
    ensures { part.new ≡
        lifted st.stripe.width (position_count st.stripe) (position_count st.stripe)
        (Decoder.derived (modulus_of st.stripe) st.stripe.level) part.old }
{
    let width = st.stripe.width;
    let rows = st.block_count();
    let half = st.half_size();
    let b = field::mul(32769, rows as u32);
    // By index: row j of either half, and both halves stand in one slice.
    for j in 0..rows {
        let low = j * width;
        let a = field::add(code::number::reversed(st.stripe.level, j), b);
        derive_row(part, low, half + low, width, a, b);
    }
}

// Step 4: both halves transformed.
fn evaluate(part: &mut [u32], st: ValidStripe)
    requires part_len { length part.old ≡ stripe_words st.stripe }
    requires words { Words (modulus_of st.stripe) part.old }
    ensures { part.new ≡
        lifted st.stripe.width (position_count st.stripe) (position_count st.stripe)
        (Decoder.evaluated (modulus_of st.stripe) (root_in st.stripe) st.stripe.k st.stripe.level) part.old }
{
    let half = st.half_size();
    encoder::cross_half::<Mixing>(&mut part[..half], st);
    encoder::cross_half::<Mixing>(&mut part[half..], st);
}

// Step 5: the first half becomes the polynomial's values at the points of X, from the second half where the position is erased.
fn select_values(part: &mut [u32], marked: MarkedStripe)
    requires part_len { length part.old ≡ stripe_words marked.st.stripe }
    requires words { Words (modulus_of marked.st.stripe) part.old }
    ensures { let st = marked.entry.st.stripe in
        part.new ≡
        lifted st.width (position_count st) (block_count st)
        (Decoder.selected (modulus_of st) st.level marked.entry.marks.now
        (raised (modulus_of st) (generator_of st) st.level marked.entry.factors.now)) part.old ++
        drop (block_words st) part.old }
{
    let st = marked.st;
    let width = st.stripe.width;
    let rows = st.block_count();
    let half = st.half_size();
    let over = crate::factors_65537::inverse_of_square(st);
    // By index, as in `weigh`.
    for i in 0..rows {
        let at = i * width;
        let d = crate::factors_65537::reciprocal(marked.factors[i], st.stripe);
        let g = Word {
            value: field::mul(over, d),
        };
        if marked.marks[i] {
            encoder::scale_row_over(part, half + at, at, width, g);
        } else {
            encoder::scale_row(part, at, width, g);
        }
    }
}

// How many positions are erased.
pub fn count_erased(marks: &[bool], level: usize) -> usize
    requires level_bound { level ≤ 15 }
    requires level_in_bounds { 2 ^ suc level ≤ length marks.now }
    ensures { result ≡ Decoder.erased_count level marks.now }
{
    let positions = code::number::two_to(level + 1);
    let mut erased = 0;
    // A sum of numbers, and no `filter`: this takes several marks at a time.
    for mark in &marks[..positions] {
        erased += usize::from(*mark);
    }
    erased
}

// Steps 3 to 5, and the inverse transform of what they give: the blocks in the first half. What is left in the second half is open.
fn interpolate(part: &mut [u32], marked: MarkedStripe)
    requires part_len { length part.old ≡ stripe_words marked.st.stripe }
    requires words { Words (modulus_of marked.st.stripe) part.old }
    ensures { let st = marked.entry.st.stripe in
        take (block_words st) part.new ≡
        lifted st.width (position_count st) (block_count st)
        (Decoder.interpolated (modulus_of st) (root_in st) st.k st.level marked.entry.marks.now
        (raised (modulus_of st) (generator_of st) st.level marked.entry.factors.now)) part.old }
{
    let st = marked.st;
    let half = st.half_size();
    derive(part, st);
    evaluate(part, st);
    select_values(part, marked);
    encoder::cross_half::<Unmixing>(&mut part[..half], st);
}

// Where nothing is erased and the check holds: the blocks are what step 2 left in the first half, over the count of rows.
fn unscale(part: &mut [u32], st: ValidStripe)
    requires part_len { length part.old ≡ stripe_words st.stripe }
    requires words { Words (modulus_of st.stripe) part.old }
    ensures { part.new ≡
        lifted st.stripe.width (position_count st.stripe) (block_count st.stripe)
        (Decoder.unscaled (modulus_of st.stripe) st.stripe.level) part.old ++ drop (block_words st.stripe) part.old }
{
    let rows = st.block_count();
    let over = field::inverse(rows as u32);
    encoder::scale_row(part, 0, st.half_size(), Word { value: over });
}

// Decodes the rows of a stripe, of which at least half survive, in place: whether some blocks code to all surviving words, and then the blocks in
// order of time in the first half, zeros behind them; zeros alone where there are none. What stands at erased positions does not matter. Where nothing is
// erased, all factors are 1 and no row has to be found.
pub fn decode(part: &mut [u32], marks: &[bool], factors: &[u32], st: ValidStripe) -> bool
    requires enough { (position_count st.stripe ≤ length marks.now) × Enough st.stripe.level marks.now }
    requires factors_are { Factors st.stripe marks.now factors.now }
    requires part_len { length part.old ≡ stripe_words st.stripe }
    requires words { Words (modulus_of st.stripe) part.old }
    ensures value { result ≡ is_consistent st.stripe marks.now part.old }
    ensures part_after { part.new ≡ left_of st.stripe marks.now part.old }
{
    let half = st.half_size();
    let erased = count_erased(marks, st.stripe.level);
    let marked = MarkedStripe { st, marks, factors };
    if 0 < erased {
        weigh(part, marked);
    }
    unmix_halves(part, st);
    if !has_low_degree(part, st, erased) {
        part.fill(0);
        return false;
    }
    if 0 < erased {
        interpolate(part, marked);
    } else {
        unscale(part, st);
    }
    part[half..].fill(0);
    true
}

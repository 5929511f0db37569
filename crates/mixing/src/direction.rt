// Mixing and unmixing: what they make of two words, in which order they go through the levels, and what words are crossed under: a factor, and the factors
// of a row's words.
ghost use Rattle.std.specs.Prelude.{◌≡◌, ℕ, ◌-◌, ◌^◌, ◌≤◌, ◌<◌, Bool, true, false, length, get_or};
ghost use Rattle.field.specs.Residue.{times};
ghost use Rattle.field.specs.Field.{fermat, power_table};
ghost use Rattle.mixing.specs.steps.Words.{crossing_of, pass_of, step_of};

use crate::row_powers::RowPowers;

// What a word is multiplied by.
pub trait Factor: Copy {
    ghost value: { Self → ℕ };

    // The product with a word.
    fn product(self, y: u32) -> u32
        requires { y < fermat.modulus }
        ensures { result ≡ times fermat.modulus (value self) y };
}

// The factor 1: a product is the word itself.
#[derive(Clone, Copy)]
pub struct One;

// A power of a root that is not -1, so that a product with a word fits 32 bits.
#[derive(Clone, Copy)]
pub struct Power {
    pub g: u32,
    pub ghost short: { g < fermat.modulus - 1 },
}

impl Factor for One {
    ghost value = { λ _. 1 };

    #[inline(always)]
    fn product(self, y: u32) -> u32 {
        y
    }
}

impl Factor for Power {
    ghost value = { λ f. f.g };

    #[inline(always)]
    fn product(self, y: u32) -> u32 {
        field::short_65537::mul(self.g, y)
    }
}

// The factors of the words of a row.
pub(crate) trait Factors: Copy {
    type Each: Factor;

    // The factor of each word, and that a word has one that is not -1.
    ghost value: { Self → (word : ℕ) → ℕ };

    ghost covers: { Self → (word : ℕ) → Type 0 };

    // The factor of a word.
    fn of(self, word: usize) -> Self::Each
        requires { covers self word }
        ensures { Self.Each.value result ≡ value self word };
}

// One factor for all words.
#[derive(Clone, Copy)]
pub(crate) struct Same<F: Factor>(pub F);

// A factor for each word, none of them -1.
#[derive(Clone, Copy)]
pub(crate) struct PerWord<'a>(pub &'a [u32]);

impl<F: Factor> Factors for Same<F> {
    type Each = F;

    ghost value = { λ s _. F.value s.0 };

    ghost covers = { λ _ _. Unit {0} };

    #[inline(always)]
    fn of(self, _word: usize) -> F {
        self.0
    }
}

impl Factors for PerWord<'_> {
    type Each = Power;

    ghost value = { λ s word. get_or s.0.now word 0 };

    ghost covers = { λ s word. (word < length s.0.now) × (get_or s.0.now word 0 < fermat.modulus - 1) };

    #[inline(always)]
    fn of(self, word: usize) -> Power {
        Power { g: self.0[word] }
    }
}

// Which way words are crossed: mixing, from single rows up, or unmixing, from all rows down.
pub trait Direction {
    // Whether it is unmixing: the definitions of specs/steps go by that.
    ghost unmixing: { Bool };

    // The pass over the rows that is made in a turn, of so many.
    fn pass(turn: usize, all: usize) -> usize
        requires { turn < all }
        ensures { result ≡ pass_of unmixing turn all };

    // The factors of 2^level rows that are crossed with as many, out of the table of powers. The level's bound is the table's. Each direction has its own step,
    // and its own law that powers so far apart are factors.
    fn powers(level: usize) -> RowPowers<'static>
        requires { level ≤ 10 }
        ensures { (result.rows ≡ 2 ^ level) × (result.step ≡ step_of unmixing level) × (result.table.now ≡ power_table) };

    // What is stored in the place of two words.
    fn cross<F: Factor>(g: F, a: u32, b: u32) -> (u32, u32)
        requires { (a < fermat.modulus) × (b < fermat.modulus) }
        ensures low { result.0 ≡ (crossing_of unmixing fermat.modulus).low (F.value g) a b }
        ensures high { result.1 ≡ (crossing_of unmixing fermat.modulus).high (F.value g) a b };
}

// Sum and difference of one word and the product of the other.
pub struct Mixing;

// The inverse of mixing, but for a factor of 2: the sum, and the product of the difference.
pub struct Unmixing;

impl Direction for Mixing {
    ghost unmixing = { false };

    fn pass(turn: usize, _all: usize) -> usize {
        turn
    }

    // The root of 2^level records is entry 1024 / 2^level.
    fn powers(level: usize) -> RowPowers<'static> {
        let rows = code::number::two_to(level);
        RowPowers {
            table: code::table_65537::powers(),
            rows,
            step: 1024 / rows,
        }
    }

    #[inline(always)]
    fn cross<F: Factor>(g: F, a: u32, b: u32) -> (u32, u32) {
        let t = g.product(b);
        (field::add(a, t), field::sub(a, t))
    }
}

impl Direction for Unmixing {
    ghost unmixing = { true };

    fn pass(turn: usize, all: usize) -> usize {
        all - 1 - turn
    }

    // Its inverse is entry 2048 - 1024 / 2^level.
    fn powers(level: usize) -> RowPowers<'static> {
        let rows = code::number::two_to(level);
        RowPowers {
            table: code::table_65537::powers(),
            rows,
            step: 2048 - 1024 / rows,
        }
    }

    #[inline(always)]
    fn cross<F: Factor>(g: F, a: u32, b: u32) -> (u32, u32) {
        (field::add(a, b), g.product(field::sub(a, b)))
    }
}

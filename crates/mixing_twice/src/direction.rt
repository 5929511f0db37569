// Two levels of crossing at once, of four words, one of each of four rows: mixing and unmixing, under three factors.
ghost use Rattle.std.specs.Prelude.{◌≡◌, ◌≤◌, ◌<◌, ◌%◌};
ghost use Rattle.field.specs.Residue.{times};
ghost use Rattle.field.specs.Field.{fermat};
ghost use Rattle.mixing_twice.specs.steps.Quads.{four_of};

use mixing::direction::{Direction, Factor, Mixing, One, Power, Unmixing};

// A factor whose product with a word can be left unreduced, for a product that is only summed.
pub trait UnreducedFactor: Factor {
    // The product, but for a multiple of p.
    fn unreduced_product(self, y: u32) -> u32
        requires { y < fermat.modulus }
        ensures { (result ≤ 131072) × (result % fermat.modulus ≡ times fermat.modulus (Self.value self) y) };
}

impl UnreducedFactor for One {
    #[inline(always)]
    fn unreduced_product(self, y: u32) -> u32 {
        y
    }
}

impl UnreducedFactor for Power {
    #[inline(always)]
    fn unreduced_product(self, y: u32) -> u32 {
        crate::four_65537::unreduced_mul(self.g, y)
    }
}

// The factors of four words: t1, t2 and their product.
#[derive(Drop)]
pub struct ThreeFactors<F: UnreducedFactor> {
    pub t1: F,
    pub t2: F,
    pub t3: F,
    pub ghost product: { F.value t3 ≡ times fermat.modulus (F.value t1) (F.value t2) },
}

// A direction in which two levels are crossed at once.
pub trait TwoLevels: Direction {
    // What two levels make of four words, one of each of four rows.
    fn cross_four<F: UnreducedFactor>(
        t: &ThreeFactors<F>,
        a: u32,
        b: u32,
        c: u32,
        d: u32,
    ) -> (u32, u32, u32, u32)
        requires { (a < fermat.modulus) × (b < fermat.modulus) × (c < fermat.modulus) × (d < fermat.modulus) }
        ensures out0 { result.0 ≡ (four_of Self.unmixing).out0 (F.value t.now.t1) (F.value t.now.t2) a b c d }
        ensures out1 { result.1 ≡ (four_of Self.unmixing).out1 (F.value t.now.t1) (F.value t.now.t2) a b c d }
        ensures out2 { result.2 ≡ (four_of Self.unmixing).out2 (F.value t.now.t1) (F.value t.now.t2) a b c d }
        ensures out3 { result.3 ≡ (four_of Self.unmixing).out3 (F.value t.now.t1) (F.value t.now.t2) a b c d };
}

// Words 0 and 1, 2 and 3 under t1; then 0 and 2 under t2, 1 and 3 under t2 times a square root of -1.
impl TwoLevels for Mixing {
    #[inline(always)]
    fn cross_four<F: UnreducedFactor>(
        t: &ThreeFactors<F>,
        a: u32,
        b: u32,
        c: u32,
        d: u32,
    ) -> (u32, u32, u32, u32) {
        let y = t.t1.unreduced_product(b);
        let z = t.t2.unreduced_product(c);
        let w = t.t3.unreduced_product(d);
        let turned = crate::four_65537::shifted(z, w);
        (
            crate::four_65537::sum(a, y, z, w),
            crate::four_65537::turned_difference(a, y, turned),
            crate::four_65537::difference(a, y, z, w),
            crate::four_65537::turned_sum(a, y, turned),
        )
    }
}

// Words 0 and 2 under t2, 1 and 3 under t2 times a square root of -1; then 0 and 1, 2 and 3 under t1.
impl TwoLevels for Unmixing {
    #[inline(always)]
    fn cross_four<F: UnreducedFactor>(
        t: &ThreeFactors<F>,
        a: u32,
        b: u32,
        c: u32,
        d: u32,
    ) -> (u32, u32, u32, u32) {
        let turned = crate::four_65537::shifted(b, d);
        (
            crate::four_65537::sum(a, c, b, d),
            t.t1.product(crate::four_65537::difference(a, c, b, d)),
            t.t2.product(crate::four_65537::turned_sum(a, c, turned)),
            t.t3.product(crate::four_65537::turned_difference(a, c, turned)),
        )
    }
}

// Pairs of words: those of a stripe's counts, and those of a record's origin.
ghost use Rattle.std.specs.Prelude.{◌≡◌, [], ◌∷◌, ◌++◌, suc, ◌*◌, ◌≤◌, length, drop};
ghost use Rattle.layout.specs.Records.{replaced};
ghost use Rattle.range_laying.specs.Laid.{pairs_to};

// Stores the pair i, by its number, as the definition names it.
pub fn put_pair(out: &mut [u32], i: usize, one: u32, other: u32)
    requires { suc i * 2 ≤ length out.old }
    ensures { out.new ≡ replaced 2 out.old i (one ∷ other ∷ []) }
{
    let at = i * 2;
    out[at] = one;
    out[at + 1] = other;
}

// Stores n times the same pair.
pub fn fill_pairs(out: &mut [u32], n: usize, one: u32, other: u32)
    requires { n * 2 ≤ length out.old }
    ensures { out.new ≡ pairs_to (λ i. one) (λ i. other) n ++ drop (n * 2) out.old }
{
    // By index: of what is written to pieces of two words a proof knows the length alone.
    for i in 0..n {
        put_pair(out, i, one, other);
    }
}

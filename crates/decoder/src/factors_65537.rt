// How a word of the field 65537 stands for a factor of the decoder: as its logarithm to the base 3, so that it and its inverse are powers of 3.
ghost use Rattle.std.specs.Prelude.{◌≡◌, ◌-◌, ◌<◌};
ghost use Rattle.field.specs.Residue.{times};
ghost use Rattle.field.specs.Power.{inverse};
ghost use Rattle.code.specs.Stripe.{modulus_of, block_count};
ghost use Rattle.decoder.specs.steps.Decoder.{factor_from};

use code::{Stripe, ValidStripe};

// The factor that a word stands for.
pub(crate) fn factor(word: u32, st: Stripe) -> u32
    requires { word < modulus_of st - 1 }
    ensures { result ≡ factor_from st word }
{
    logarithms::powers_65537::power_of_three(word)
}

// Its inverse: the power of the negated logarithm, since exponents of 3 count modulo 65536.
pub(crate) fn reciprocal(word: u32, st: Stripe) -> u32
    requires { word < modulus_of st - 1 }
    ensures { result ≡ inverse (modulus_of st) (factor_from st word) }
{
    logarithms::powers_65537::power_of_three((65536 - word) % 65536)
}

// The inverse of the square of 2^level: 2^16 is -1, so that it is a power of 2 again, or the negative of one.
pub(crate) fn inverse_of_square(st: ValidStripe) -> u32
    ensures { result ≡ inverse (modulus_of st.stripe) (times (modulus_of st.stripe) (block_count st.stripe) (block_count st.stripe)) }
{
    let e = 2 * st.stripe.level;
    if e < 16 {
        field::MODULUS - (1u32 << (16 - e))
    } else {
        1u32 << (32 - e)
    }
}

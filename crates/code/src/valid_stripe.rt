// Stripes whose numbers a vault can have. What asks for such a stripe takes it by this type.
ghost use Rattle.std.specs.Prelude.{◌≡◌, ◌<◌};
ghost use Rattle.code.specs.Stripe.{Numbers, block_count, position_count, block_words};

use crate::Stripe;

// A stripe with k up to 10, a level up to k, and a first write that such a stripe can have. Its rows may have any width.
#[derive(Clone, Copy)]
pub struct ValidStripe {
    pub stripe: Stripe,
    ghost numbers: { Numbers stripe },
}

impl ValidStripe {
    // The number of blocks.
    pub fn block_count(self) -> usize
        ensures { result ≡ block_count self.stripe }
    {
        crate::number::two_to(self.stripe.level)
    }

    // The number of positions.
    pub fn position_count(self) -> usize
        ensures { result ≡ position_count self.stripe }
    {
        crate::number::two_to(self.stripe.level + 1)
    }

    // How many words half of the stripe has. That the number fits is a clause: rows may have any width, and who is lent the words knows it.
    pub fn half_size(self) -> usize
        requires { block_words self.stripe < 18446744073709551616 }
        ensures { result ≡ block_words self.stripe }
    {
        self.block_count() * self.stripe.width
    }
}

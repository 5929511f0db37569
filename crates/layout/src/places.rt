// Where stripes stand, their numbers, which there are, and the first empty level. That a level is at most k stays a clause: a type for it would be made
// of the header that each of these methods has, and of the level, for the one call. The full stripe is the one with the number k, here and in what stands
// above: so the calls name it.
ghost use Rattle.std.specs.Prelude.{◌≡◌, ◌^◌, ◌≤◌, ◌<◌, suc, ℕ};
ghost use Rattle.layout.specs.Header.{first_of, stripe_at, stripe_of, is_filled, has_stripe, first_empty};

use crate::{Header, ValidHeader};
use code::Stripe;

impl ValidHeader {
    // The write number of a stripe's first block.
    fn first_of(self, level: usize) -> usize
        requires { level ≤ self.header.k }
        ensures { result ≡ first_of self.header level }
    {
        if level == self.header.k as usize {
            return 0;
        }
        let size = code::number::two_to(level + 1);
        self.header.c as usize / size * size
    }

    // Where a stripe begins in the image, in words.
    pub fn stripe_at(self, level: usize) -> usize
        requires { level ≤ self.header.k }
        ensures { result ≡ stripe_at self.header level }
    {
        if level == self.header.k as usize {
            return 0;
        }
        let rows = code::number::two_to(level + 1) - 2;
        self.full_size() + rows * self.width()
    }

    // The numbers of a stripe.
    pub fn stripe_of(self, level: usize) -> Stripe
        requires { level ≤ self.header.k }
        ensures { result ≡ stripe_of self.header level }
    {
        Stripe {
            level,
            k: self.header.k as usize,
            first: self.first_of(level),
            width: self.width(),
        }
    }

    // Test 6: whether there is such a stripe.
    pub fn has_stripe(self, stripe: u32) -> bool
        ensures { result ≡ has_stripe self.header stripe }
    {
        has_stripe(self.header, stripe)
    }
}

// The same for a header of any numbers with k up to 10, which the type would not take.
pub fn has_stripe(header: Header, stripe: u32) -> bool
    requires { header.k ≤ 10 }
    ensures { result ≡ has_stripe header stripe }
{
    stripe == header.k || (stripe < header.k && is_filled(header, stripe as usize))
}

// Whether a level is filled. The header may have any numbers, and the level's bound is the shift's alone.
pub fn is_filled(header: Header, level: usize) -> bool
    requires { level ≤ 10 }
    ensures { result ≡ is_filled header level }
{
    header.c as usize / code::number::two_to(level) % 2 == 1
}

// The first empty level, counted from 0: the lowest bit of c that is 0. It is a rule of the project that a loop yields it by a break (docs/DECISIONS.md, the
// forms of the language).
pub fn first_empty(c: u32) -> usize
    ensures { (k : ℕ) → suc c < 2 ^ k → (result ≡ first_empty k 0 c) × (result < k) }
{
    let mut level: usize = 0;
    let mut rest = c;
    loop {
        if rest % 2 == 0 {
            break level;
        }
        rest = rest / 2;
        level += 1;
    }
}

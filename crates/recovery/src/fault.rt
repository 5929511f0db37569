// Why recovery, and explaining, refuse what they are given.
ghost use Rattle.std.specs.Prelude.{◌≡◌, None};

use layout::Refusal;
use std::error::Error;
use std::fmt;

// A refusal, and the stripe at fault where one is named: a level, or k for the full stripe.
#[derive(Clone, Copy, Debug, PartialEq, Eq)]
pub struct Fault {
    pub refusal: Refusal,
    pub stripe: Option<u32>,
}

impl From<Refusal> for Fault {
    ghost from_gives = { λ r f. f ≡ record { refusal = r; stripe = None } };

    fn from(refusal: Refusal) -> Fault {
        Fault {
            refusal,
            stripe: None,
        }
    }
}

impl fmt::Display for Fault {
    fn fmt<W: fmt::Write>(&self, f: &mut fmt::Formatter<W>) -> fmt::Result {
        match self.stripe {
            Some(stripe) => write!(f, "{} in stripe {}", self.refusal, stripe),
            None => write!(f, "{}", self.refusal),
        }
    }
}

impl Error for Fault {}

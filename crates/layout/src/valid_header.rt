// Headers whose numbers are in their ranges. What asks for such a header takes it by this type, so that test 1 is made once.
ghost use Rattle.std.specs.Prelude.{◌≡◌, true};
ghost use Rattle.layout.specs.Header.{header_fits};

use crate::{Header, Refusal};

// A header that fits: k is 1 to 10, s is 1 to 128, c is below 2^k.
#[derive(Clone, Copy)]
pub struct ValidHeader {
    pub header: Header,
    ghost fits: { header_fits header ≡ true },
}

impl TryFrom<Header> for ValidHeader {
    ghost use Rattle.layout.specs.ValidHeaders.{Checks};

    type Error = Refusal;

    ghost try_from_gives = { Checks };

    fn try_from(header: Header) -> Result<Self, Refusal> {
        if crate::sizes::header_fits(header) {
            Ok(ValidHeader { header })
        } else {
            Err(Refusal::HeaderRange)
        }
    }
}

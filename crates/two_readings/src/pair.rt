// Two readings that agree, with the one that each stripe is taken from.
ghost use Rattle.std.specs.Prelude.{◌≡◌, true, false, get_or, ℕ};
ghost use Rattle.layout.specs.Header.{has_stripe};
ghost use Rattle.two_readings.specs.Choosing.{second_has_more, chosen};

use image::Reading;
use layout::{Refusal, ValidHeader};
use range_laying::Content;
use recovery::readings::Readings;

// Two readings under one header, and for each stripe whether it is taken from the second. A vault has at most 11 stripes.
#[derive(Clone, Copy)]
pub struct TwoReadings<'a> {
    pub first: Reading<'a>,
    pub second: Reading<'a>,
    pub takes_second: [bool; 11],
    ghost one_header: { second.header.header ≡ first.header.header },
    ghost choice: { (l : ℕ) → has_stripe first.header.header l ≡ true →
        get_or takes_second l false ≡ second_has_more first.header.header first.erasures.now second.erasures.now l },
}

impl Readings for TwoReadings<'_> {
    ghost its_header = { λ r. r.first.header.header };

    ghost image = { λ r l. chosen r.first.header.header r.first.erasures.now r.second.erasures.now l r.first.image.now r.second.image.now };

    ghost erasures = { λ r l. chosen r.first.header.header r.first.erasures.now r.second.erasures.now l r.first.erasures.now r.second.erasures.now };

    fn header(self) -> ValidHeader {
        self.first.header
    }

    fn lay_stripe(
        self,
        content: Content,
        level: u32,
        out: &mut [u32],
        scratch: &mut [u32],
    ) -> Result<(), Refusal> {
        let reading = if self.takes_second[level as usize] {
            self.second
        } else {
            self.first
        };
        stripe_decoding::fetching::lay_stripe(reading, content, level as usize, out, scratch)
    }
}

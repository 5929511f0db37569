// Which reading of a rack each stripe is laid from. What lays all stripes sees of each the image and the erasure list that it is decoded by, by one contract; a
// single reading is an instance, and who has more readings than one gives another.
ghost use Rattle.std.specs.Prelude.{◌≡◌, true, ℕ, List};
ghost use Rattle.layout.specs.declared.Header.{Header};
ghost use Rattle.layout.specs.Header.{has_stripe, stripe_of};
ghost use Rattle.layout.specs.Refusals.{answer_number};
ghost use Rattle.judging.specs.Decoding.{decoded_number};
ghost use Rattle.range_laying.specs.steps.Blocks.{lay_blocks, laid_from};
ghost use Rattle.stripe_decoding.specs.steps.Laying.{LayingFits};
ghost use Rattle.recovery.specs.steps.Laying.{decoding};

use image::Reading;
use layout::{Refusal, ValidHeader};
use range_laying::Content;

// Readings under one header, and for each stripe the image and the erasure list of the one that it is taken from.
pub trait Readings: Copy {
    ghost its_header: { Self → Header };

    ghost image: { Self → (stripe : ℕ) → List ℕ };

    ghost erasures: { Self → (stripe : ℕ) → List ℕ };

    fn header(self) -> ValidHeader
        ensures { result.header ≡ its_header self };

    // Decodes a stripe and lays its blocks. What is left of the scratch is open, and of the output where the stripe is refused.
    fn lay_stripe(
        self,
        content: Content,
        level: u32,
        out: &mut [u32],
        scratch: &mut [u32],
    ) -> Result<(), Refusal>
        requires laying_fits { LayingFits (its_header self) content out.old scratch.old }
        requires there { has_stripe (its_header self) level ≡ true }
        ensures value { answer_number result ≡ decoded_number (decoding (its_header self) (image self) (erasures self) level) }
        ensures out_after { answer_number result ≡ 0 →
            out.new ≡ laid_from (lay_blocks content (stripe_of (its_header self) level))
            (decoding (its_header self) (image self) (erasures self) level) out.old };
}

// One reading, of all stripes.
impl Readings for Reading<'_> {
    ghost its_header = { λ r. r.header.header };

    ghost image = { λ r stripe. r.image.now };

    ghost erasures = { λ r stripe. r.erasures.now };

    fn header(self) -> ValidHeader {
        self.header
    }

    fn lay_stripe(
        self,
        content: Content,
        level: u32,
        out: &mut [u32],
        scratch: &mut [u32],
    ) -> Result<(), Refusal> {
        stripe_decoding::fetching::lay_stripe(self, content, level as usize, out, scratch)
    }
}

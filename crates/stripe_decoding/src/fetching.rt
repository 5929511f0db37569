// The one place that fetches a stripe out of an image: its marks, which decide 7, its numbers and its bytes.
ghost use Rattle.std.specs.Prelude.{◌≡◌, ◌≤◌, ◌<◌};
ghost use Rattle.layout.specs.Header.{stripe_of};
ghost use Rattle.layout.specs.Refusals.{answer_number};
ghost use Rattle.image.specs.Erasures.{erasures_in};
ghost use Rattle.judging.specs.Decoding.{decoded_number};
ghost use Rattle.range_laying.specs.steps.Blocks.{lay_blocks, laid_from};
ghost use Rattle.stripe_decoding.specs.Decoding.{decode_stripe};
ghost use Rattle.stripe_decoding.specs.steps.Laying.{LayingFits};

use image::Reading;
use judging::{ReadyStripe, VaultStripe};
use layout::Refusal;
use range_laying::Content;

// That output and scratch have their sizes stays a clause, here and where stripes are laid: a type for it would hold two `&mut` slices, and a
// contract would have to say of each whether it means the words lent or those left.

// Decodes a stripe of an image and lays its blocks: 7, 8, 9 or 10 where it is refused. A level that is refused leaves the output as it was. What is left of the
// scratch is open, and of the output where the full stripe is refused.
pub fn lay_stripe(
    reading: Reading,
    content: Content,
    level: usize,
    out: &mut [u32],
    scratch: &mut [u32],
) -> Result<(), Refusal>
    requires laying_fits { LayingFits reading.header.header content out.old scratch.old }
    requires within { level ≤ reading.header.header.k }
    ensures value { answer_number result ≡
        decoded_number (decode_stripe reading.entry.header.header reading.entry.image.now (erasures_in reading.entry.erasures.now) level) }
    ensures out_after { answer_number result ≡ 0 →
        out.new ≡ laid_from (lay_blocks content (stripe_of reading.entry.header.header level))
        (decode_stripe reading.entry.header.header reading.entry.image.now (erasures_in reading.entry.erasures.now) level) out.old }
    ensures level_after { level < reading.entry.header.header.k →
        out.new ≡ laid_from (lay_blocks content (stripe_of reading.entry.header.header level))
        (decode_stripe reading.entry.header.header reading.entry.image.now (erasures_in reading.entry.erasures.now) level) out.old }
{
    // as many as the largest stripe has positions: the library has no heap
    let mut marks = [false; 2048];
    reading.mark(level, &mut marks);
    let vault = VaultStripe::new(reading.header, level);
    let Some(ready) = ReadyStripe::new(vault, &marks) else {
        return Err(Refusal::TooFew);
    };
    let bytes = reading.stripe_bytes(level);
    crate::ranges::decode_and_lay(content, ready, bytes, out, scratch)
}

// Stripe decoding: the call decode (docs/FORMAT.md, sections 7 and 9).
ghost use Rattle.std.specs.Prelude.{◌≡◌, ◌≤◌, length, replicate};
ghost use Rattle.layout.specs.Header.{out_size, scratch_size};
ghost use Rattle.layout.specs.Refusals.{answer_number};
ghost use Rattle.image.specs.Erasures.{erasures_in};
ghost use Rattle.image.specs.Readings.{Reads};
ghost use Rattle.judging.specs.Decoding.{decoded_number, decoded_words};
ghost use Rattle.stripe_decoding.specs.Decoding.{decode_stripe};
ghost use Rattle.stripe_decoding.specs.StripeCall.{decode_early, decode_number, decode_leaves, decode_scratch};

use image::Reading;
use layout::{Header, Refusal};
use range_laying::Content;

// The tests before a stripe is decoded: 1, 2, 3, 6.
fn check<'a>(
    header: Header,
    image: &'a [u8],
    erasures: &'a [u8],
    stripe: u32,
    out: &[u32],
    scratch: &[u32],
) -> Result<Reading<'a>, Refusal>
    ensures number { answer_number result ≡ decode_early header image.now erasures.now stripe out.now scratch.now }
    ensures same { Reads header image.now erasures.now result }
{
    let row = header.s as usize + 1;
    let reading = image::erasures::check(header, image, erasures, row, out.len(), scratch.len())?;
    if !reading.header.has_stripe(stripe) {
        return Err(Refusal::NoStripe);
    }
    Ok(reading)
}

// Decodes a stripe, and leaves its blocks and zeros after them; 7, 8, 9 or 10 and zeros where it is refused. The scratch is zeros.
fn decode_stripe(
    reading: Reading,
    level: usize,
    out: &mut [u32],
    scratch: &mut [u32],
) -> Result<(), Refusal>
    requires within { level ≤ reading.header.header.k }
    requires out_len { (length out.old ≡ out_size reading.header.header) × (length scratch.old ≡ scratch_size reading.header.header) }
    ensures value { answer_number result ≡
        decoded_number (decode_stripe reading.entry.header.header reading.entry.image.now (erasures_in reading.entry.erasures.now) level) }
    ensures out_after { out.new ≡
        decoded_words (decode_stripe reading.entry.header.header reading.entry.image.now (erasures_in reading.entry.erasures.now) level)
        (out_size reading.entry.header.header) }
    ensures scratch_after { scratch.new ≡ replicate (scratch_size reading.entry.header.header) 0 }
{
    let answer = crate::fetching::lay_stripe(reading, Content::Blocks, level, out, scratch);
    scratch.fill(0);
    let size = if answer.is_ok() {
        code::number::two_to(level) * reading.header.width()
    } else {
        0
    };
    out[size..].fill(0);
    answer
}

// Decodes one stripe of an image: a level, or k for the full stripe. Tests 1, 2 (image, out, scratch), 3, 6, 7, 8, 9, 10; 1 to 6 change no buffer, after 7 to
// 10 output and scratch are zeros. Taken, the output holds the blocks in order of time and zeros after them, and the scratch is zeros.
pub fn decode(
    header: Header,
    image: &[u8],
    erasures: &[u8],
    stripe: u32,
    out: &mut [u32],
    scratch: &mut [u32],
) -> Result<(), Refusal>
    ensures value { answer_number result ≡ decode_number header image.now erasures.now stripe out.old scratch.old }
    ensures out_after { out.new ≡ decode_leaves header image.now erasures.now stripe out.old scratch.old }
    ensures scratch_after { scratch.new ≡
        decode_scratch header image.now erasures.now stripe out.old scratch.old }
{
    let reading = check(header, image, erasures, stripe, out, scratch)?;
    decode_stripe(reading, stripe as usize, out, scratch)
}

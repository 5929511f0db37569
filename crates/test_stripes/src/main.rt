// Codes and decodes the stripes that standard input holds, and prints what is left in place of each. The cases and the expected output are made by
// `stripe_cases` of reference/, which describes both formats.
#![tactic(auto)]

ghost use Rattle.std.specs.Prelude.{◌≡◌, ◌<◌, ◌≤◌, length, IfSome};
ghost use Rattle.field.specs.Words.{Words};
ghost use Rattle.code.specs.Stripe.{modulus_of, position_count, stripe_words};

use code::{Stripe, ValidStripe};
use layout::Refusal;
use layout::refusal::number_of;
use std::io::{Print, Read};
use test_case_buffers::input::bytes;
use test_case_buffers::output;

mod input;

// Decodes a stripe in place, where at least half of its positions survive. Test 7 stands here, since that of judging is for a stripe of a vault.
fn decode(part: &mut [u32], marks: &[bool], st: ValidStripe) -> Result<(), Refusal>
    requires width_nonzero { 0 < st.stripe.width }
    requires marks_len { length marks.now ≡ position_count st.stripe }
    requires part_len { length part.old ≡ stripe_words st.stripe }
    requires words { Words (modulus_of st.stripe) part.old }
{
    let erased = decoder::decoding::count_erased(marks, st.stripe.level);
    if marks.len() < erased + erased {
        return Err(Refusal::TooFew);
    }
    let mut factors = [0; 2048];
    let mut scratch = [0; 6144];
    weights::store_logs(&mut factors, &mut scratch, marks, st.stripe.level);
    if !decoder::decoding::decode(part, marks, &factors, st) {
        return Err(Refusal::Inconsistent);
    }
    Ok(())
}

// The numbers of a stripe, where there is one that has them and its positions have at most 8,192 words, with two more each: cases of more are skipped.
fn stripe(level: u8, k: u8, width: u8, first: u16) -> Option<ValidStripe>
    ensures { IfSome result (λ st. (0 < st.stripe.width) × (stripe_words st.stripe ≤ 8192)) }
{
    let (level, k) = (usize::from(level), usize::from(k));
    let (width, first) = (usize::from(width), usize::from(first));
    if k < level || 10 < k || width == 0 {
        return None;
    }
    let size = code::number::two_to(level);
    if first % size != 0
        || code::number::two_to(k) < first + size
        || 8192 < 2 * size * (width + 2)
    {
        return None;
    }
    let stripe = Stripe {
        level,
        k,
        first,
        width,
    };
    Some(ValidStripe { stripe })
}

// Reads the words of a stripe, codes the blocks in its first half, and prints all of it.
fn code_case(input: &mut impl Read, out: &impl Print, part: &mut [u32], st: ValidStripe)
    requires { length part.old ≡ stripe_words st.stripe }
{
    input::words(input, part);
    encoder::code(part, st);
    if let [word, words @ ..] = &part[..] {
        output::all(out, *word, words);
    }
}

// Reads the marks and the words of a stripe, decodes it, and prints the number of its answer and what is left; that alone where too few positions survive.
fn decode_case(input: &mut impl Read, out: &impl Print, part: &mut [u32], st: ValidStripe)
    requires width_nonzero { 0 < st.stripe.width }
    requires part_len { length part.old ≡ stripe_words st.stripe }
{
    let positions = st.position_count();
    let mut all = [false; 2048];
    let marks = &mut all[..positions];
    input::marks(input, marks);
    input::words(input, part);
    let answer = decode(part, marks, st);
    let left = if answer == Err(Refusal::TooFew) {
        &[]
    } else {
        &part[..]
    };
    output::all(out, number_of(answer), left);
}

// One case; nothing where there is no stripe of its numbers.
fn run_case(input: &mut impl Read, out: &impl Print) {
    let [kind, level, k, width, low, high] = bytes::<6>(input);
    let first = u16::from_le_bytes([low, high]);
    let Some(st) = stripe(level, k, width, first) else {
        return;
    };
    let size = st.position_count() * st.stripe.width;
    let mut all = [0; 8192];
    let part = &mut all[..size];
    // the cases' format: kind 1 is decoded, any other is coded
    if kind == 1 {
        decode_case(input, out, part, st);
    } else {
        code_case(input, out, part, st);
    }
}

// All cases: their count, and then each.
fn main(rt: HostRuntime) {
    let mut input = rt.reader();
    for _ in 0..u16::from_le_bytes(bytes(&mut input)) {
        run_case(&mut input, &rt);
    }
}

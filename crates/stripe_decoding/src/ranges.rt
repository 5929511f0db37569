// A stripe decoded by ranges of its columns: the one place that puts the numbers 8, 9 and 10 in order.
ghost use Rattle.std.specs.Prelude.{◌≡◌, ◌*◌, ◌^◌, ◌≤◌, ◌<◌, length, replicate};
ghost use Rattle.code.specs.Stripe.{position_count, stripe_words};
ghost use Rattle.decoder.specs.steps.Decoder.{Factors};
ghost use Rattle.layout.specs.Refusals.{answer_number};
ghost use Rattle.judging.specs.Decoding.{decode_rows, decoded_number};
ghost use Rattle.range_laying.specs.steps.Blocks.{row_words, lay_blocks, laid_from};

use image::source::Source;
use judging::ReadyStripe;
use judging::records::Fit;
use layout::Refusal;
use range_laying::Content;

// Stores the factors of a stripe's positions, for which it needs room in the scratch; where nothing is erased, the zeros that stand there are these. What is
// left in the scratch is open.
fn store_factors(factors: &mut [u32], ready: ReadyStripe, scratch: &mut [u32])
    requires factors_are { factors.old ≡ replicate 2048 0 }
    requires room { 3 * position_count ready.vault.valid.stripe ≤ length scratch.old }
    ensures { Factors ready.entry.vault.valid.stripe ready.entry.marks.now factors.new }
{
    let level = ready.vault.valid.stripe.level;
    if 0 < decoder::decoding::count_erased(ready.marks, level) {
        weights::store_logs(factors, scratch, ready.marks, level);
    }
}

// Decodes a stripe and lays its blocks: 8, 9 or 10 where it is refused. The first range tells whether it is 8; only the last one tells that none is 9, so that
// 10 waits for it. A level that is refused leaves the output as it was, since it is one range; what is left of the scratch is open, and of the output where the
// full stripe is refused.
pub fn decode_and_lay<S: Source>(
    content: Content,
    ready: ReadyStripe,
    source: S,
    out: &mut [u32],
    scratch: &mut [u32],
) -> Result<(), Refusal>
    requires source_len { S.count source ≡ stripe_words ready.vault.valid.stripe }
    requires out_len { length out.old ≡ 2 ^ ready.vault.valid.stripe.k * row_words content ready.vault.valid.stripe }
    requires room { 3 * position_count ready.vault.valid.stripe ≤ length scratch.old }
    requires level_room { ready.vault.valid.stripe.level < ready.vault.valid.stripe.k → stripe_words ready.vault.valid.stripe ≤ length scratch.old }
    ensures value { answer_number result ≡ decoded_number (decode_rows ready.entry.vault.valid.stripe ready.entry.marks.now (S.words source)) }
    ensures out_after { answer_number result ≡ 0 →
        out.new ≡ laid_from (lay_blocks content ready.entry.vault.valid.stripe)
        (decode_rows ready.entry.vault.valid.stripe ready.entry.marks.now (S.words source)) out.old }
    ensures level_after { ready.entry.vault.valid.stripe.level < ready.entry.vault.valid.stripe.k →
        out.new ≡ laid_from (lay_blocks content ready.entry.vault.valid.stripe)
        (decode_rows ready.entry.vault.valid.stripe ready.entry.marks.now (S.words source)) out.old }
{
    let vault = ready.vault;
    let st = vault.valid.stripe;
    let positions = vault.valid.position_count();
    let blocks = vault.valid.block_count();
    // as many as the largest stripe has positions, and below its blocks: the library has no heap
    let mut factors = [0u32; 2048];
    store_factors(&mut factors, ready, scratch);
    let mut fits = [Fit {
        plain: true,
        struck: true,
    }; 1024];
    let mut fit = true;
    let mut from = 0;
    // No `for`: the room for each range says how many columns it has, and an iterator of ranges would keep this same `from`.
    while from < st.width {
        let range = range_decoding::ranges::range_at(vault, from, scratch.len());
        let size = positions * range.cols;
        let part = &mut scratch[..size];
        range_decoding::ranges::decode_range(ready, source, &factors, range, part)?;
        let words = &scratch[..blocks * range.cols];
        fit = judging::records::judge(words, vault, range, &mut fits);
        if fit {
            range_laying::blocks::lay_range(content, vault, range, words, out);
        }
        from += range.cols;
    }
    if fit {
        Ok(())
    } else {
        Err(Refusal::NotRecords)
    }
}

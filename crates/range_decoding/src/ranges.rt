// Which columns of a stripe are decoded at once, and their decoding.
ghost use Rattle.std.specs.Prelude.{◌≡◌, true, ◌++◌, ◌+◌, ◌*◌, ◌≤◌, ◌<◌, length, replicate};
ghost use Rattle.code.specs.Stripe.{modulus_of, block_count, position_count, stripe_words};
ghost use Rattle.decoder.specs.Decoding.{blocks_in};
ghost use Rattle.decoder.specs.steps.Decoder.{Factors};
ghost use Rattle.image.specs.Loading.{are_below, rows_in};
ghost use Rattle.image.specs.steps.Loading.{columns_of};
ghost use Rattle.layout.specs.Refusals.{answer_number};
ghost use Rattle.range_decoding.specs.steps.Ranges.{RangeFits, is_consistent_range, range_number};

use code::{Range, Stripe, ValidStripe};
use image::source::Source;
use judging::{ReadyStripe, VaultStripe};
use layout::Refusal;

// So many columns of n that the loops over words, which take four at a time, leave none over: which number is open, but that it is 0 only where n is.
fn in_fours(n: usize) -> usize
    ensures some { 0 < n → 0 < result }
    ensures few { result ≤ n }
{
    if n < 4 { n } else { n - n % 4 }
}

// The range of columns from `from` on that is decoded at once: all that are left, or as many as the room is for, in fours.
pub fn range_at(vault: VaultStripe, from: usize, room: usize) -> Range
    requires left { from < vault.valid.stripe.width }
    requires room { position_count vault.valid.stripe ≤ room }
    ensures { RangeFits vault.valid.stripe from room result }
{
    let st = vault.valid.stripe;
    let left = st.width - from;
    let most = room / vault.valid.position_count();
    Range {
        from,
        cols: if most < left { in_fours(most) } else { left },
    }
}

// Decodes a range of columns in a part that has room for exactly these: 8 if a surviving word of any column is not of the field, 9 if no blocks have the
// surviving words of the range. Taken, the part holds the blocks' columns and zeros after them, after 9 zeros; after 8 it is open.
pub fn decode_range<S: Source>(
    ready: ReadyStripe,
    source: S,
    factors: &[u32],
    range: Range,
    part: &mut [u32],
) -> Result<(), Refusal>
    requires source_len { S.count source ≡ stripe_words ready.vault.valid.stripe }
    requires factors_are { Factors ready.vault.valid.stripe ready.marks.now factors.now }
    requires inside { range.from + range.cols ≤ ready.vault.valid.stripe.width }
    requires all_in_field { 0 < range.from →
        are_below (modulus_of ready.vault.valid.stripe) (rows_in ready.vault.valid.stripe ready.marks.now (S.words source)) ≡ true }
    requires part_len { length part.old ≡ position_count ready.vault.valid.stripe * range.cols }
    ensures value { answer_number result ≡
        range_number (are_below (modulus_of ready.entry.vault.valid.stripe) (rows_in ready.entry.vault.valid.stripe ready.entry.marks.now (S.words source)))
        (is_consistent_range ready.entry.vault.valid.stripe ready.entry.marks.now
        (rows_in ready.entry.vault.valid.stripe ready.entry.marks.now (S.words source)) range) }
    ensures part_after { answer_number result ≡ 0 →
        part.new ≡
        columns_of ready.entry.vault.valid.stripe.width range.from range.cols (block_count ready.entry.vault.valid.stripe)
        (blocks_in ready.entry.vault.valid.stripe ready.entry.marks.now (rows_in ready.entry.vault.valid.stripe ready.entry.marks.now (S.words source))) ++
        replicate (block_count ready.entry.vault.valid.stripe * range.cols) 0 }
    ensures part_after_9 { answer_number result ≡ 9 → part.new ≡ replicate (position_count ready.entry.vault.valid.stripe * range.cols) 0 }
{
    let st = ready.vault.valid.stripe;
    let marks = ready.marks;
    if !image::loading::load(part, source, marks, st, range) {
        return Err(Refusal::OutOfField);
    }
    let of_range = ValidStripe {
        stripe: Stripe {
            width: range.cols,
            ..st
        },
    };
    if !decoder::decoding::decode(part, marks, factors, of_range) {
        return Err(Refusal::Inconsistent);
    }
    Ok(())
}

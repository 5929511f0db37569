// The write that is taken back, and its record's write before: stripes of the buffers are decoded, one after the other, until it is found.
ghost use Rattle.std.specs.Prelude.{◌≡◌, ◌<◌, ◌≤◌, ◌*◌, ◌-◌, suc, length, IfOk};
ghost use Rattle.judging.specs.Decoding.{decoded_number};
ghost use Rattle.layout.specs.Header.{record_count, width, full_size, log_size, out_size, scratch_size, stripe_of};
ghost use Rattle.layout.specs.Refusals.{answer_number};
ghost use Rattle.range_laying.specs.declared.Content.TheVariants.{Blocks};
ghost use Rattle.range_laying.specs.steps.Blocks.{lay_blocks, laid_from};
ghost use Rattle.splitting.specs.Splitting.{lowest_of};
ghost use Rattle.taking_back.specs.TakingBack.{stripe_held, decode_held, last_of, find_from};
ghost use Rattle.taking_back.specs.steps.Finding.{before_in, FindsBack};

use judging::{ReadyStripe, VaultStripe};
use layout::{Refusal, ValidHeader};
use range_laying::Content;

// What taking back reads: a header, and a full stripe and a log of their sizes.
#[derive(Clone, Copy)]
pub(crate) struct Held<'a> {
    pub(crate) header: ValidHeader,
    pub(crate) full: &'a [u32],
    pub(crate) log: &'a [u32],
    ghost sized: { (length full.now ≡ full_size header.header) × (length log.now ≡ log_size header.header) },
}

impl<'a> Held<'a> {
    // The words of a stripe: the full one, or a part of the log.
    fn stripe(self, level: usize) -> &'a [u32]
        requires { level ≤ self.header.header.k }
        ensures { result.now ≡ stripe_held self.entry.header.header self.entry.full.now self.entry.log.now level }
    {
        if level == self.header.header.k as usize {
            return self.full;
        }
        let width = self.header.width();
        let start = store::writing::half_at(level, 0, width);
        let end = store::writing::half_at(level + 1, 0, width);
        &self.log[start..end]
    }

    // Decodes a stripe, none of whose positions is erased: its blocks at the start of the output, or 8, 9 or 10. What is left in the scratch is open, and in
    // the output where it is refused.
    fn decode(self, level: usize, out: &mut [u32], scratch: &mut [u32]) -> Result<(), Refusal>
        requires within { level ≤ self.header.header.k }
        requires lengths { (length out.old ≡ out_size self.header.header) × (length scratch.old ≡ scratch_size self.header.header) }
        ensures value { answer_number result ≡
            decoded_number (decode_held self.entry.header.header self.entry.full.now self.entry.log.now level) }
        ensures out_after { answer_number result ≡ 0 →
            out.new ≡ laid_from (lay_blocks Blocks (stripe_of self.entry.header.header level))
            (decode_held self.entry.header.header self.entry.full.now self.entry.log.now level) out.old }
    {
        let marks = [false; 2048];
        let vault = VaultStripe::new(self.header, level);
        let Some(ready) = ReadyStripe::new(vault, &marks) else {
            return Err(Refusal::TooFew);
        };
        stripe_decoding::ranges::decode_and_lay(
            Content::Blocks,
            ready,
            self.stripe(level),
            out,
            scratch,
        )
    }
}

// The last of the first n blocks that is a record's.
fn last_of(blocks: &[u32], width: usize, record: u32, n: usize) -> Option<usize>
    requires { (0 < width) × (n * width ≤ length blocks.now) }
    ensures { result ≡ last_of width blocks.now «record» n }
{
    // by index: of each block the number alone is read
    for j in (0..n).rev() {
        if blocks[j * width] == record {
            return Some(j);
        }
    }
    None
}

// Decodes the filled levels from a level up, and then the full stripe, until one has a block of the record: which of those that the output then begins with, or
// the number of the stripe that is refused. What else is left in the output, and in the scratch, is open.
fn find_from(
    held: Held,
    level: usize,
    record: u32,
    out: &mut [u32],
    scratch: &mut [u32],
) -> Result<usize, Refusal>
    requires bounds { (level ≤ held.header.header.k) × («record» < record_count held.header.header) }
    requires lengths { (length out.old ≡ out_size held.header.header) × (length scratch.old ≡ scratch_size held.header.header) }
    ensures value { before_in (width held.entry.header.header) out.new result ≡
        find_from (held.entry.header.header.k - level) held.entry.header.header
        (decode_held held.entry.header.header held.entry.full.now held.entry.log.now) «record» level }
    ensures inside { IfOk result (λ j. suc j * width held.entry.header.header ≤ out_size held.entry.header.header) }
{
    let width = held.header.width();
    for l in level..held.header.header.k as usize {
        if layout::places::is_filled(held.header.header, l) {
            held.decode(l, out, scratch)?;
            let found = last_of(out, width, record, code::number::two_to(l));
            if let Some(j) = found {
                return Ok(j);
            }
        }
    }
    held.decode(held.header.header.k as usize, out, scratch)?;
    Ok(record as usize)
}

// A block of those that the output begins with: its record, and where it is among them.
#[derive(Clone, Copy)]
pub(crate) struct Found {
    pub(crate) record: u32,
    pub(crate) block: usize,
}

// Decodes the lowest filled level, and then others until the write before its last one is found, of the same record. What else is left in the output, and in
// the scratch, is open.
pub(crate) fn find(
    held: Held,
    level: usize,
    out: &mut [u32],
    scratch: &mut [u32],
) -> Result<Found, Refusal>
    requires level_is { (level ≡ lowest_of held.header.header) × (level < held.header.header.k) }
    requires lengths { (length out.old ≡ out_size held.header.header) × (length scratch.old ≡ scratch_size held.header.header) }
    ensures value { FindsBack held.entry.header.header (decode_held held.entry.header.header held.entry.full.now held.entry.log.now) out.new result }
{
    held.decode(level, out, scratch)?;
    let width = held.header.width();
    let last = code::number::two_to(level) - 1;
    let record = out[last * width];
    if let Some(block) = last_of(out, width, record, last) {
        return Ok(Found { record, block });
    }
    let block = find_from(held, level + 1, record, out, scratch)?;
    Ok(Found { record, block })
}

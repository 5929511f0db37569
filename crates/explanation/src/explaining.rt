// The call explain: what is left of each stripe that recovery needs, and where each record comes from.
ghost use Rattle.std.specs.Prelude.{◌≡◌, [], ◌∷◌, ◌≤◌, length};
ghost use Rattle.layout.specs.Records.{replaced};
ghost use Rattle.layout.specs.Refusals.{answer_number};
ghost use Rattle.image.specs.Erasures.{erasures_in};
ghost use Rattle.image.specs.Readings.{Reads};
ghost use Rattle.recovery.specs.Verdicts.{verdict_of};
ghost use Rattle.explanation.specs.Counts.{counts_size, left, shortfall, counts_of};
ghost use Rattle.explanation.specs.ExplainCall.{explain_early, explain_answer, explain_counts, explain_origins, explain_scratch};

use image::Reading;
use layout::{Header, Refusal, ValidHeader};
use range_laying::Content;
use recovery::Fault;

// Stores the counts of a stripe: the positions left, and how many more it needs; zeros if recovery does not need it.
fn count_stripe(reading: Reading, level: usize, counts: &mut [u32])
    requires within { level ≤ reading.header.header.k }
    requires counts_len { length counts.old ≡ counts_size reading.header.header }
    ensures { counts.new ≡
        replaced 2 counts.old level
        (left reading.entry.header.header (erasures_in reading.entry.erasures.now) level ∷
        shortfall reading.entry.header.header (erasures_in reading.entry.erasures.now) level ∷ []) }
{
    if !reading.header.has_stripe(level as u32) {
        range_laying::pairs::put_pair(counts, level, 0, 0);
        return;
    }
    let mut marks = [false; 2048];
    reading.mark(level, &mut marks);
    let left = judging::counting::positions_left(&marks, level);
    let needed = code::number::two_to(level);
    let short = needed.saturating_sub(left);
    range_laying::pairs::put_pair(counts, level, left as u32, short as u32);
}

// Stores the counts of all stripes.
fn count_stripes(reading: Reading, counts: &mut [u32])
    requires { length counts.old ≡ counts_size reading.header.header }
    ensures { counts.new ≡ counts_of reading.entry.header.header (erasures_in reading.entry.erasures.now) }
{
    let stripes = reading.header.header.k as usize + 1;
    // by index: a stripe's pair stands at its number
    for level in 0..stripes {
        count_stripe(reading, level, counts);
    }
}

// Tests 1, 2 and 3.
fn check<'a>(
    header: Header,
    image: &'a [u8],
    erasures: &'a [u8],
    counts: &[u32],
    origins: &[u32],
    scratch: &[u32],
) -> Result<Reading<'a>, Refusal>
    ensures number { answer_number result ≡
        explain_early header image.now erasures.now counts.now origins.now scratch.now }
    ensures same { Reads header image.now erasures.now result }
{
    let valid = ValidHeader::try_from(header)?;
    if counts.len() != (header.k as usize + 1) * 2 {
        return Err(Refusal::Length);
    }
    image::erasures::check_sized(valid, image, erasures, 2, origins.len(), scratch.len())
}

// Explains what recovery would give. Tests 1, 2 (image, counts, origins, scratch), 3; then it counts what is left of all needed stripes, and then 7 to 10 as
// recovery does, and names the same stripe. 1 to 3 change no buffer; after 7 to 10 origins and scratch are zeros; taken, the scratch is zeros.
pub fn explain(
    header: Header,
    image: &[u8],
    erasures: &[u8],
    counts: &mut [u32],
    origins: &mut [u32],
    scratch: &mut [u32],
) -> Result<(), Fault>
    ensures value { verdict_of result ≡
        explain_answer header image.now erasures.now counts.old origins.old scratch.old }
    ensures counts_after { counts.new ≡
        explain_counts header image.now erasures.now counts.old origins.old scratch.old }
    ensures origins_after { origins.new ≡
        explain_origins header image.now erasures.now counts.old origins.old scratch.old }
    ensures scratch_after { scratch.new ≡
        explain_scratch header image.now erasures.now counts.old origins.old scratch.old }
{
    let reading = check(header, image, erasures, counts, origins, scratch)?;
    count_stripes(reading, counts);
    recovery::stripes::lay_stripes(reading, Content::Origins, origins, scratch)
}

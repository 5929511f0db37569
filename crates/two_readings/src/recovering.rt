// The call recover_two.
ghost use Rattle.std.specs.Prelude.{◌≡◌};
ghost use Rattle.layout.specs.Refusals.{answer_number};
ghost use Rattle.recovery.specs.Verdicts.{verdict_of};
ghost use Rattle.two_readings.specs.RecoverTwoCall.{recover_two_early, recover_two_answer, recover_two_leaves, recover_two_scratch};
ghost use Rattle.two_readings.specs.steps.Pairs.{ReadsTwo};

use crate::TwoReadings;
use layout::{Header, Refusal, ValidHeader};
use range_laying::Content;
use recovery::Fault;

// Tests 1, 2 (the images, out, scratch), 3 and 13.
fn check<'a>(
    header: Header,
    image1: &'a [u8],
    erasures1: &'a [u8],
    image2: &'a [u8],
    erasures2: &'a [u8],
    out: &[u32],
    scratch: &[u32],
) -> Result<TwoReadings<'a>, Refusal>
    ensures number { answer_number result ≡
        recover_two_early header image1.now erasures1.now image2.now erasures2.now out.now scratch.now }
    ensures same { ReadsTwo header image1.now erasures1.now image2.now erasures2.now result }
{
    let valid = ValidHeader::try_from(header)?;
    if out.len() != valid.raw_size() || scratch.len() != valid.scratch_size() {
        return Err(Refusal::Length);
    }
    crate::choosing::check(valid, image1, erasures1, image2, erasures2)
}

// Recovers all records from two readings of one rack, each stripe from the one with more of its positions left, the first on a tie. Tests 1, 2 (the images,
// out, scratch), 3, 13, then 7 to 10 on each stripe in the order in which it decodes them, and names the first stripe at fault. 1 to 3 and 13 change no buffer;
// after 7 to 10 output and scratch are zeros; taken, the scratch is zeros.
pub fn recover_two(
    header: Header,
    image1: &[u8],
    erasures1: &[u8],
    image2: &[u8],
    erasures2: &[u8],
    out: &mut [u32],
    scratch: &mut [u32],
) -> Result<(), Fault>
    ensures value { verdict_of result ≡
        recover_two_answer header image1.now erasures1.now image2.now erasures2.now out.old scratch.old }
    ensures out_after { out.new ≡
        recover_two_leaves header image1.now erasures1.now image2.now erasures2.now out.old scratch.old }
    ensures scratch_after { scratch.new ≡
        recover_two_scratch header image1.now erasures1.now image2.now erasures2.now out.old scratch.old }
{
    let readings = check(header, image1, erasures1, image2, erasures2, out, scratch)?;
    recovery::stripes::lay_stripes(readings, Content::Records, out, scratch)
}

// The call recover.
ghost use Rattle.std.specs.Prelude.{◌≡◌};
ghost use Rattle.recovery.specs.RecoveryCall.{recover_answer, recover_leaves, recover_scratch};
ghost use Rattle.recovery.specs.Verdicts.{verdict_of};

use crate::Fault;
use layout::Header;
use range_laying::Content;

// Recovers all records from an image. Tests 1, 2 (image, out, scratch), 3, then 7 to 10 on each stripe in the order in which it decodes them, and names the
// first stripe at fault. 1 to 3 change no buffer; after 7 to 10 output and scratch are zeros; taken, the scratch is zeros.
pub fn recover(
    header: Header,
    image: &[u8],
    erasures: &[u8],
    out: &mut [u32],
    scratch: &mut [u32],
) -> Result<(), Fault>
    ensures value { verdict_of result ≡ recover_answer header image.now erasures.now out.old scratch.old }
    ensures out_after { out.new ≡ recover_leaves header image.now erasures.now out.old scratch.old }
    ensures scratch_after { scratch.new ≡ recover_scratch header image.now erasures.now out.old scratch.old }
{
    let row = header.s as usize;
    let reading = image::erasures::check(header, image, erasures, row, out.len(), scratch.len())?;
    crate::stripes::lay_stripes(reading, Content::Records, out, scratch)
}

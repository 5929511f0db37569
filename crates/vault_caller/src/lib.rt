// A caller of the vault in Rattle, as an example. It names the crate vault alone, and what its own contract says it has from the vault's promises, not from the
// vault's code.
#![tactic(auto)]

ghost use Rattle.std.specs.Prelude.{◌≡◌, IsOk, length};
ghost use Rattle.vault.specs.Header.{header_of, image_size, raw_size, scratch_size};
ghost use Rattle.vault.specs.StoreCalls.{open_number};
ghost use Rattle.vault.specs.promises.Losses.{LeavesHalf};

use vault::{Fault, calls};

// Opens a vault over raw records, makes its image, and recovers from that image what an erasure list leaves: what the last of the three calls answers, or the
// first that is refused. Where each buffer has its length, the opening is taken and the list leaves half of each needed stripe, all three are taken, and the
// output is the raw records. The parameters are what the three calls are lent.
pub fn open_and_recover(
    k: u32,
    s: u32,
    raw: &[u32],
    full: &mut [u32],
    log: &mut [u32],
    image: &mut [u8],
    erasures: &[u8],
    out: &mut [u32],
    scratch: &mut [u32],
) -> Result<(), Fault>
    ensures taken { open_number k s raw.now full.old log.old ≡ 0 → length image.old ≡ image_size (header_of k s 0) →
        (length out.old ≡ raw_size (header_of k s 0)) × (length scratch.old ≡ scratch_size (header_of k s 0)) →
        LeavesHalf (header_of k s 0) erasures.now → IsOk result }
    ensures recovered { IsOk result →
        (length out.old ≡ raw_size (header_of k s 0)) × (length scratch.old ≡ scratch_size (header_of k s 0)) →
        LeavesHalf (header_of k s 0) erasures.now → out.new ≡ raw.now }
{
    let header = calls::open(k, s, raw, full, log)?;
    calls::image(header, full, log, image)?;
    calls::recover(header, image, erasures, out, scratch)
}

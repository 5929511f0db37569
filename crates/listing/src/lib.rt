// The listing that the program `racklist` prints (docs/FORMAT.md, section 13), proved to be what specs/Listing says, byte by byte.
#![tactic(auto)]

ghost use Rattle.std.specs.Prelude.{◌≡◌, ◌++◌, ◌≤◌, ◌*◌, min, length, take, drop};
ghost use Rattle.print_lines.specs.Putting.{put, put_end};
ghost use Rattle.listing.specs.Listing.{write_all, zero_rack, text_of, listing};

use layout::{Header, Refusal, ValidHeader};

mod filling;
mod text;

// The listing of the rack after these writes, for k and s in racklist's ranges: it has room in memory of a fixed size.
fn list_writes(k: u32, s: u32, writes: &[u8], out: &mut [u8]) -> usize
    requires { (1 ≤ k) × (k ≤ 5) × (1 ≤ s) × (s ≤ 16) }
    ensures value { result ≡ put_end out.old 0 (text_of (write_all 256 (zero_rack k s) writes.now)) }
    ensures out_after { out.new ≡ put out.old 0 (text_of (write_all 256 (zero_rack k s) writes.now)) }
{
    let opened = ValidHeader {
        header: Header { k, s, c: 0 },
    };
    let mut raw = [0; 512];
    let mut full = [0; 1088];
    let mut log = [0; 1054];
    let raw = &mut raw[..opened.raw_size()];
    let full = &mut full[..opened.full_size()];
    let log = &mut log[..opened.log_size()];
    match filling::fill(k, s, raw, full, log, writes) {
        Ok(header) => text::put_rack(out, header, full, log),
        Err(refusal) => text::put_refusal(out, refusal),
    }
}

// Puts the listing of an input into a buffer, as far as it fits, and gives its length.
pub fn list(input: &[u8], out: &mut [u8]) -> usize
    ensures value { result ≡ min (length (listing input.now)) (length out.old) }
    ensures out_after { out.new ≡ take (length out.old) (listing input.now) ++ drop (length (listing input.now)) out.old }
{
    let [k, s, writes @ ..] = input else {
        return text::put_refusal(out, Refusal::Length);
    };
    let (k, s) = (u32::from(*k), u32::from(*s));
    if k < 1 || 5 < k || s < 1 || 16 < s {
        return text::put_refusal(out, Refusal::HeaderRange);
    }
    list_writes(k, s, writes, out)
}

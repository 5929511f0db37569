// The rack that a listing is of: a vault in lent memory, and the writes of an input.
ghost use Rattle.std.specs.Prelude.{◌≡◌, ◌+◌, ◌*◌, ◌≤◌, length, replicate, IfOk};
ghost use Rattle.layout.specs.Header.{header_of, raw_size, full_size, log_size};
ghost use Rattle.store.specs.Buffers.{buffers};
ghost use Rattle.listing.specs.Listing.{pairs, rack, filled_as, write_of, write_all, zero_rack};

use layout::{Header, Refusal};

// Stores the words that bytes are, two each, low byte first.
fn load(words: &mut [u32], bytes: &[u8])
    requires { length bytes.now ≡ 2 * length words.old }
    ensures { words.new ≡ pairs bytes.now }
{
    for (i, word) in words.iter_mut().enumerate() {
        let at = 2 * i;
        *word = u32::from(bytes[at]) + 256 * u32::from(bytes[at + 1]);
    }
}

// The first write of those that these bytes are: the record's number, then its words.
fn write_first(
    header: Header,
    raw: &mut [u32],
    full: &mut [u32],
    log: &mut [u32],
    writes: &[u8],
) -> Result<Header, Refusal>
    requires { header.s ≤ 16 }
    ensures value { filled_as result (buffers raw.new full.new log.new) ≡ write_of (rack header (buffers raw.old full.old log.old)) writes.now }
    ensures same { IfOk result (λ h. (h.k ≡ header.k) × (h.s ≡ header.s)) }
{
    let width = header.s as usize + 1;
    let size = 2 * width;
    if writes.len() < size {
        return Err(Refusal::Length);
    }
    let mut words = [0; 17];
    load(&mut words[..width], &writes[..size]);
    store::writing::write(header, raw, full, log, words[0], &words[1..width])
}

// Makes the writes that bytes are, at most 256: what follows them is not read.
fn write_all(
    header: Header,
    raw: &mut [u32],
    full: &mut [u32],
    log: &mut [u32],
    writes: &[u8],
) -> Result<Header, Refusal>
    requires { header.s ≤ 16 }
    ensures value { filled_as result (buffers raw.new full.new log.new) ≡ write_all 256 (rack header (buffers raw.old full.old log.old)) writes.now }
    ensures same { IfOk result (λ h. (h.k ≡ header.k) × (h.s ≡ header.s)) }
{
    let size = 2 + 2 * header.s as usize;
    let mut header = header;
    let mut rest = writes;
    for _ in 0..256usize {
        if rest.is_empty() {
            break;
        }
        header = write_first(header, raw, full, log, rest)?;
        let made = size.min(rest.len());
        rest = &rest[made..];
    }
    Ok(header)
}

// Opens a vault of zero records, and makes the writes.
pub(crate) fn fill(
    k: u32,
    s: u32,
    raw: &mut [u32],
    full: &mut [u32],
    log: &mut [u32],
    writes: &[u8],
) -> Result<Header, Refusal>
    requires ranges { (1 ≤ k) × (k ≤ 5) × (1 ≤ s) × (s ≤ 16) }
    requires raw_zeros { raw.old ≡ replicate (raw_size (header_of k s 0)) 0 }
    requires lengths { (length full.old ≡ full_size (header_of k s 0)) × (length log.old ≡ log_size (header_of k s 0)) }
    ensures value { filled_as result (buffers raw.new full.new log.new) ≡ write_all 256 (zero_rack k s) writes.now }
    ensures same { IfOk result (λ h. (h.k ≡ k) × (h.s ≡ s)) }
{
    let header = store::opening::open(k, s, raw, full, log)?;
    write_all(header, raw, full, log, writes)
}

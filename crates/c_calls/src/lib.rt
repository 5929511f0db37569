// The vault's calls for C (include/vault.h): the header's numbers as parameters, and what an answer holds behind pointers. Each does what its call does. Two
// that look alike, as vault_recover and vault_explain, are two functions of C; what they share is fault_number and shelf_of. An answer is a number, and none of
// the vault's types, since the C interface has no others.
#![tactic(auto)]

ghost use Rattle.std.specs.Prelude.{◌≡◌};
ghost use Rattle.vault.specs.Header.{header_of};
ghost use Rattle.vault.specs.PowersCall.{powers_number, powers_leaves};
ghost use Rattle.vault.specs.Buffers.{buffers};
ghost use Rattle.vault.specs.StoreCalls.{open_number, open_leaves, write_number, write_answer, write_leaves, read_number};
ghost use Rattle.vault.specs.StoreCalls.{strike_number, strike_answer, strike_leaves};
ghost use Rattle.vault.specs.TakeBackCall.{take_back_number, take_back_answer, take_back_leaves, take_back_scratch};
ghost use Rattle.vault.specs.StripeCall.{decode_number, decode_leaves, decode_scratch};
ghost use Rattle.vault.specs.Verdicts.{verdict_of};
ghost use Rattle.vault.specs.RecoveryCall.{recover_answer, recover_leaves, recover_scratch};
ghost use Rattle.vault.specs.RecoverTwoCall.{recover_two_answer, recover_two_leaves, recover_two_scratch};
ghost use Rattle.vault.specs.ShelfOfTwoCall.{shelf_of_two_number, place_of_two};
ghost use Rattle.vault.specs.ExplainCall.{explain_answer, explain_counts, explain_origins, explain_scratch};
ghost use Rattle.vault.specs.ImageCall.{image_number, image_leaves};
ghost use Rattle.vault.specs.Boundary.{read_start, read_count, shelf_of};

use vault::{Fault, Header, Place, calls, number_of};

// The number of an answer that may name a stripe.
fn fault_number(answer: Result<(), Fault>) -> u32
    ensures { result ≡ (verdict_of answer).number }
{
    number_of(answer.map_err(|fault| fault.refusal))
}

// The shelf at fault, or 0xffffffff where none is named.
fn shelf_of(answer: Result<(), Fault>) -> u32
    ensures { result ≡ shelf_of (verdict_of answer) }
{
    match answer {
        Err(
            Fault {
                stripe: Some(stripe),
                ..
            },
        ) => stripe,
        _ => 0xffffffff,
    }
}

// The header is then k, s, 0.
#[unsafe(no_mangle)]
pub extern "C" fn vault_open(k: u32, s: u32, raw: &[u32], full: &mut [u32], log: &mut [u32]) -> u32
    ensures value { result ≡ open_number k s raw.now full.old log.old }
    ensures full_after { full.new ≡ (open_leaves k s raw.now full.old log.old).full }
    ensures log_after { log.new ≡ (open_leaves k s raw.now full.old log.old).log }
{
    number_of(calls::open(k, s, raw, full, log))
}

// *c becomes the header's c after the write; it stays where the write is refused.
#[unsafe(no_mangle)]
pub extern "C" fn vault_write(
    k: u32,
    s: u32,
    c: &mut u32,
    raw: &mut [u32],
    full: &mut [u32],
    log: &mut [u32],
    record: u32,
    block: &[u32],
) -> u32
    ensures value { result ≡
        write_number (header_of k s c.old) (buffers raw.old full.old log.old) «record» block.now }
    ensures c_after { c.new ≡ (write_answer (header_of k s c.old) (buffers raw.old full.old log.old) «record»
        block.now).header.c }
    ensures raw_after { raw.new ≡
        (write_leaves (header_of k s c.old) (buffers raw.old full.old log.old) «record» block.now).raw }
    ensures full_after { full.new ≡
        (write_leaves (header_of k s c.old) (buffers raw.old full.old log.old) «record» block.now).full }
    ensures log_after { log.new ≡
        (write_leaves (header_of k s c.old) (buffers raw.old full.old log.old) «record» block.now).log }
{
    let header = Header { k, s, c: *c };
    match calls::write(header, raw, full, log, record, block) {
        Ok(next) => {
            *c = next.c;
            0
        }
        Err(refusal) => refusal.number(),
    }
}

// *c becomes the header's c after the strike; it stays where the strike is refused.
#[unsafe(no_mangle)]
pub extern "C" fn vault_strike(
    k: u32,
    s: u32,
    c: &mut u32,
    raw: &mut [u32],
    full: &mut [u32],
    log: &mut [u32],
    record: u32,
) -> u32
    ensures value { result ≡ strike_number (header_of k s c.old) (buffers raw.old full.old log.old) «record» }
    ensures c_after { c.new ≡ (strike_answer (header_of k s c.old) (buffers raw.old full.old log.old) «record»).header.c }
    ensures raw_after { raw.new ≡ (strike_leaves (header_of k s c.old) (buffers raw.old full.old log.old) «record»).raw }
    ensures full_after { full.new ≡ (strike_leaves (header_of k s c.old) (buffers raw.old full.old log.old) «record»).full }
    ensures log_after { log.new ≡ (strike_leaves (header_of k s c.old) (buffers raw.old full.old log.old) «record»).log }
{
    let header = Header { k, s, c: *c };
    match calls::strike(header, raw, full, log, record) {
        Ok(after) => {
            *c = after.c;
            0
        }
        Err(refusal) => refusal.number(),
    }
}

// *c becomes one less; it stays where the taking-back is refused.
#[unsafe(no_mangle)]
pub extern "C" fn vault_take_back(
    k: u32,
    s: u32,
    c: &mut u32,
    raw: &mut [u32],
    full: &[u32],
    log: &mut [u32],
    scratch: &mut [u32],
) -> u32
    ensures value { result ≡ take_back_number (header_of k s c.old) (buffers raw.old full.now log.old) scratch.old }
    ensures c_after { c.new ≡ (take_back_answer (header_of k s c.old) (buffers raw.old full.now log.old) scratch.old).header.c }
    ensures raw_after { raw.new ≡ (take_back_leaves (header_of k s c.old) (buffers raw.old full.now log.old) scratch.old).raw }
    ensures log_after { log.new ≡ (take_back_leaves (header_of k s c.old) (buffers raw.old full.now log.old) scratch.old).log }
    ensures scratch_after { scratch.new ≡
        take_back_scratch (header_of k s c.old) (buffers raw.old full.now log.old) scratch.old }
{
    let header = Header { k, s, c: *c };
    match calls::take_back(header, raw, full, log, scratch) {
        Ok(before) => {
            *c = before.c;
            0
        }
        Err(refusal) => refusal.number(),
    }
}

// The record is raw[*start .. *start + *count); both are 0 where the reading is refused.
#[unsafe(no_mangle)]
pub extern "C" fn vault_read(
    k: u32,
    s: u32,
    c: u32,
    raw: &[u32],
    record: u32,
    start: &mut usize,
    count: &mut usize,
) -> u32
    ensures value { result ≡ read_number (header_of k s c) raw.now «record» }
    ensures start_after { start.new ≡ read_start (header_of k s c) raw.now «record» }
    ensures count_after { count.new ≡ read_count (header_of k s c) raw.now «record» }
{
    match calls::try_read(Header { k, s, c }, raw, record) {
        Ok(_) => {
            *start = record as usize * s as usize;
            *count = s as usize;
            0
        }
        Err(refusal) => {
            *start = 0;
            *count = 0;
            refusal.number()
        }
    }
}

// The blocks of one shelf of an image; shelf is the stripe, gaps the erasure list.
#[unsafe(no_mangle)]
pub extern "C" fn vault_decode(
    k: u32,
    s: u32,
    c: u32,
    image: &[u8],
    gaps: &[u8],
    shelf: u32,
    out: &mut [u32],
    scratch: &mut [u32],
) -> u32
    ensures value { result ≡ decode_number (header_of k s c) image.now gaps.now shelf out.old scratch.old }
    ensures out_after { out.new ≡
        decode_leaves (header_of k s c) image.now gaps.now shelf out.old scratch.old }
    ensures scratch_after { scratch.new ≡
        decode_scratch (header_of k s c) image.now gaps.now shelf out.old scratch.old }
{
    number_of(calls::decode(Header { k, s, c }, image, gaps, shelf, out, scratch))
}

// *shelf is the shelf at fault, or 0xffffffff where none is named.
#[unsafe(no_mangle)]
pub extern "C" fn vault_recover(
    k: u32,
    s: u32,
    c: u32,
    image: &[u8],
    gaps: &[u8],
    out: &mut [u32],
    scratch: &mut [u32],
    shelf: &mut u32,
) -> u32
    ensures value { result ≡ (recover_answer (header_of k s c) image.now gaps.now out.old scratch.old).number }
    ensures out_after { out.new ≡ recover_leaves (header_of k s c) image.now gaps.now out.old scratch.old }
    ensures scratch_after { scratch.new ≡
        recover_scratch (header_of k s c) image.now gaps.now out.old scratch.old }
    ensures shelf_after { shelf.new ≡
        shelf_of (recover_answer (header_of k s c) image.now gaps.now out.old scratch.old) }
{
    let answer = calls::recover(Header { k, s, c }, image, gaps, out, scratch);
    *shelf = shelf_of(answer);
    fault_number(answer)
}

// *shelf is the shelf at fault, or 0xffffffff where none is named.
#[unsafe(no_mangle)]
pub extern "C" fn vault_recover_two(
    k: u32,
    s: u32,
    c: u32,
    image1: &[u8],
    gaps1: &[u8],
    image2: &[u8],
    gaps2: &[u8],
    out: &mut [u32],
    scratch: &mut [u32],
    shelf: &mut u32,
) -> u32
    ensures value { result ≡
        (recover_two_answer (header_of k s c) image1.now gaps1.now image2.now gaps2.now out.old scratch.old).number }
    ensures out_after { out.new ≡
        recover_two_leaves (header_of k s c) image1.now gaps1.now image2.now gaps2.now out.old scratch.old }
    ensures scratch_after { scratch.new ≡
        recover_two_scratch (header_of k s c) image1.now gaps1.now image2.now gaps2.now out.old scratch.old }
    ensures shelf_after { shelf.new ≡
        shelf_of (recover_two_answer (header_of k s c) image1.now gaps1.now image2.now gaps2.now out.old scratch.old) }
{
    let header = Header { k, s, c };
    let answer = calls::recover_two(header, image1, gaps1, image2, gaps2, out, scratch);
    *shelf = shelf_of(answer);
    fault_number(answer)
}

// The shelf is image1[*start .. *start + *count) where *reading is 0, and of image2 where it is 1; all three are 0 where it is refused.
#[unsafe(no_mangle)]
pub extern "C" fn vault_shelf_of_two(
    k: u32,
    s: u32,
    c: u32,
    image1: &[u8],
    gaps1: &[u8],
    image2: &[u8],
    gaps2: &[u8],
    shelf: u32,
    reading: &mut u32,
    start: &mut usize,
    count: &mut usize,
) -> u32
    ensures value { result ≡ shelf_of_two_number (header_of k s c) image1.now gaps1.now image2.now gaps2.now shelf }
    ensures reading_after { reading.new ≡
        (place_of_two (header_of k s c) image1.now gaps1.now image2.now gaps2.now shelf).reading }
    ensures start_after { start.new ≡ (place_of_two (header_of k s c) image1.now gaps1.now image2.now gaps2.now shelf).start }
    ensures count_after { count.new ≡ (place_of_two (header_of k s c) image1.now gaps1.now image2.now gaps2.now shelf).count }
{
    let (given, number) = match calls::place_of_two(
        Header { k, s, c },
        image1,
        gaps1,
        image2,
        gaps2,
        shelf,
    ) {
        Ok(place) => (place, 0),
        Err(refusal) => (
            Place {
                reading: 0,
                start: 0,
                count: 0,
            },
            refusal.number(),
        ),
    };
    *reading = given.reading;
    *start = given.start;
    *count = given.count;
    number
}

// Why a recovery stops, or where each record comes from. counts: for each shelf the positions left, and how many it lacks; origins: for each record the shelf
// and the number of its last write. *shelf is the shelf at fault, or 0xffffffff where none is named.
#[unsafe(no_mangle)]
pub extern "C" fn vault_explain(
    k: u32,
    s: u32,
    c: u32,
    image: &[u8],
    gaps: &[u8],
    counts: &mut [u32],
    origins: &mut [u32],
    scratch: &mut [u32],
    shelf: &mut u32,
) -> u32
    ensures value { result ≡ (explain_answer (header_of k s c) image.now gaps.now counts.old origins.old
        scratch.old).number }
    ensures counts_after { counts.new ≡ explain_counts (header_of k s c) image.now gaps.now counts.old origins.old
        scratch.old }
    ensures origins_after { origins.new ≡ explain_origins (header_of k s c) image.now gaps.now counts.old
        origins.old scratch.old }
    ensures scratch_after { scratch.new ≡ explain_scratch (header_of k s c) image.now gaps.now counts.old
        origins.old scratch.old }
    ensures shelf_after { shelf.new ≡ shelf_of (explain_answer (header_of k s c) image.now gaps.now counts.old
        origins.old scratch.old) }
{
    let explained = calls::explain(Header { k, s, c }, image, gaps, counts, origins, scratch);
    *shelf = shelf_of(explained);
    fault_number(explained)
}

// The image of the full shelf and the log.
#[unsafe(no_mangle)]
pub extern "C" fn vault_image(
    k: u32,
    s: u32,
    c: u32,
    full: &[u32],
    log: &[u32],
    image: &mut [u8],
) -> u32
    ensures value { result ≡ image_number (header_of k s c) full.now log.now image.old }
    ensures image_after { image.new ≡ image_leaves (header_of k s c) full.now log.now image.old }
{
    number_of(calls::image(Header { k, s, c }, full, log, image))
}

// The table of powers.
#[unsafe(no_mangle)]
pub extern "C" fn vault_powers(powers: &mut [u32]) -> u32
    ensures value { result ≡ powers_number powers.old }
    ensures powers_after { powers.new ≡ powers_leaves powers.old }
{
    number_of(calls::powers(powers))
}

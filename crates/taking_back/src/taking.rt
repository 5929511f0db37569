// The call take_back.
ghost use Rattle.std.specs.Prelude.{◌≡◌, true, ◌<◌, ◌*◌, length, replicate, IfOk};
ghost use Rattle.layout.specs.Header.{scratch_size};
ghost use Rattle.layout.specs.Refusals.{answer_number};
ghost use Rattle.store.specs.Buffers.{buffers};
ghost use Rattle.store.specs.StoreCalls.{buffers_fit, written_as};
ghost use Rattle.taking_back.specs.TakingBack.{number_back, buffers_back};
ghost use Rattle.taking_back.specs.TakeBackCall.{take_back_early, take_back_comes, back_answer, take_back_answer, take_back_leaves, take_back_scratch};

use crate::finding::Held;
use layout::{Header, Refusal, ValidHeader};

// Tests 1, 2 and 12.
fn check(
    header: Header,
    raw: &[u32],
    full: &[u32],
    log: &[u32],
    scratch: &[u32],
) -> Result<ValidHeader, Refusal>
    ensures number { answer_number result ≡ take_back_early header (buffers raw.now full.now log.now) scratch.now }
    ensures same { IfOk result (λ v. v.header ≡ header) }
{
    let valid = store::buffers::check(header, raw, full, log)?;
    if scratch.len() != 2 * valid.scratch_size() {
        return Err(Refusal::Length);
    }
    if header.c == 0 {
        return Err(Refusal::RoundStart);
    }
    Ok(valid)
}

// Taken, it leaves the scratch zeros, and where it is refused, what is left there is open.
fn take_last(
    header: ValidHeader,
    raw: &mut [u32],
    full: &[u32],
    log: &mut [u32],
    scratch: &mut [u32],
) -> Result<Header, Refusal>
    requires some { 0 < header.header.c }
    requires lengths { buffers_fit header.header (buffers raw.old full.now log.old) ≡ true }
    requires scratch_len { length scratch.old ≡ 2 * scratch_size header.header }
    ensures value { written_as header.header result ≡
        back_answer header.header (number_back (take_back_comes header.header (buffers raw.old full.now log.old))) }
    ensures raw_after { raw.new ≡
        (buffers_back header.header (buffers raw.old full.now log.old) (take_back_comes header.header (buffers raw.old full.now log.old))).raw }
    ensures log_after { log.new ≡
        (buffers_back header.header (buffers raw.old full.now log.old) (take_back_comes header.header (buffers raw.old full.now log.old))).log }
    ensures scratch_after { IfOk result (λ _. scratch.new ≡ replicate (2 * scratch_size header.header) 0) }
{
    // the lowest filled level is the one that the write built: the first empty one before it
    let level = layout::places::first_empty(header.header.c - 1);
    let width = header.width();
    let (out, rest) = scratch.split_at_mut(header.record_count() * width);
    let work = &mut rest[..header.scratch_size()];
    let found = crate::finding::find(Held { header, full, log }, level, out, work)?;
    let from = found.block * width + 1;
    store::writing::put_record(raw, found.record as usize, &out[from..from + width - 1]);
    // before the level is taken apart, while what decoding wrote is still near: later it takes a tenth of the call longer at k = 10, s = 128
    scratch.fill(0);
    splitting::levels::split_lowest(header, log, level);
    Ok(Header {
        c: header.header.c - 1,
        ..header.header
    })
}

// Takes back the last write of the round, and gives the header afterwards. Tests 1, 2 (raw, full, log, scratch), 12 (none is left), then 8, 9, 10 on each
// stripe in the order in which it decodes them: the lowest filled level, and others until the record's write before is found. 1, 2 and 12 change nothing, 8 to
// 10 and a call that is taken leave the scratch zeros.
pub fn take_back(
    header: Header,
    raw: &mut [u32],
    full: &[u32],
    log: &mut [u32],
    scratch: &mut [u32],
) -> Result<Header, Refusal>
    ensures value { written_as header result ≡ take_back_answer header (buffers raw.old full.now log.old) scratch.old }
    ensures raw_after { raw.new ≡ (take_back_leaves header (buffers raw.old full.now log.old) scratch.old).raw }
    ensures log_after { log.new ≡ (take_back_leaves header (buffers raw.old full.now log.old) scratch.old).log }
    ensures scratch_after { scratch.new ≡ take_back_scratch header (buffers raw.old full.now log.old) scratch.old }
{
    let valid = check(header, raw, full, log, scratch)?;
    let answer = take_last(valid, raw, full, log, scratch);
    if answer.is_err() {
        scratch.fill(0);
    }
    answer
}

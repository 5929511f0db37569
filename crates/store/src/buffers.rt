// The tests that the calls on a vault's buffers share.
ghost use Rattle.std.specs.Prelude.{◌≡◌, IfOk};
ghost use Rattle.layout.specs.Refusals.{answer_number};
ghost use Rattle.store.specs.Buffers.{buffers};
ghost use Rattle.store.specs.StoreCalls.{buffers_number};

use layout::{Header, Refusal, ValidHeader};

// Tests 1 and 2: the header, and the lengths of the raw copy, the full stripe and the log.
pub fn check(header: Header, raw: &[u32], full: &[u32], log: &[u32]) -> Result<ValidHeader, Refusal>
    ensures number { answer_number result ≡ buffers_number header (buffers raw.now full.now log.now) }
    ensures same { IfOk result (λ v. v.header ≡ header) }
{
    let valid = ValidHeader::try_from(header)?;
    if raw.len() != valid.raw_size()
        || full.len() != valid.full_size()
        || log.len() != valid.log_size()
    {
        return Err(Refusal::Length);
    }
    Ok(valid)
}

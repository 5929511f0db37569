// Striking: a record has no data from then on. It is a write of 65536 in the place of each data word.
ghost use Rattle.std.specs.Prelude.{◌≡◌, IfOk};
ghost use Rattle.layout.specs.Refusals.{answer_number};
ghost use Rattle.store.specs.Buffers.{buffers};
ghost use Rattle.store.specs.StoreCalls.{written_as, strike_number, strike_answer, strike_leaves};

use crate::writing::Block;
use layout::words::STRUCK;
use layout::{Header, Refusal, ValidHeader};

// Tests 1, 2 and 4 of a strike.
fn check_striking(
    header: Header,
    raw: &[u32],
    full: &[u32],
    log: &[u32],
    number: u32,
) -> Result<ValidHeader, Refusal>
    ensures number { answer_number result ≡ strike_number header (buffers raw.now full.now log.now) number }
    ensures same { IfOk result (λ v. v.header ≡ header) }
{
    let valid = crate::buffers::check(header, raw, full, log)?;
    if valid.record_count() <= number as usize {
        return Err(Refusal::RecordNumber);
    }
    Ok(valid)
}

// Strikes a record, struck or not, and gives the header afterwards. Tests 1, 2 (the three buffers), 4; a refusal changes nothing.
pub fn strike(
    header: Header,
    raw: &mut [u32],
    full: &mut [u32],
    log: &mut [u32],
    number: u32,
) -> Result<Header, Refusal>
    ensures value { written_as header result ≡ strike_answer header (buffers raw.old full.old log.old) number }
    ensures raw_after { raw.new ≡
        (strike_leaves header (buffers raw.old full.old log.old) number).raw }
    ensures full_after { full.new ≡
        (strike_leaves header (buffers raw.old full.old log.old) number).full }
    ensures log_after { log.new ≡
        (strike_leaves header (buffers raw.old full.old log.old) number).log }
{
    let valid = check_striking(header, raw, full, log, number)?;
    // as many as a record can have: the library has no heap
    let struck = [STRUCK; 128];
    let block = Block {
        number,
        words: &struck[..header.s as usize],
    };
    Ok(crate::writing::enter(valid, raw, full, log, block))
}

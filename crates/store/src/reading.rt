// Reading: a record as a part of the raw buffer.
ghost use Rattle.std.specs.Prelude.{◌≡◌};
ghost use Rattle.layout.specs.Refusals.{answer_number, read_part};
ghost use Rattle.store.specs.StoreCalls.{read_number, read_gives};

use layout::refusal::number_of;
use layout::{Header, Refusal, ValidHeader};

// The record, a part of the raw buffer. Tests 1, 2, 4, 14 (a struck record).
pub fn try_read<'a>(header: Header, raw: &'a [u32], number: u32) -> Result<&'a [u32], Refusal>
    ensures value { answer_number result ≡ read_number header raw.now number }
    ensures part { read_part result ≡ read_gives header raw.now number }
{
    let valid = ValidHeader::try_from(header)?;
    if raw.len() != valid.raw_size() {
        return Err(Refusal::Length);
    }
    if valid.record_count() <= number as usize {
        return Err(Refusal::RecordNumber);
    }
    let s = header.s as usize;
    let from = number as usize * s;
    let record = &raw[from..from + s];
    if layout::words::is_struck(record) {
        return Err(Refusal::Struck);
    }
    Ok(record)
}

// The number that reading gives.
pub fn read_number(header: Header, raw: &[u32], number: u32) -> u32
    ensures { result ≡ read_number header raw.now number }
{
    number_of(try_read(header, raw, number))
}

// The record, a part of the raw buffer; an empty part where reading is refused.
pub fn read<'a>(header: Header, raw: &'a [u32], number: u32) -> &'a [u32]
    ensures { result.now ≡ read_gives header raw.now number }
{
    try_read(header, raw, number).unwrap_or(&[])
}

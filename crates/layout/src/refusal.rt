// The table of refusals (docs/FORMAT.md, section 10) as a type, and the number of an answer.
ghost use Rattle.std.specs.Prelude.{◌≡◌};
ghost use Rattle.layout.specs.Refusals.{answer_number};

use std::error::Error;
use std::fmt;

// Why a call refuses what it is given. Each has its number in the table.
#[derive(Clone, Copy, Debug, PartialEq, Eq)]
pub enum Refusal {
    HeaderRange = 1,
    Length = 2,
    ErasureList = 3,
    RecordNumber = 4,
    DataWord = 5,
    NoStripe = 6,
    TooFew = 7,
    OutOfField = 8,
    Inconsistent = 9,
    NotRecords = 10,
    Blank = 11,
    RoundStart = 12,
    ReadingsDiffer = 13,
    Struck = 14,
}

impl Refusal {
    ghost use Rattle.layout.specs.Refusals.{number_of};

    // Its number in the table.
    pub fn number(self) -> u32
        ensures { result ≡ number_of self }
    {
        self as u32
    }
}

impl fmt::Display for Refusal {
    fn fmt<W: fmt::Write>(&self, f: &mut fmt::Formatter<W>) -> fmt::Result {
        f.write_str(match self {
            Refusal::HeaderRange => "header",
            Refusal::Length => "length",
            Refusal::ErasureList => "erasure list",
            Refusal::RecordNumber => "record number",
            Refusal::DataWord => "data word",
            Refusal::NoStripe => "stripe",
            Refusal::TooFew => "too few survivors",
            Refusal::OutOfField => "out of field",
            Refusal::Inconsistent => "inconsistent",
            Refusal::NotRecords => "not a record",
            Refusal::Blank => "blank block",
            Refusal::RoundStart => "start of a round",
            Refusal::ReadingsDiffer => "readings differ",
            Refusal::Struck => "struck record",
        })
    }
}

impl Error for Refusal {}

// The number of an answer, 0 if the call was taken.
pub fn number_of<T: Drop>(answer: Result<T, Refusal>) -> u32
    ensures { result ≡ answer_number answer }
{
    answer.map_or_else(|refusal| refusal.number(), |_| 0)
}

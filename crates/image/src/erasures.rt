// Erasure lists (docs/FORMAT.md, section 6), the marks of a stripe's positions, and the tests of the calls that are lent an image. Header, image, erasure list
// and buffers are parameters, as the C interface lends them, until tests 1 to 3 have made a `Reading`; of a buffer that changes the tests
// here take the length alone. Marks are an array of 2,048, which their definition gives in whole: so the number of positions
// stands beside it.
ghost use Rattle.std.specs.Prelude.{◌≡◌, false, ◌&&◌, true, [], ◌∷◌, ◌+◌, ◌*◌, ◌%◌, ◌≤◌, ◌<◌, ◌-◌, suc, eqb, length, replicate};
ghost use Rattle.image.specs.Image.{number_at};
ghost use Rattle.image.specs.Erasures.{erasures_in, erasures_rise, erasures_fit, marks_of};
ghost use Rattle.image.specs.ImageTests.{image_tests};
ghost use Rattle.image.specs.Readings.{Reads};
ghost use Rattle.image.specs.steps.Marking.{Marked, erasure, mark_for, marks_for};
ghost use Rattle.layout.specs.Header.{record_count, scratch_size, image_size};
ghost use Rattle.layout.specs.Refusals.{done, test, refusal, answer_number};

use crate::Reading;
use layout::{Header, Refusal, ValidHeader};

// An erasure: so many bytes of an image, from an offset on.
#[derive(Clone, Copy)]
struct Erasure {
    offset: u32,
    size: u32,
}

impl Erasure {
    // The offset behind its last byte.
    fn end(self) -> usize
        ensures { result ≡ self.offset + self.size }
    {
        self.offset as usize + self.size as usize
    }
}

// A pair of an erasure list: two numbers of four bytes.
impl From<[u8; 8]> for Erasure {
    ghost from_gives = { λ pair lost. (lost.offset ≡ number_at pair 0) × (lost.size ≡ number_at pair 4) };

    fn from(pair: [u8; 8]) -> Erasure {
        Erasure {
            offset: crate::bytes::number_at(&pair, 0),
            size: crate::bytes::number_at(&pair, 4),
        }
    }
}

// Test 3: whether an erasure list is whole, sorted, and ends inside an image of `size` bytes.
fn erasures_fit(erasures: &[u8], size: usize) -> bool
    requires { size < 4294967296 }
    ensures { result ≡ (eqb (length erasures.now % 8) 0 && erasures_rise 0 size (erasures_in erasures.now)) }
{
    let (pairs, rest) = erasures.as_chunks::<8>();
    if !rest.is_empty() {
        return false;
    }
    let mut least: usize = 0;
    for pair in pairs {
        let lost = Erasure::from(*pair);
        let offset = lost.offset as usize;
        let end = lost.end();
        if offset < least || end <= offset || size < end {
            return false;
        }
        least = end + 1;
    }
    true
}

// The positions of a stripe in an image: position i is the `step` bytes from `base + i * step` on.
#[derive(Clone, Copy)]
struct Places {
    base: usize,
    step: usize,
    positions: usize,
    ghost some: { 0 < step },
    ghost inside: { base + positions * step < 4294967296 },
}

// Marks the positions that the bytes of an erasure touch.
fn mark_touched(marks: &mut [bool], lost: Erasure, places: Places)
    requires { places.positions ≤ length marks.old }
    ensures { Marked (mark_for places.base places.step places.positions (erasure lost.offset lost.size ∷ [])) marks.old marks.new }
{
    let Places {
        base,
        step,
        positions,
    } = places;
    let offset = lost.offset as usize;
    let end = lost.end();
    let last = base + positions * step;
    if end <= base || last <= offset {
        return;
    }
    let low = offset.saturating_sub(base) / step;
    let high = (end - base).div_ceil(step).min(positions);
    marks[low..high].fill(true);
}

// Marks the positions that the erasures of a list touch.
fn mark(marks: &mut [bool], erasures: &[u8], places: Places)
    requires { (marks.old ≡ replicate 2048 false) × (places.positions ≤ 2048) }
    ensures { marks.new ≡ marks_for places.base places.step places.positions (erasures_in erasures.now) }
{
    let (pairs, _) = erasures.as_chunks::<8>();
    for pair in pairs {
        mark_touched(marks, Erasure::from(*pair), places);
    }
}

// Test 3 of a call that is lent an image of its size: what it reads.
pub fn reading<'a>(
    header: ValidHeader,
    image: &'a [u8],
    erasures: &'a [u8],
) -> Result<Reading<'a>, Refusal>
    requires { length image.now ≡ image_size header.header }
    ensures number { answer_number result ≡ refusal (test (erasures_fit header.header erasures.now) 3 done) }
    ensures same { Reads header.header image.now erasures.now result }
{
    if !erasures_fit(erasures, image.len()) {
        return Err(Refusal::ErasureList);
    }
    Ok(Reading {
        header,
        image,
        erasures,
    })
}

// Tests 2 and 3 of a call that is lent an image, an output of `row` words for each record, and a scratch.
pub fn check_sized<'a>(
    header: ValidHeader,
    image: &'a [u8],
    erasures: &'a [u8],
    row: usize,
    out: usize,
    scratch: usize,
) -> Result<Reading<'a>, Refusal>
    requires { row ≤ suc header.header.s }
    ensures number { answer_number result ≡
        refusal (image_tests header.header image.now erasures.now
        (eqb out (record_count header.header * row) && eqb scratch (scratch_size header.header)) done) }
    ensures same { Reads header.header image.now erasures.now result }
{
    if image.len() != header.image_size()
        || out != header.rows_size(row)
        || scratch != header.scratch_size()
    {
        return Err(Refusal::Length);
    }
    reading(header, image, erasures)
}

// Tests 1, 2 and 3 of such a call.
pub fn check<'a>(
    header: Header,
    image: &'a [u8],
    erasures: &'a [u8],
    row: usize,
    out: usize,
    scratch: usize,
) -> Result<Reading<'a>, Refusal>
    requires { row ≤ suc header.s }
    ensures number { answer_number result ≡
        refusal (image_tests header image.now erasures.now (eqb out (record_count header * row) && eqb scratch (scratch_size header)) done) }
    ensures same { Reads header image.now erasures.now result }
{
    let valid = ValidHeader::try_from(header)?;
    check_sized(valid, image, erasures, row, out, scratch)
}

// Marks the erased positions of a stripe.
pub fn mark_stripe(header: ValidHeader, erasures: &[u8], level: usize, marks: &mut [bool])
    requires level { level ≤ header.header.k }
    requires marks_value { marks.old ≡ replicate 2048 false }
    ensures { marks.new ≡ marks_of header.header (erasures_in erasures.now) level }
{
    let base = 4 * header.stripe_at(level);
    let step = 4 * header.width();
    let positions = code::number::two_to(level + 1);
    let places = Places {
        base,
        step,
        positions,
    };
    mark(marks, erasures, places);
}

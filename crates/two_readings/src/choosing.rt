// The tests of the calls that are lent two readings, and the calls that give one stripe of the reading that it is taken from: where it stands, and its bytes.
ghost use Rattle.std.specs.Prelude.{◌≡◌, true};
ghost use Rattle.layout.specs.Refusals.{done, refusal, answer_number, read_part};
ghost use Rattle.two_readings.specs.TwoTests.{two_tests};
ghost use Rattle.two_readings.specs.ShelfOfTwoCall.{shelf_of_two_number, shelf_of_two_part, place_given, place_of_two};
ghost use Rattle.two_readings.specs.steps.Pairs.{ReadsTwo};

use crate::TwoReadings;
use layout::{Header, Refusal, ValidHeader};

// Where a stripe stands: in which reading, 0 for the first and 1 for the second, from which byte of its image on, and how many bytes it has.
#[derive(Clone, Copy, Debug, PartialEq, Eq)]
pub struct Place {
    pub reading: u32,
    pub start: usize,
    pub count: usize,
}

// Tests 2 (the images), 3 and 13.
pub fn check<'a>(
    header: ValidHeader,
    image1: &'a [u8],
    erasures1: &'a [u8],
    image2: &'a [u8],
    erasures2: &'a [u8],
) -> Result<TwoReadings<'a>, Refusal>
    ensures number { answer_number result ≡
        refusal (two_tests header.header image1.now erasures1.now image2.now erasures2.now true done) }
    ensures same { ReadsTwo header.header image1.now erasures1.now image2.now erasures2.now result }
{
    let size = header.image_size();
    if image1.len() != size || image2.len() != size {
        return Err(Refusal::Length);
    }
    let first = image::erasures::reading(header, image1, erasures1)?;
    let second = image::erasures::reading(header, image2, erasures2)?;
    crate::agreeing::compare(first, second)
}

// Tests 1, 2, 3, 13 and 6.
fn check_stripe<'a>(
    header: Header,
    image1: &'a [u8],
    erasures1: &'a [u8],
    image2: &'a [u8],
    erasures2: &'a [u8],
    stripe: u32,
) -> Result<TwoReadings<'a>, Refusal>
    ensures number { answer_number result ≡
        shelf_of_two_number header image1.now erasures1.now image2.now erasures2.now stripe }
    ensures same { ReadsTwo header image1.now erasures1.now image2.now erasures2.now result }
{
    let valid = ValidHeader::try_from(header)?;
    let readings = check(valid, image1, erasures1, image2, erasures2)?;
    if !valid.has_stripe(stripe) {
        return Err(Refusal::NoStripe);
    }
    Ok(readings)
}

// Where a stripe stands of the two readings. Tests 1, 2 (the images), 3, 13, 6.
pub fn place_of_two(
    header: Header,
    image1: &[u8],
    erasures1: &[u8],
    image2: &[u8],
    erasures2: &[u8],
    stripe: u32,
) -> Result<Place, Refusal>
    ensures value { answer_number result ≡ shelf_of_two_number header image1.now erasures1.now image2.now erasures2.now stripe }
    ensures place { place_given result ≡ place_of_two header image1.now erasures1.now image2.now erasures2.now stripe }
{
    let readings = check_stripe(header, image1, erasures1, image2, erasures2, stripe)?;
    let valid = readings.first.header;
    let level = stripe as usize;
    Ok(Place {
        reading: u32::from(readings.takes_second[level]),
        start: 4 * valid.stripe_at(level),
        count: 4 * code::number::two_to(level + 1) * valid.width(),
    })
}

// The bytes of a stripe, a part of one of the two images. Tests 1, 2 (the images), 3, 13, 6.
pub fn shelf_of_two<'a>(
    header: Header,
    image1: &'a [u8],
    erasures1: &[u8],
    image2: &'a [u8],
    erasures2: &[u8],
    stripe: u32,
) -> Result<&'a [u8], Refusal>
    ensures value { answer_number result ≡ shelf_of_two_number header image1.now erasures1.now image2.now erasures2.now stripe }
    ensures part { read_part result ≡ shelf_of_two_part header image1.now erasures1.now image2.now erasures2.now stripe }
{
    let place = place_of_two(header, image1, erasures1, image2, erasures2, stripe)?;
    let image = if place.reading == 1 { image2 } else { image1 };
    Ok(&image[place.start..place.start + place.count])
}

// Words and marks from standard input.
ghost use Rattle.std.specs.Prelude.{◌≡◌, ◌<◌, length};
ghost use Rattle.field.specs.Field.{fermat};
ghost use Rattle.test_stripes.specs.Input.{Loaded};

use std::io::Read;
use test_case_buffers::input;

// A word of three bytes, low byte first; 0 where it is not below p.
fn word(input: &mut impl Read) -> u32
    ensures { result < fermat.modulus }
{
    let [low, middle, high] = input::bytes::<3>(input);
    let all = u32::from_le_bytes([low, middle, high, 0]);
    if all < field::MODULUS { all } else { 0 }
}

// Reads all words of the part.
pub(crate) fn words(input: &mut impl Read, part: &mut [u32])
    ensures { Loaded (length part.old) part.old part.new }
{
    for x in part {
        *x = word(input);
    }
}

// Reads all marks, a byte each.
pub(crate) fn marks(input: &mut impl Read, marks: &mut [bool])
    ensures { length marks.new ≡ length marks.old }
{
    for mark in marks {
        let [byte] = input::bytes::<1>(input);
        *mark = byte == 1;
    }
}

// Test 13: two readings of one rack compared, and with it the choice of the one that each stripe is taken from, since both need the marks of both.
ghost use Rattle.std.specs.Prelude.{◌≡◌, ◌+◌, ◌*◌, ◌^◌, ◌≤◌, ◌<◌, suc, length, IfOk};
ghost use Rattle.layout.specs.Refusals.{done, test, refusal, answer_number};
ghost use Rattle.image.specs.Erasures.{erasures_in, marks_of};
ghost use Rattle.stripe_decoding.specs.Decoding.{positions_left};
ghost use Rattle.two_readings.specs.Agreeing.{same_words, stripe_agrees, readings_agree};
ghost use Rattle.two_readings.specs.Choosing.{second_has_more};

use crate::TwoReadings;
use image::Reading;
use image::source::Source;
use layout::Refusal;

// Whether as many words from word `at` on are the same in both images.
fn same_words(first: &[u8], second: &[u8], at: usize, count: usize) -> bool
    requires inside { (4 * (at + count) ≤ length first.now) × (4 * (at + count) ≤ length second.now) }
    ensures { result ≡ same_words first.now second.now at count }
{
    // No early end: a loop that has none takes several words at a time.
    let mut same = true;
    for j in 0..count {
        if first.word(at + j) != second.word(at + j) {
            same = false;
        }
    }
    same
}

// Compares the positions of a stripe that neither list erases; the marks are those of the two lists.
fn stripe_agrees(
    first: Reading,
    second: Reading,
    level: usize,
    first_marks: &[bool],
    second_marks: &[bool],
) -> bool
    requires within { level ≤ first.header.header.k }
    requires one_header { second.header.header ≡ first.header.header }
    requires marks_of_first { first_marks.now ≡ marks_of first.header.header (erasures_in first.erasures.now) level }
    requires marks_of_second { second_marks.now ≡ marks_of first.header.header (erasures_in second.erasures.now) level }
    ensures { result ≡
        stripe_agrees first.entry.header.header first.entry.image.now first.entry.erasures.now second.entry.image.now second.entry.erasures.now level }
{
    let width = first.header.width();
    let start = first.header.stripe_at(level);
    let positions = code::number::two_to(level + 1);
    for i in 0..positions {
        let erased = first_marks[i] || second_marks[i];
        if !erased && !same_words(first.image, second.image, start + i * width, width) {
            return false;
        }
    }
    true
}

// The same where neither list erases a position: in one run over the stripe's words, which is faster than position by position.
fn whole_stripe_agrees(first: Reading, second: Reading, level: usize) -> bool
    requires within { level ≤ first.header.header.k }
    requires one_header { second.header.header ≡ first.header.header }
    requires first_whole { positions_left first.header.header (erasures_in first.erasures.now) level ≡ 2 ^ suc level }
    requires second_whole { positions_left first.header.header (erasures_in second.erasures.now) level ≡ 2 ^ suc level }
    ensures { result ≡
        stripe_agrees first.entry.header.header first.entry.image.now first.entry.erasures.now second.entry.image.now second.entry.erasures.now level }
{
    let start = first.header.stripe_at(level);
    let size = code::number::two_to(level + 1) * first.header.width();
    same_words(first.image, second.image, start, size)
}

// Compares a stripe of two readings, 13 where they differ, and tells whether the second has more of its positions left.
fn compare_stripe(first: Reading, second: Reading, level: usize) -> Result<bool, Refusal>
    requires within { level ≤ first.header.header.k }
    requires one_header { second.header.header ≡ first.header.header }
    ensures number { answer_number result ≡
        refusal (test (stripe_agrees first.entry.header.header first.entry.image.now first.entry.erasures.now
        second.entry.image.now second.entry.erasures.now level) 13 done) }
    ensures more { IfOk result (λ b. b ≡ second_has_more first.entry.header.header first.entry.erasures.now second.entry.erasures.now level) }
{
    let mut first_marks = [false; 2048];
    let mut second_marks = [false; 2048];
    first.mark(level, &mut first_marks);
    second.mark(level, &mut second_marks);
    let first_left = judging::counting::positions_left(&first_marks, level);
    let second_left = judging::counting::positions_left(&second_marks, level);
    // all positions of both
    let all = 2 * code::number::two_to(level + 1);
    let agree = if first_left + second_left == all {
        whole_stripe_agrees(first, second, level)
    } else {
        stripe_agrees(first, second, level, &first_marks, &second_marks)
    };
    if !agree {
        return Err(Refusal::ReadingsDiffer);
    }
    Ok(first_left < second_left)
}

// Compares two readings on the full stripe and the filled levels, 13 where they differ, and chooses for each of these the one that it is taken from.
pub fn compare<'a>(first: Reading<'a>, second: Reading<'a>) -> Result<TwoReadings<'a>, Refusal>
    requires { second.header.header ≡ first.header.header }
    ensures number { answer_number result ≡
        refusal (test (readings_agree first.entry.header.header first.entry.image.now first.entry.erasures.now
        second.entry.image.now second.entry.erasures.now) 13 done) }
    ensures same { IfOk result (λ r. (r.first ≡ first.entry) × (r.second ≡ second.entry)) }
{
    let header = first.header;
    let mut takes_second = [false; 11];
    // by index: a stripe's choice stands at its number
    for level in 0..header.header.k + 1 {
        if header.has_stripe(level) {
            takes_second[level as usize] = compare_stripe(first, second, level as usize)?;
        }
    }
    Ok(TwoReadings {
        first,
        second,
        takes_second,
    })
}

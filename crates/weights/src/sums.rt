// The logarithms of the positions at the beginning of their array, a digit at a time. The first words of the part hold the mixed marks.
ghost use Rattle.std.specs.Prelude.{◌≡◌, suc, ◌*◌, ◌-◌, ◌%◌, ◌^◌, ◌≤◌, length, take, drop};
ghost use Rattle.field.specs.Field.{fermat};
ghost use Rattle.field.specs.Words.{Words, table};
ghost use Rattle.code.specs.steps.Storing.{stored, always};
ghost use Rattle.weights.specs.steps.Digits.{Holds, mixed_flags, powers_to, added_at, with_sums};

use crate::columns::{self, Digit};
use crate::exponents::{Marks, Positions};
use mixing::direction::Mixing;

// The sum of the logarithms of the erased points: at most 2,048 numbers of 16 bits. A loop, since a fold has no place for the bound of the sum so far.
pub fn powers_sum(marks: Marks) -> u32
    ensures { result ≡ powers_to marks.entry.at.level marks.entry.erased.now (2 ^ suc marks.entry.at.level) }
{
    let at = marks.at;
    let count = at.count();
    let mut sum: u32 = 0;
    for (i, mark) in marks.erased[..count].iter().enumerate() {
        sum += u32::from(*mark) * at.log_of_power(at.exponent(i));
    }
    sum
}

// The mixed marks in the first words of the part, and what all logarithms share at each position.
pub fn start(logs: &mut [u32], part: &mut [u32], marks: Marks)
    requires logs_len { 2 ^ suc marks.at.level ≤ length logs.old }
    requires room { 2 ^ suc marks.at.level ≤ length part.old }
    ensures { let level = marks.entry.at.level in
        Holds level logs.new part.new (mixed_flags level marks.entry.erased.now)
        (table (2 ^ suc level) (always (powers_to level marks.entry.erased.now (2 ^ suc level) % (fermat.modulus - 1))))
        (drop (2 ^ suc level) logs.old) }
{
    let at = marks.at;
    let count = at.count();
    columns::load_flags(&mut part[..count], marks);
    columns::cross::<Mixing>(&mut part[..count], at);
    logs[..count].fill(powers_sum(marks) % 65536);
}

// Adds the sums of a digit, which stand behind the mixed marks, to the words at the positions. The sums have a common factor, as many as there are positions.
fn add_sums(logs: &mut [u32], part: &[u32], at: Positions, digit: Digit)
    requires unit_bound { digit.unit ≤ 4096 }
    requires logs_len { 2 ^ suc at.level ≤ length logs.old }
    requires room { 2 * 2 ^ suc at.level ≤ length part.now }
    requires words { Words fermat.modulus (take (2 ^ suc at.level) (drop (2 ^ suc at.level) part.now)) }
    requires words_2 { Words (fermat.modulus - 1) (take (2 ^ suc at.level) logs.old) }
    ensures { logs.new ≡ stored 0 (added_at at.level digit.unit part.now logs.old) (2 ^ suc at.level) logs.old }
{
    let count = at.count();
    let inverse = field::inverse(count as u32);
    for (i, log) in logs[..count].iter_mut().enumerate() {
        let from = count + at.reversed(at.exponent(i));
        *log = (*log + digit.unit * field::mul(inverse, part[from])) % 65536;
    }
}

// Adds a digit of the logarithms to the words at the positions. The first words of the part stay; those behind them are open.
pub fn add_digit(logs: &mut [u32], part: &mut [u32], at: Positions, digit: Digit)
    requires unit_bound { digit.unit ≤ 4096 }
    requires logs_len { 2 ^ suc at.level ≤ length logs.old }
    requires room { 2 * 2 ^ suc at.level ≤ length part.old }
    requires words { Words fermat.modulus (take (2 ^ suc at.level) part.old) }
    requires words_2 { Words (fermat.modulus - 1) (take (2 ^ suc at.level) logs.old) }
    ensures { Holds at.level logs.new part.new (take (2 ^ suc at.level) part.old)
        (with_sums at.level digit.unit (take (2 ^ suc at.level) part.old) (take (2 ^ suc at.level) logs.old))
        (drop (2 ^ suc at.level) logs.old) }
{
    let both = 2 * at.count();
    columns::store_sums(&mut part[..both], at, digit);
    add_sums(logs, part, at, digit);
}

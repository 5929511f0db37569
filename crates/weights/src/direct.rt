// The logarithms by sums made directly, for few positions: there the transforms cost more than the sums. The sums are made for all exponents at once, so
// that an erased position adds one row of terms that stand side by side: the terms u^d - 1 for all differences d of exponents, twice, stand behind the sums.
ghost use Rattle.std.specs.Prelude.{◌≡◌, ◌++◌, ℕ, suc, ◌+◌, ◌*◌, ◌^◌, ◌≤◌, ◌<◌, length, get_or, drop};
ghost use Rattle.field.specs.Words.{table};
ghost use Rattle.code.specs.steps.Storing.{stored};
ghost use Rattle.logarithms.specs.Weights.{log_of_less};
ghost use Rattle.logarithms.specs.Weights as Weights;
ghost use Rattle.weights.specs.steps.Direct.{Sums, direct_at};

use crate::exponents::{Marks, Positions};
use crate::sums;

// The logarithms of u^d - 1 for all exponents d, behind the first words.
fn load_terms(part: &mut [u32], at: Positions)
    requires { 2 * 2 ^ suc at.level ≤ length part.old }
    ensures { part.new ≡ stored (2 ^ suc at.level) (log_of_less at.level) (2 ^ suc at.level) part.old }
{
    let count = at.count();
    for (d, term) in part[count..2 * count].iter_mut().enumerate() {
        *term = at.log_of_less(d);
    }
}

// Adds to each sum the term in its place.
fn add_row(sums: &mut [u32], terms: &[u32])
    requires terms_len { length terms.now ≡ length sums.old }
    requires by_index { (e : ℕ) → e < length sums.old → get_or sums.old e 0 + get_or terms.now e 0 < 4294967296 }
    ensures { sums.new ≡ table (length sums.old) (λ e. get_or sums.old e 0 + get_or terms.now e 0) }
{
    for (e, sum) in sums.iter_mut().enumerate() {
        *sum += terms[e];
    }
}

// Adds the rows of all erased positions. What stands behind the terms is open.
fn add_rows(part: &mut [u32], marks: Marks)
    requires room { 3 * 2 ^ suc marks.at.level ≤ length part.old }
    requires sums { Sums marks.at.level marks.erased.now 0 part.old }
    ensures { Sums marks.entry.at.level marks.entry.erased.now (2 ^ suc marks.entry.at.level) part.new }
{
    let count = marks.at.count();
    let (sums, terms) = part.split_at_mut(count);
    for (j, mark) in marks.erased[..count].iter().enumerate() {
        if *mark {
            let f = marks.at.exponent(j);
            let ahead = count - f;
            add_row(sums, &terms[ahead..ahead + count]);
        }
    }
}

// The logarithm of each position: the sum at its exponent, which the part begins with, and what all logarithms share.
fn store_words(logs: &mut [u32], part: &[u32], at: Positions, shared: u32)
    requires logs_len { 2 ^ suc at.level ≤ length logs.old }
    requires room { 2 ^ suc at.level ≤ length part.now }
    requires by_index { (e : ℕ) → e < 2 ^ suc at.level → shared + get_or part.now e 0 < 4294967296 }
    ensures { logs.new ≡ stored 0 (direct_at at.level shared part.now) (2 ^ suc at.level) logs.old }
{
    let count = at.count();
    for (i, log) in logs[..count].iter_mut().enumerate() {
        let from = at.exponent(i);
        *log = (shared + part[from]) % 65536;
    }
}

// Stores the logarithms of all positions at the beginning of their array. What is left in the part is open.
pub fn store_direct(logs: &mut [u32], part: &mut [u32], marks: Marks)
    requires logs_len { 2 ^ suc marks.at.level ≤ length logs.old }
    requires room { 3 * 2 ^ suc marks.at.level ≤ length part.old }
    ensures { logs.new ≡ Weights.logs marks.entry.at.level marks.entry.erased.now ++ drop (2 ^ suc marks.entry.at.level) logs.old }
{
    let at = marks.at;
    let count = at.count();
    part[..count].fill(0);
    load_terms(part, at);
    part.copy_within(count..2 * count, 2 * count);
    add_rows(part, marks);
    store_words(logs, part, at, sums::powers_sum(marks));
}

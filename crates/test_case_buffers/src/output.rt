// What a call left, in decimal on standard output. What cannot be written is lost.
use std::fmt;
use std::fmt::Display;
use std::io::Print;

// Numbers, a space before each.
#[derive(Clone, Copy)]
struct Numbers<'a>(&'a [u32]);

impl Display for Numbers<'_> {
    fn fmt<W: fmt::Write>(&self, f: &mut fmt::Formatter<W>) -> fmt::Result {
        for n in self.0 {
            write!(f, " {n}")?;
        }
        Ok(())
    }
}

// How many elements there are, and their checksum, a polynomial in 69069 modulo 2^32.
#[derive(Clone, Copy)]
struct Checksum<'a, T>(&'a [T]);

impl<T: Copy + Into<u32>> Display for Checksum<'_, T> {
    fn fmt<W: fmt::Write>(&self, f: &mut fmt::Formatter<W>) -> fmt::Result {
        let count = self.0.len();
        let sum = self.0.iter().fold(0u32, |sum, &x| {
            sum.wrapping_mul(69069)
                .wrapping_add(x.into())
                .wrapping_add(1)
        });
        write!(f, " #{count} {sum}")
    }
}

// A line: a name and what goes with it.
pub fn line<N: Display + Drop, D: Display + Drop>(out: &impl Print, name: N, shown: D) {
    let _ = println!(out; "{name}{shown}");
}

// A line: a name, or a number, and all numbers.
pub fn all<N: Display + Drop>(out: &impl Print, name: N, numbers: &[u32]) {
    line(out, name, Numbers(numbers));
}

// A line: a buffer's name, how many elements it has, and their checksum.
pub fn sum<T: Copy + Into<u32>>(out: &impl Print, name: &str, part: &[T]) {
    line(out, name, Checksum(part));
}

// A line: a buffer's name, and its words, or their count and checksum where there are more than 16.
pub fn words(out: &impl Print, name: &str, part: &[u32]) {
    if 16 < part.len() {
        sum(out, name, part);
    } else {
        all(out, name, part);
    }
}

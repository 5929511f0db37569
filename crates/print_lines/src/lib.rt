// What the programs that print share: texts put into a buffer (`putting`). And of those that print tables: the powers of a power of 3, numbers as text, one
// to a line (`lines`, specs/Text), and the printing of a table.
#![tactic(auto)]

ghost use Rattle.std.specs.Prelude.{◌≡◌, ◌∷◌, [], ◌++◌, ◌+◌, ◌*◌, ◌≤◌, ◌<◌, List, ℕ, All, length, take};
ghost use Rattle.field.specs.Power.{power};
ghost use Rattle.field.specs.Field.{fermat, powers_of};
ghost use Rattle.print_lines.specs.Text.{lines};

pub mod putting;

use putting::put_number;
use std::io;

// The powers of 3^step, from that at 0 on; each is the one before times 3^step.
pub fn powers_of_three(step: u32) -> [u32; 2048]
    ensures powers { result ≡ powers_of fermat.modulus (power fermat.modulus fermat.generator step) 2048 }
    ensures words { All (λ y. y < fermat.modulus) result }
{
    let x = field::power(3, step);
    let mut powers = [0; 2048];
    let mut power = 1;
    for entry in powers.iter_mut() {
        *entry = power;
        power = field::mul(x, power);
    }
    powers
}

// Puts the line of a number of at most five digits into the buffer from index `at` on, and gives the index after it. In a buffer that is lent, since a String
// could fail for want of memory.
pub fn put_line(out: &mut [u8], at: usize, n: u32) -> usize
    requires { (n < 100000) × (at + 6 ≤ length out.old) }
    ensures upper_bound { result ≤ at + 6 }
    ensures out_after { take result out.new ≡ take at out.old ++ lines (n ∷ []) }
{
    let end = put_number(out, at, n);
    out[end] = b'\n';
    end + 1
}

// Puts the lines of numbers of at most five digits into the buffer, from its first byte on, and gives their length.
fn put_lines(out: &mut [u8], numbers: &[u32]) -> usize
    requires five_digits { All (λ n. n < 100000) numbers.now }
    requires room { 6 * length numbers.now ≤ length out.old }
    ensures prefix_len { result ≤ length out.new }
    ensures out_after { take result out.new ≡ lines numbers.now }
{
    let mut to = 0;
    for &n in numbers {
        to = put_line(out, to, n);
    }
    to
}

// A table that a program prints, of numbers of at most five digits.
pub trait Table {
    ghost numbers: { List ℕ };

    // Computes its numbers.
    fn compute() -> [u32; 2048]
        ensures entries { result ≡ numbers }
        ensures five_digits { All (λ n. n < 100000) result };
}

// Writes a table's text to standard output. No contract can say what a call writes: this one says what is handed to the call.
fn print_text<T: Table>(rt: &impl Print, text: &[u8]) -> io::Result<()>
    requires { text.now ≡ lines T.numbers }
{
    Print::write_all(rt, text)
}

// Prints a table, computed anew.
pub fn print<T: Table>(rt: &impl Print) -> io::Result<()> {
    let numbers = T::compute();
    let mut text = [0u8; 12288];
    let length = put_lines(&mut text, &numbers);
    print_text::<T>(rt, &text[..length])
}

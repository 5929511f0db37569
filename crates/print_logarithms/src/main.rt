// The program that prints the table of logarithms (`log_table`, logarithms/specs/Logarithms), one number to a line, computed from 3 and 3^32 alone.
#![tactic(auto)]

ghost use Rattle.std.specs.Prelude.{◌≡◌};
ghost use Rattle.field.specs.Field.{fermat};
ghost use Rattle.logarithms.specs.Logarithms.{log_table};
ghost use Rattle.logarithms.specs.Logarithms;

use print_lines::Table;
use std::io;

// Looks for the exponent from 0 up, one product a turn.
fn logarithm(x: u32) -> u32
    ensures { result ≡ Logarithms.logarithm fermat.modulus fermat.generator x }
{
    let mut power = 1;
    // By number: the exponent is what is looked for. `successors` and `position` would carry each power in an Option that is never None.
    for e in 0..65536u32 {
        if power == x {
            return e;
        }
        power = field::mul(3, power);
    }
    // none: the definition says 0
    0
}

// The table of logarithms, each that of a power less 1.
struct Logs;

impl Table for Logs {
    ghost numbers = { log_table };

    fn compute() -> [u32; 2048] {
        print_lines::powers_of_three(32).map(|power| logarithm(field::sub(power, 1)))
    }
}

fn main(rt: HostRuntime) -> io::Result<()> {
    print_lines::print::<Logs>(&rt)
}

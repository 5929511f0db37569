// The program that prints the table of powers (`power_table`, field/specs/Field), one number to a line, computed from 3^32 alone.
#![tactic(auto)]

ghost use Rattle.field.specs.Field.{power_table};

use print_lines::Table;
use std::io;

// The table of powers.
struct Powers;

impl Table for Powers {
    ghost numbers = { power_table };

    fn compute() -> [u32; 2048] {
        print_lines::powers_of_three(32)
    }
}

fn main(rt: HostRuntime) -> io::Result<()> {
    print_lines::print::<Powers>(&rt)
}

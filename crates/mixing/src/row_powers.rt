// The factors of rows, out of a table of powers. It is a field and no constant here, since what crosses rows takes any table of which they are powers.
ghost use Rattle.std.specs.Prelude.{◌≡◌, ◌*◌, ◌/◌, ◌%◌, ◌<◌, get_or};
ghost use Rattle.field.specs.Field.{fermat};
ghost use Rattle.code.specs.steps.Mixing.{RowFactors};

use crate::direction::Power;

// The factors of `rows` rows: powers of an entry of a table, that at `step`. Row i's is the one i times `step` on, around a table of 2,048.
#[derive(Clone, Copy)]
pub struct RowPowers<'a> {
    pub table: &'a [u32],
    pub rows: usize,
    pub step: usize,
    pub ghost factors: { RowFactors fermat.modulus rows step table.now },
}

impl<'a> RowPowers<'a> {
    // The factor of row i.
    pub fn of(self, i: usize) -> Power
        requires { i < self.rows }
        ensures { result.g ≡ get_or self.entry.table.now (i * self.entry.step % 2048) 0 }
    {
        Power {
            g: self.table[i * self.step % 2048],
        }
    }

    // The factors of the first half of the rows.
    pub fn half(self) -> RowPowers<'a>
        ensures { (result.rows ≡ self.entry.rows / 2) × (result.step ≡ self.entry.step) × (result.table.now ≡ self.entry.table.now) }
    {
        RowPowers {
            table: self.table,
            rows: self.rows / 2,
            step: self.step,
        }
    }
}

// A row is multiplied by a factor (crate mixing): by one that is not -1, or by any word, whose products need a case for -1 times -1.
ghost use Rattle.std.specs.Prelude.{◌<◌};
ghost use Rattle.field.specs.Field.{fermat};

use mixing::direction::Factor;

// Any word of the field, as a factor.
#[derive(Clone, Copy)]
pub struct Word {
    pub value: u32,
    ghost in_field: { value < fermat.modulus },
}

impl Factor for Word {
    ghost value = { λ g. g.value };

    fn product(self, y: u32) -> u32 {
        field::mul(self.value, y)
    }
}

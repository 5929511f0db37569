// Powers of 3 from tables.
ghost use Rattle.std.specs.Prelude.{◌≡◌, ◌-◌, ◌<◌};
ghost use Rattle.field.specs.Power.{power};
ghost use Rattle.field.specs.Field.{fermat};

// 3^e as a product of two entries: by the digits of e to the base 32, since the table of powers holds those of 3^32.
pub fn power_of_three(e: u32) -> u32
    requires { e < fermat.modulus - 1 }
    ensures { result ≡ power fermat.modulus fermat.generator e }
{
    let high = code::table_65537::powers();
    let low = crate::table_65537::threes();
    field::mul(high[(e / 32) as usize], low[(e % 32) as usize])
}

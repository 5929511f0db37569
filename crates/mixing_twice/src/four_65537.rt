// Four words, one of each of four rows: the sums and differences that two levels of mixing, or of unmixing, come to. They are reduced where they are
// given back, and not between the levels: the contracts say what a result is modulo p. 256 is a square root of -1.
// The bound of a word that is not reduced stays a clause, and four words are four parameters: a type for the bound, or an array, would be made and taken apart
// in each line of `cross_four`.
ghost use Rattle.std.specs.Prelude.{◌≡◌, ◌+◌, ◌*◌, ◌-◌, ◌%◌, ◌≤◌, ◌<◌};
ghost use Rattle.field.specs.Residue.{times};
ghost use Rattle.field.specs.Field.{fermat};

// The product of a factor that is not -1 and a word, but for a multiple of p: for a product that is only summed.
pub(crate) fn unreduced_mul(g: u32, y: u32) -> u32
    requires { (g < fermat.modulus - 1) × (y < fermat.modulus) }
    ensures { (result ≤ 131072) × (result % fermat.modulus ≡ times fermat.modulus g y) }
{
    let t = g * y;
    t % 65536 + (65537 - t / 65536)
}

// 256 (z - w) + 1024: the difference turned, that is, times a square root of -1
pub(crate) fn shifted(z: u32, w: u32) -> u32
    requires { (z ≤ 131072) × (w ≤ 131072) }
    ensures { (result ≤ 66304) × ((result + 256 * w) % fermat.modulus ≡ (256 * z + 1024) % fermat.modulus) }
{
    let u = z + (131074 - w);
    u % 256 * 256 + (1024 - u / 256)
}

// a + y + z + w
pub(crate) fn sum(a: u32, y: u32, z: u32, w: u32) -> u32
    requires { (a < fermat.modulus) × (y ≤ 131072) × (z ≤ 131072) × (w ≤ 131072) }
    ensures { (result < fermat.modulus) × (result % fermat.modulus ≡ (a + y + (z + w)) % fermat.modulus) }
{
    field::reduce(a + y + (z + w))
}

// a + y - z - w
pub(crate) fn difference(a: u32, y: u32, z: u32, w: u32) -> u32
    requires { (a < fermat.modulus) × (y ≤ 131072) × (z ≤ 131072) × (w ≤ 131072) }
    ensures { (result < fermat.modulus) × ((result + (z + w)) % fermat.modulus ≡ (a + y) % fermat.modulus) }
{
    field::reduce(a + y + (262148 - (z + w)))
}

// a - y - (turned - 1024)
pub(crate) fn turned_difference(a: u32, y: u32, turned: u32) -> u32
    requires { (a < fermat.modulus) × (y ≤ 131072) × (turned ≤ 66304) }
    ensures { (result < fermat.modulus) × ((result + y + turned) % fermat.modulus ≡ (a + 1024) % fermat.modulus) }
{
    field::reduce(a + (131074 - y) + (66561 - turned))
}

// a - y + (turned - 1024)
pub(crate) fn turned_sum(a: u32, y: u32, turned: u32) -> u32
    requires { (a < fermat.modulus) × (y ≤ 131072) × (turned ≤ 66304) }
    ensures { (result < fermat.modulus) × ((result + y + 1024) % fermat.modulus ≡ (a + turned) % fermat.modulus) }
{
    field::reduce(a + (131074 - y) + 64513 + turned)
}

// Arithmetic on words of the field of p = 65537 elements: a word is a u32 below p, each result is the definition's, modulo p, and every number on the way
// to it is held in 32 bits. That a word is below p stays a clause: words stand in buffers of u32, which the C interface lends.
#![tactic(auto)]

pub mod short_65537;

ghost use Rattle.std.specs.Prelude.{◌≡◌, ◌%◌, ◌<◌, ◌≤◌};
ghost use Rattle.field.specs.Residue.{plus, minus, times};
ghost use Rattle.field.specs.Power;
ghost use Rattle.field.specs.Field.{fermat};

// p. In contracts it is `fermat.modulus`.
pub const MODULUS: u32 = 65537;

// x - y, where y may be p itself. A difference that wraps has its top bit set exactly where it is negative: p is added there, without a comparison.
fn difference(x: u32, y: u32) -> u32
    requires { (x < fermat.modulus) × (y ≤ fermat.modulus) }
    ensures { result ≡ minus fermat.modulus x y }
{
    let d = x.wrapping_sub(y);
    d.wrapping_add(d / 2147483648 * MODULUS)
}

pub fn add(x: u32, y: u32) -> u32
    requires { (x < fermat.modulus) × (y < fermat.modulus) }
    ensures { result ≡ plus fermat.modulus x y }
{
    difference(x, MODULUS - y)
}

pub fn sub(x: u32, y: u32) -> u32
    requires { (x < fermat.modulus) × (y < fermat.modulus) }
    ensures { result ≡ minus fermat.modulus x y }
{
    difference(x, y)
}

// Any number modulo p: 65536 = p - 1 is -1, so it is the difference of its halves. Not by `%`, which the compiler makes a product of 64 bits.
pub fn reduce(t: u32) -> u32
    ensures { result ≡ t % fermat.modulus }
{
    let lo = t % 65536;
    let hi = t / 65536;
    if hi <= lo {
        lo - hi
    } else {
        lo + (MODULUS - hi)
    }
}

// The product of any two words. Only -1 times -1 leaves 32 bits, and it is 1.
pub fn mul(x: u32, y: u32) -> u32
    requires { (x < fermat.modulus) × (y < fermat.modulus) }
    ensures { result ≡ times fermat.modulus x y }
{
    if x == 65536 && y == 65536 {
        1
    } else {
        reduce(x * y)
    }
}

pub fn power(x: u32, e: u32) -> u32
    requires { x < fermat.modulus }
    ensures { result ≡ Power.power fermat.modulus x e }
{
    let mut acc = 1;
    let mut base = x;
    let mut rest = e;
    while rest != 0 {
        if rest % 2 == 1 {
            acc = mul(acc, base);
        }
        base = mul(base, base);
        rest /= 2;
    }
    acc
}

// The inverse of a word that is not 0, which is its power at p - 2 = 65535; of 0 it is 0.
pub fn inverse(x: u32) -> u32
    requires { x < fermat.modulus }
    ensures { result ≡ Power.inverse fermat.modulus x }
{
    power(x, 65535)
}

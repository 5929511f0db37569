// Positions and their marks, the exponents of their points, and the logarithms that an exponent gives.
ghost use Rattle.std.specs.Prelude.{◌≡◌, suc, ◌^◌, ◌≤◌, ◌<◌, length};
ghost use Rattle.code.specs.Transform as Transform;
ghost use Rattle.logarithms.specs.Weights.{exponent_at, log_of_power, log_of_less};
ghost use Rattle.weights.specs.steps.Digits.{position_at};

// The positions of a stripe of 2^level blocks.
#[derive(Clone, Copy)]
pub struct Positions {
    pub level: usize,
    ghost few: { level ≤ 10 },
}

// The marks of the positions, true where one is erased. What follows them is not read: an image's marks have room for the largest stripe.
#[derive(Clone, Copy)]
pub struct Marks<'a> {
    pub at: Positions,
    pub erased: &'a [bool],
    ghost enough: { 2 ^ suc at.level ≤ length erased.now },
}

impl Positions {
    // How many there are.
    pub fn count(self) -> usize
        ensures { result ≡ 2 ^ suc self.level }
    {
        code::number::two_to(self.level + 1)
    }

    // Where the word of exponent e stands, and the exponent of the word that stands there.
    pub fn reversed(self, e: usize) -> usize
        ensures { result ≡ Transform.reversed (suc self.level) e }
    {
        code::number::reversed(self.level + 1, e) as usize
    }

    // The exponent of a position's point: the points of X have the even ones.
    pub fn exponent(self, i: usize) -> usize
        requires { i < 2 ^ suc self.level }
        ensures { result ≡ exponent_at self.level i }
    {
        let half = code::number::two_to(self.level);
        if i < half { 2 * i } else { 2 * (i - half) + 1 }
    }

    // The position whose point has the exponent e.
    pub fn position(self, e: usize) -> usize
        requires { e < 2 ^ suc self.level }
        ensures { result ≡ position_at self.level e }
    {
        if e % 2 == 0 {
            e / 2
        } else {
            code::number::two_to(self.level) + e / 2
        }
    }

    // The logarithm of u^e: u is 3^32 to the power 1024 / 2^level.
    pub fn log_of_power(self, e: usize) -> u32
        requires { e < 2 ^ suc self.level }
        ensures { result ≡ log_of_power self.level e }
    {
        (32 * (1024 / code::number::two_to(self.level)) * e) as u32
    }

    // The logarithm of u^d - 1.
    pub fn log_of_less(self, d: usize) -> u32
        requires { d < 2 ^ suc self.level }
        ensures { result ≡ log_of_less self.level d }
    {
        logarithms::table_65537::logarithms()[d * (1024 / code::number::two_to(self.level))]
    }
}

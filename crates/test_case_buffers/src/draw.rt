// Numbers that are drawn from a seed.
ghost use Rattle.std.specs.Prelude.{◌<◌};

// The number drawn after another: 48271 generates the residues modulo the prime 2^31 - 1.
fn drawn(state: u32) -> u32
    ensures { result < 2147483647 }
{
    (u64::from(state) * 48271 % 2147483647) as u32
}

// The numbers after a seed, without end.
#[derive(Drop)]
struct Draw {
    state: u32,
}

impl Draw {
    fn new(seed: u32) -> Draw {
        Draw {
            state: drawn(seed % 2147483646 + 1),
        }
    }
}

impl Iterator for Draw {
    type Item = u32;

    // The state, spread over 32 bits.
    fn next(&mut self) -> Option<u32> {
        let number = self.state.wrapping_mul(65539);
        self.state = drawn(self.state);
        Some(number)
    }
}

// Each element becomes what `of` makes of the next number.
pub(crate) fn fill<T: Copy, F: Fn(u32) -> T>(part: &mut [T], seed: u32, of: F)
    requires { F.IsAlwaysCallable of }
{
    for (x, number) in part.iter_mut().zip(Draw::new(seed)) {
        *x = of(number);
    }
}

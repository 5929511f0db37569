// Bytes, numbers and commands from standard input. Where it has ended, or cannot be read, zeros are read.
use std::io;
use std::io::Read;

// Fills a part with the next bytes.
pub(crate) fn fill(input: &mut impl Read, part: &mut [u8]) {
    part.fill(0);
    let _ = input.read_exact(part);
}

// The next bytes.
pub fn bytes<const N: usize>(input: &mut impl Read) -> [u8; N] {
    let mut bytes = [0; N];
    fill(input, &mut bytes);
    bytes
}

// A number of four bytes, low byte first.
pub fn number(input: &mut impl Read) -> u32 {
    u32::from_le_bytes(bytes(input))
}

// A command: a byte for its kind, and three numbers.
pub fn command(input: &mut impl Read) -> (u8, [u32; 3]) {
    let [kind] = bytes::<1>(input);
    (kind, [number(input), number(input), number(input)])
}

// Goes past so many bytes.
pub(crate) fn skip(input: &mut impl Read, count: usize) {
    let _ = io::copy(&mut input.take(count as u64), &mut io::sink());
}

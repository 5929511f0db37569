// The program `racklist` (docs/FORMAT.md, section 13): lists the vault that standard input describes. Proved is that what is handed to the output is the
// listing of the bytes that were read.
#![tactic(auto)]

ghost use Rattle.std.specs.Prelude.{◌≡◌};
ghost use Rattle.listing.specs.Listing.{listing};

use std::io;
use std::io::{Cursor, Read};

// Reads k, s and the bytes of at most 256 writes, which have at most 34 each. What follows them is not read, nor anything after an s that is refused. An input
// that cannot be read is taken for one that has ended.
fn read(input: &mut impl Read) -> Cursor<[u8; 8706]> {
    let mut bytes = Cursor::new([0; 8706]);
    let _ = io::copy(&mut input.by_ref().take(2), &mut bytes);
    if let [_, s @ 1..=16, ..] = bytes.get_ref() {
        let writes = 256 * (2 + 2 * u64::from(*s));
        let _ = io::copy(&mut input.by_ref().take(writes), &mut bytes);
    }
    bytes
}

// Writes the listing of an input to standard output, which may be closed. No contract can say what a call writes: this one says what is handed to the call,
// and the input is there for it.
fn print_listing(rt: &impl Print, input: &[u8], text: &[u8])
    requires { text.now ≡ listing input.now }
{
    let _ = Print::write_all(rt, text);
}

fn main(rt: HostRuntime) {
    let bytes = read(&mut rt.reader());
    let count = bytes.position().min(8706) as usize;
    let input = &bytes.get_ref()[..count];
    // room for every listing: at most 126 lines of 107 bytes
    let mut text = [0; 13482];
    let length = listing::list(input, &mut text);
    print_listing(&rt, input, &text[..length]);
}

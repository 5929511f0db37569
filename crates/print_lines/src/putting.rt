// Texts put into a lent buffer as far as they fit: what cannot fail, and says of each byte what the buffer then holds. No clause of the kit says that an
// `InlineText` leaves a text uncut for which it has room.
ghost use Rattle.std.specs.Prelude.{◌≡◌, ◌≤◌, length};
ghost use Rattle.print_lines.specs.Putting.{put, put_end};
ghost use Rattle.print_lines.specs.Text.{decimal};

use itoa::Buffer;

// Puts a text into the buffer from index `at` on, as far as it fits, and gives the index behind it.
pub fn put(out: &mut [u8], at: usize, text: &[u8]) -> usize
    requires { at ≤ length out.old }
    ensures value { result ≡ put_end out.old at text.now }
    ensures out_after { out.new ≡ put out.old at text.now }
{
    let count = text.len().min(out.len() - at);
    let end = at + count;
    out[at..end].copy_from_slice(&text[..count]);
    end
}

// Puts a number in decimal: `itoa` writes what `{n}` does, and cannot fail.
pub fn put_number(out: &mut [u8], at: usize, n: u32) -> usize
    requires { at ≤ length out.old }
    ensures value { result ≡ put_end out.old at (decimal n) }
    ensures out_after { out.new ≡ put out.old at (decimal n) }
{
    let mut buffer = Buffer::new();
    put(out, at, buffer.format(n).as_bytes())
}

// The text of a listing, put into a buffer as far as it fits.
ghost use Rattle.std.specs.Prelude.{◌≡◌, suc, ◌*◌, ◌^◌, ◌≤◌, ◌<◌, length};
ghost use Rattle.layout.specs.Header.{width, full_size, log_size};
ghost use Rattle.layout.specs.Refusals.{number_of};
ghost use Rattle.print_lines.specs.Putting.{put, put_end};
ghost use Rattle.listing.specs.Listing.{words, line, positions, level_text, levels_text, rack_text, refused_text};

use layout::{Header, Refusal, places};
use print_lines::putting::{put, put_number};

// The words of a position, a space before each.
fn put_words(out: &mut [u8], at: usize, row: &[u32]) -> usize
    requires { at ≤ length out.old }
    ensures value { result ≡ put_end out.old at (words row.now) }
    ensures out_after { out.new ≡ put out.old at (words row.now) }
{
    let mut to = at;
    for word in row {
        to = put(out, to, b" ");
        to = put_number(out, to, *word);
    }
    to
}

// The line of a position: its stripe's name, its number, its words.
fn put_line(out: &mut [u8], at: usize, name: u8, position: u32, row: &[u32]) -> usize
    requires { at ≤ length out.old }
    ensures value { result ≡ put_end out.old at (line name position row.now) }
    ensures out_after { out.new ≡ put out.old at (line name position row.now) }
{
    let named = put(out, at, &[name, b' ']);
    let numbered = put_number(out, named, position);
    let filled = put_words(out, numbered, row);
    put(out, filled, b"\n")
}

// The lines of a stripe, of which each position has `width` words.
fn put_positions(
    out: &mut [u8],
    at: usize,
    name: u8,
    rows: &[u32],
    width: usize,
    count: u32,
) -> usize
    requires at { at ≤ length out.old }
    requires rows_len { length rows.now ≡ count * width }
    ensures value { result ≡ put_end out.old at (positions name width rows.now 0 count) }
    ensures out_after { out.new ≡ put out.old at (positions name width rows.now 0 count) }
{
    let mut to = at;
    let mut rest = rows;
    for position in 0..count {
        let (row, behind) = rest.split_at(width);
        to = put_line(out, to, name, position, row);
        rest = behind;
    }
    to
}

// The lines of a level, where it is filled.
fn put_level(out: &mut [u8], at: usize, header: Header, log: &[u32], level: u32) -> usize
    requires at { at ≤ length out.old }
    requires ranges { (level < header.k) × (header.k ≤ 5) × (header.s ≤ 16) }
    requires log_len { length log.now ≡ log_size header }
    ensures value { result ≡ put_end out.old at (level_text header log.now level) }
    ensures out_after { out.new ≡ put out.old at (level_text header log.now level) }
{
    if !places::is_filled(header, level as usize) {
        return at;
    }
    let width = header.s as usize + 1;
    let count = code::number::two_to(level as usize + 1);
    let start = (count - 2) * width;
    let end = start + count * width;
    put_positions(
        out,
        at,
        b'0' + level as u8,
        &log[start..end],
        width,
        count as u32,
    )
}

// The lines of the filled levels, upward.
fn put_levels(out: &mut [u8], at: usize, header: Header, log: &[u32]) -> usize
    requires at { at ≤ length out.old }
    requires ranges { (header.k ≤ 5) × (header.s ≤ 16) }
    requires log_len { length log.now ≡ log_size header }
    ensures value { result ≡ put_end out.old at (levels_text header log.now 0 header.k) }
    ensures out_after { out.new ≡ put out.old at (levels_text header log.now 0 header.k) }
{
    let mut to = at;
    for level in 0..header.k {
        to = put_level(out, to, header, log, level);
    }
    to
}

// The listing of a rack: the lines of its full stripe, and then those of its levels.
pub(crate) fn put_rack(out: &mut [u8], header: Header, full: &[u32], log: &[u32]) -> usize
    requires ranges { (header.k ≤ 5) × (header.s ≤ 16) }
    requires lengths { (length full.now ≡ full_size header) × (length log.now ≡ log_size header) }
    ensures value { result ≡ put_end out.old 0 (rack_text header full.now log.now) }
    ensures out_after { out.new ≡ put out.old 0 (rack_text header full.now log.now) }
{
    let width = header.s as usize + 1;
    let count = code::number::two_to(header.k as usize + 1);
    let levels = put_positions(out, 0, b'C', full, width, count as u32);
    put_levels(out, levels, header, log)
}

// The listing of an input that is refused.
pub(crate) fn put_refusal(out: &mut [u8], refusal: Refusal) -> usize
    ensures value { result ≡ put_end out.old 0 (refused_text (number_of refusal)) }
    ensures out_after { out.new ≡ put out.old 0 (refused_text (number_of refusal)) }
{
    let named = put(out, 0, b"refused ");
    let numbered = put_number(out, named, refusal.number());
    put(out, numbered, b"\n")
}

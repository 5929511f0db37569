// Test 1 of a header, and the sizes that it gives: in words, of the image in bytes. The tests of a length call these where a header has passed test 1.
ghost use Rattle.std.specs.Prelude.{◌≡◌, suc, ◌*◌, ◌≤◌};
ghost use Rattle.layout.specs.Header.{header_fits, record_count, width, raw_size, full_size, log_size, out_size, scratch_size, image_size};

use crate::{Header, ValidHeader};

// Test 1: whether the header's numbers are in their ranges.
pub fn header_fits(h: Header) -> bool
    ensures { result ≡ header_fits h }
{
    if h.k < 1 || 10 < h.k || h.s < 1 || 128 < h.s {
        return false;
    }
    (h.c as usize) < code::number::two_to(h.k as usize)
}

impl ValidHeader {
    // n, the number of records.
    pub fn record_count(self) -> usize
        ensures { result ≡ record_count self.header }
    {
        code::number::two_to(self.header.k as usize)
    }

    // The words of a coded block: the record's number and its data.
    pub fn width(self) -> usize
        ensures { result ≡ width self.header }
    {
        self.header.s as usize + 1
    }

    // Rows of `row` words, one for each of the n records.
    pub fn rows_size(self, row: usize) -> usize
        requires { row ≤ suc self.header.s }
        ensures { result ≡ record_count self.header * row }
    {
        self.record_count() * row
    }

    pub fn raw_size(self) -> usize
        ensures { result ≡ raw_size self.header }
    {
        self.rows_size(self.header.s as usize)
    }

    fn out_size(self) -> usize
        ensures { result ≡ out_size self.header }
    {
        self.rows_size(self.width())
    }

    pub fn full_size(self) -> usize
        ensures { result ≡ full_size self.header }
    {
        2 * self.out_size()
    }

    // The levels have 2, 4, .., n rows, two fewer than the full stripe.
    pub fn log_size(self) -> usize
        ensures { result ≡ log_size self.header }
    {
        self.full_size() - 2 * self.width()
    }

    pub fn scratch_size(self) -> usize
        ensures { result ≡ scratch_size self.header }
    {
        self.out_size() + 4 * self.record_count()
    }

    // In bytes: 4 for each word of the full stripe and the log.
    pub fn image_size(self) -> usize
        ensures { result ≡ image_size self.header }
    {
        4 * (self.full_size() + self.log_size())
    }
}

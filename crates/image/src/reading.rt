// What a call that is lent an image reads: its header, its image and its erasure list, after tests 1 to 3.
ghost use Rattle.std.specs.Prelude.{◌≡◌, length};
ghost use Rattle.layout.specs.Header.{image_size};

use layout::ValidHeader;

// A header in range, an image of its size, and an erasure list.
#[derive(Clone, Copy)]
pub struct Reading<'a> {
    pub header: ValidHeader,
    pub image: &'a [u8],
    pub erasures: &'a [u8],
    ghost sized: { length image.now ≡ image_size header.header },
}

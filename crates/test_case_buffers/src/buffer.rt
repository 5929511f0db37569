// A buffer of words or bytes, of which a part is lent to calls.
ghost use Rattle.std.specs.Prelude.{◌≡◌, take};

use crate::{draw, input};
use std::io::Read;

// A buffer of N elements, of which so many are lent, at most all. Its size is part of its type: no change makes it longer or shorter, and buffers of two sizes
// cannot change places.
#[derive(Drop)]
pub struct Buffer<'a, T, const N: usize> {
    pub all: &'a mut [T; N],
    pub lent: usize,
}

impl<'a, T: Copy, const N: usize> Buffer<'a, T, N> {
    // A buffer of which nothing is lent yet.
    pub(crate) fn new(all: &'a mut [T; N]) -> Buffer<'a, T, N>
        ensures all { result.all.now ≡ all.old }
        ensures lent { result.lent ≡ 0 }
    {
        Buffer { all, lent: 0 }
    }
}

// What is lent of a buffer, to be read. There is a method for each size: one for any size would ask of its callers that so many elements fit the memory.
impl Buffer<'_, u32, 256> {
    pub fn part(&self) -> &[u32]
        ensures { result.now ≡ take self.now.lent self.now.all.now }
    {
        part(self.lent, self.all)
    }
}

impl Buffer<'_, u32, 4096> {
    pub fn part(&self) -> &[u32]
        ensures { result.now ≡ take self.now.lent self.now.all.now }
    {
        part(self.lent, self.all)
    }
}

impl Buffer<'_, u32, 8192> {
    pub fn part(&self) -> &[u32]
        ensures { result.now ≡ take self.now.lent self.now.all.now }
    {
        part(self.lent, self.all)
    }
}

impl Buffer<'_, u8, 16384> {
    pub fn part(&self) -> &[u8]
        ensures { result.now ≡ take self.now.lent self.now.all.now }
    {
        part(self.lent, self.all)
    }
}

impl Buffer<'_, u8, 65536> {
    pub fn part(&self) -> &[u8]
        ensures { result.now ≡ take self.now.lent self.now.all.now }
    {
        part(self.lent, self.all)
    }
}

// What is lent of a buffer, to be read, by its fields: any number of elements, of any type that is `Copy`.
pub fn part<T: Copy>(lent: usize, all: &[T]) -> &[T]
    ensures { result.now ≡ take lent all.now }
{
    let count = lent.min(all.len());
    &all[..count]
}

// What is lent of a buffer, to be changed. It takes the buffer's fields, not the buffer: who changes what is lent still knows how much it is.
pub fn part_mut<T: Copy>(lent: usize, all: &mut [T]) -> &mut [T]
    ensures { result.now ≡ take lent all.old }
{
    let count = lent.min(all.len());
    &mut all[..count]
}

// All of it, whatever is lent.
pub fn all_mut<T: Copy>(all: &mut [T]) -> &mut [T]
    ensures { result.now ≡ all.old }
{
    &mut all[..]
}

// What is done to the words of a buffer.
#[derive(Clone, Copy)]
pub(crate) enum WordsEdit {
    Fill { bound: u32, seed: u32 },
    Put { at: u32, word: u32 },
}

// Edits a buffer's words, of which so many are lent.
pub(crate) fn edit_words(lent: usize, all: &mut [u32], edit: WordsEdit) {
    match edit {
        WordsEdit::Fill { bound, seed } => fill(part_mut(lent, all), bound, seed),
        WordsEdit::Put { at, word } => put(all, at as usize, word),
    }
}

// Fills what is lent with words below a bound, drawn from a seed; 0: any words.
fn fill(part: &mut [u32], bound: u32, seed: u32) {
    draw::fill(part, seed, |drawn| {
        drawn.checked_rem(bound).unwrap_or(drawn)
    });
}

// Puts a word at an index, where there is one.
fn put(all: &mut [u32], at: usize, word: u32) {
    if let Some(place) = all.get_mut(at) {
        *place = word;
    }
}

// Puts the next bytes of an input from index `at` on; those that do not fit are gone past.
pub(crate) fn load(all: &mut [u8], input: &mut impl Read, at: usize, count: usize) {
    let Some((_, behind)) = all.split_at_mut_checked(at) else {
        input::skip(input, count);
        return;
    };
    let fit = count.min(behind.len());
    input::fill(input, &mut behind[..fit]);
    input::skip(input, count - fit);
}

// Any bytes, drawn from a seed, from index `from` on; nothing where they do not fit.
pub(crate) fn garble(all: &mut [u8], from: usize, count: usize, seed: u32) {
    let Some((_, behind)) = all.split_at_mut_checked(from) else {
        return;
    };
    let Some((part, _)) = behind.split_at_mut_checked(count) else {
        return;
    };
    draw::fill(part, seed, |drawn| (drawn % 256) as u8);
}

#[cfg(test)]
mod tests {
    use super::part;
    use std::test::Fail;

    // words and bytes are lent by test_cases; here, elements of another type, some and more than there are
    #[test]
    fn lends_of_any_type() -> Result<(), Fail> {
        let all = [5u64, 6, 7];
        let some = part(2, all.as_slice()) == [5, 6].as_slice();
        some.then_some(()).ok_or("two of three")?;
        let most = part(4, all.as_slice()) == all.as_slice();
        most.then_some(()).ok_or("four of three")?;
        Ok(())
    }
}

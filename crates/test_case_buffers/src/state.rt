// What a test's commands fill and change, and what its calls are lent.
ghost use Rattle.std.specs.Prelude.{◌≡◌, replicate};
ghost use Rattle.test_case_buffers.specs.Changes.{Changes, OnlyBytes, OnlyWords, bytes_lent, header_after, held, lents, lents_after, words_lent};

use crate::buffer::{Buffer, WordsEdit, edit_words, garble, load};
use crate::command::{Bytes, Change, Number, Words};
use layout::Header;
use std::io::Read;
use std::mem;

// The memory of the buffers.
#[derive(Drop)]
pub struct Memory {
    raw: [u32; 4096],
    full: [u32; 8192],
    log: [u32; 8192],
    block: [u32; 256],
    out: [u32; 4096],
    scratch: [u32; 8192],
    image: [u8; 65536],
    list: [u8; 16384],
    image2: [u8; 65536],
    list2: [u8; 16384],
}

impl Memory {
    pub fn zeros() -> Memory
        ensures vault { (result.raw ≡ replicate 4096 0) × (result.full ≡ replicate 8192 0) × (result.log ≡ replicate 8192 0) }
        ensures lent { (result.block ≡ replicate 256 0) × (result.out ≡ replicate 4096 0) × (result.scratch ≡ replicate 8192 0) }
        ensures bytes { (result.image ≡ replicate 65536 0) × (result.list ≡ replicate 16384 0) }
        ensures second { (result.image2 ≡ replicate 65536 0) × (result.list2 ≡ replicate 16384 0) }
    {
        Memory {
            raw: [0; 4096],
            full: [0; 8192],
            log: [0; 8192],
            block: [0; 256],
            out: [0; 4096],
            scratch: [0; 8192],
            image: [0; 65536],
            list: [0; 16384],
            image2: [0; 65536],
            list2: [0; 16384],
        }
    }
}

// A header, and the buffers of which each call is lent a part; each with its size, which is that of its memory.
#[derive(Drop)]
pub struct State<'a> {
    pub header: Header,
    pub raw: Buffer<'a, u32, 4096>,
    pub full: Buffer<'a, u32, 8192>,
    pub log: Buffer<'a, u32, 8192>,
    pub block: Buffer<'a, u32, 256>,
    pub out: Buffer<'a, u32, 4096>,
    pub scratch: Buffer<'a, u32, 8192>,
    pub image: Buffer<'a, u8, 65536>,
    pub list: Buffer<'a, u8, 16384>,
    pub image2: Buffer<'a, u8, 65536>,
    pub list2: Buffer<'a, u8, 16384>,
}

impl<'a> State<'a> {
    // A header of zeros, and buffers of which nothing is lent.
    pub fn new(memory: &'a mut Memory) -> State<'a>
        ensures header { (result.header.k ≡ 0) × (result.header.s ≡ 0) × (result.header.c ≡ 0) }
        ensures vault { (result.raw.lent ≡ 0) × (result.full.lent ≡ 0) × (result.log.lent ≡ 0) }
        ensures lent { (result.block.lent ≡ 0) × (result.out.lent ≡ 0) × (result.scratch.lent ≡ 0) }
        ensures bytes { (result.image.lent ≡ 0) × (result.list.lent ≡ 0) }
        ensures second { (result.image2.lent ≡ 0) × (result.list2.lent ≡ 0) }
        ensures records { (result.raw.all.now ≡ memory.old.raw) × (result.full.all.now ≡ memory.old.full) × (result.log.all.now ≡ memory.old.log) }
        ensures scratch { (result.block.all.now ≡ memory.old.block) × (result.out.all.now ≡ memory.old.out) × (result.scratch.all.now ≡ memory.old.scratch) }
        ensures first_reading { (result.image.all.now ≡ memory.old.image) × (result.list.all.now ≡ memory.old.list) }
        ensures second_reading { (result.image2.all.now ≡ memory.old.image2) × (result.list2.all.now ≡ memory.old.list2) }
    {
        let Memory {
            raw,
            full,
            log,
            block,
            out,
            scratch,
            image,
            list,
            image2,
            list2,
        } = memory;
        State {
            header: Header::default(),
            raw: Buffer::new(raw),
            full: Buffer::new(full),
            log: Buffer::new(log),
            block: Buffer::new(block),
            out: Buffer::new(out),
            scratch: Buffer::new(scratch),
            image: Buffer::new(image),
            list: Buffer::new(list),
            image2: Buffer::new(image2),
            list2: Buffer::new(list2),
        }
    }

    // So much of a buffer is lent from now on.
    fn lend_words(&mut self, buffer: Words, count: usize)
        ensures header { self.new.header ≡ self.old.header }
        ensures lents { lents self.new ≡ words_lent buffer count (lents self.old) }
        ensures held { held self.new ≡ held self.old }
    {
        match buffer {
            Words::Raw => self.raw.lent = count,
            Words::Full => self.full.lent = count,
            Words::Log => self.log.lent = count,
            Words::Block => self.block.lent = count,
            Words::Out => self.out.lent = count,
            Words::Scratch => self.scratch.lent = count,
        }
    }

    fn lend_bytes(&mut self, buffer: Bytes, count: usize)
        ensures header { self.new.header ≡ self.old.header }
        ensures lents { lents self.new ≡ bytes_lent buffer count (lents self.old) }
        ensures held { held self.new ≡ held self.old }
    {
        match buffer {
            Bytes::Image => self.image.lent = count,
            Bytes::List => self.list.lent = count,
            Bytes::Image2 => self.image2.lent = count,
            Bytes::List2 => self.list2.lent = count,
        }
    }

    fn edit_words(&mut self, buffer: Words, edit: WordsEdit)
        ensures header { self.new.header ≡ self.old.header }
        ensures lents { lents self.new ≡ lents self.old }
        ensures held { OnlyWords buffer (held self.old) (held self.new) }
    {
        match buffer {
            Words::Raw => edit_words(self.raw.lent, self.raw.all, edit),
            Words::Full => edit_words(self.full.lent, self.full.all, edit),
            Words::Log => edit_words(self.log.lent, self.log.all, edit),
            Words::Block => edit_words(self.block.lent, self.block.all, edit),
            Words::Out => edit_words(self.out.lent, self.out.all, edit),
            Words::Scratch => edit_words(self.scratch.lent, self.scratch.all, edit),
        }
    }

    // Puts the next bytes of an input into a buffer, from index `at` on.
    fn load(&mut self, buffer: Bytes, input: &mut impl Read, at: usize, count: usize)
        ensures header { self.new.header ≡ self.old.header }
        ensures lents { lents self.new ≡ lents self.old }
        ensures held { OnlyBytes buffer (held self.old) (held self.new) }
    {
        match buffer {
            Bytes::Image => load(self.image.all, input, at, count),
            Bytes::List => load(self.list.all, input, at, count),
            Bytes::Image2 => load(self.image2.all, input, at, count),
            Bytes::List2 => load(self.list2.all, input, at, count),
        }
    }

    // Makes a change; what it loads is read from the input.
    pub fn change(&mut self, change: Change, input: &mut impl Read)
        ensures header { self.new.header ≡ header_after change self.old.header }
        ensures lents { lents self.new ≡ lents_after change (lents self.old) }
        ensures held { Changes change (held self.old) (held self.new) }
    {
        match change {
            Change::Set(Number::K, k) => self.header.k = k,
            Change::Set(Number::S, s) => self.header.s = s,
            Change::Set(Number::C, c) => self.header.c = c,
            Change::Set(Number::Words(buffer), count) => {
                self.lend_words(buffer, count as usize);
            }
            Change::Set(Number::Bytes(buffer), count) => {
                self.lend_bytes(buffer, count as usize);
            }
            Change::Fill {
                buffer,
                bound,
                seed,
            } => self.edit_words(buffer, WordsEdit::Fill { bound, seed }),
            Change::Put(buffer, at, word) => {
                self.edit_words(buffer, WordsEdit::Put { at, word });
            }
            Change::Load { buffer, at, count } => {
                self.load(buffer, input, at as usize, count as usize);
            }
            Change::Garble { from, count, seed } => {
                garble(self.image.all, from as usize, count as usize, seed);
            }
            Change::Exchange => {
                mem::swap(&mut self.image, &mut self.image2);
                mem::swap(&mut self.list, &mut self.list2);
            }
        }
    }
}

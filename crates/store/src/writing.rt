// Writing: the raw record replaced, and the first empty level, or the full stripe, built anew.
ghost use Rattle.std.specs.Prelude.{◌≡◌, ◌∷◌, suc, ◌+◌, ◌*◌, ◌-◌, ◌^◌, ◌≤◌, ◌<◌, length, take, drop, IfOk};
ghost use Rattle.std.proofs.lemmas.List.Edits.{sets};
ghost use Rattle.field.specs.Field.{fermat, root_of};
ghost use Rattle.field.specs.Words.{Words};
ghost use Rattle.code.specs.Transform.{scaled};
ghost use Rattle.layout.specs.Header.{record_count, raw_size, full_size, log_size};
ghost use Rattle.layout.specs.Records.{replaced};
ghost use Rattle.layout.specs.Refusals.{answer_number};
ghost use Rattle.store.specs.Buffers.{reduced, buffers};
ghost use Rattle.store.specs.Writing.{log_with, next_header, written};
ghost use Rattle.store.specs.steps.Writing.{half_start, gathered, folded, folded_both};
ghost use Rattle.store.specs.StoreCalls.{write_number, written_as, write_answer, write_leaves};

use crate::opening::Reduced;
use layout::{Header, Refusal, ValidHeader};
use mixing::direction::{Direction, Factor, Mixing, One, Power};

// A block that is written: the record's number and its data, all words of the field.
#[derive(Clone, Copy)]
pub(crate) struct Block<'a> {
    pub number: u32,
    pub words: &'a [u32],
    ghost in_field: { Words fermat.modulus (number ∷ words.now) },
}

// Replaces raw record i, of as many words.
pub fn put_record(raw: &mut [u32], i: usize, words: &[u32])
    requires { suc i * length words.now ≤ length raw.old }
    ensures { raw.new ≡ replaced (length words.now) raw.old i words.now }
{
    let at = i * words.len();
    // no `copy_from_slice`: the archive for C would ask for `memmove`
    layout::words::copy_words(&mut raw[at..at + words.len()], words);
}

// Puts a block as a row: its number and its data, each times a factor.
fn put_row<F: Factor>(row: &mut [u32], block: Block, factor: F)
    requires { length row.old ≡ suc (length block.words.now) }
    ensures { row.new ≡ scaled fermat.modulus (F.value factor) (block.entry.number ∷ block.entry.words.now) }
{
    row[0] = factor.product(block.number);
    let rest = &mut row[1..];
    for (j, word) in rest.iter_mut().enumerate() {
        *word = factor.product(block.words[j]);
    }
}

// Copies `count` words from index `from` on to index `to` on, each modulo p. Both parts are of one log, which is split here.
fn copy_reduced(log: &mut [u32], from: usize, to: usize, count: usize)
    requires count_bound { from + count ≤ to }
    requires count_in_bounds { to + count ≤ length log.old }
    ensures { log.new ≡ sets log.old to (reduced fermat.modulus (take count (drop from log.old))) }
{
    let (below, rest) = log.split_at_mut(to);
    crate::opening::reduce_row(&mut rest[..count], &below[from..from + count]);
}

// Where X (half 0) or Y (half 1) of a level begins in the log.
// A number, and no enum: it is the factor of the place, by which X and Y are one formula. That a level is at most 10 is a clause, here and below: the type that
// says so is the header's, and these are lent a level of the log alone.
pub fn half_at(level: usize, half: usize, width: usize) -> usize
    requires { (level ≤ 10) × (half ≤ 1) × (width ≤ 129) }
    ensures { result ≡ half_start width level half }
{
    let rows = code::number::two_to(level);
    (rows + rows - 2) * width + half * (rows * width)
}

// Copies X (half 0) or Y (half 1) of all levels below to that half of a level, the oldest first, each word modulo p, and puts the block's row times a factor
// after them.
fn gather<F: Factor>(log: &mut [u32], level: usize, half: usize, block: Block, factor: F)
    requires level_bound { (level ≤ 9) × (half ≤ 1) × (length block.words.now ≤ 128) }
    requires level_in_bounds { half_start (suc (length block.words.now)) (suc level) 0 ≤ length log.old }
    ensures { log.new ≡
        sets log.old (half_start (suc (length block.entry.words.now)) level half)
        (gathered fermat.modulus (suc (length block.entry.words.now)) log.old half
        (scaled fermat.modulus (F.value factor) (block.entry.number ∷ block.entry.words.now)) level) }
{
    let width = block.words.len() + 1;
    let end = half_at(level, half, width) + code::number::two_to(level) * width;
    for l in (0..level).rev() {
        let size = code::number::two_to(l) * width;
        // What follows this level are those below it and the block's row: as many words again.
        copy_reduced(log, half_at(l, half, width), end - 2 * size, size);
    }
    put_row(&mut log[end - width..end], block, factor);
}

// Mixes the last row of 2^level rows with the one before it, those two with the two before them, and so on, under the roots of the field.
fn fold(half: &mut [u32], level: usize, width: usize)
    requires level_bound { level ≤ 10 }
    requires half_len { length half.old ≡ 2 ^ level * width }
    requires words { Words fermat.modulus half.old }
    ensures { half.new ≡ folded fermat.modulus (root_of fermat) width level half.old }
{
    for l in 0..level {
        let powers = Mixing::powers(l);
        let from = half.len() - 2 * powers.rows * width;
        mixing::rows::mix(&mut half[from..], width, powers);
    }
}

// Folds X and Y of a level.
fn fold_level(part: &mut [u32], level: usize, width: usize)
    requires level_bound { level ≤ 10 }
    requires part_len { length part.old ≡ 2 ^ suc level * width }
    requires words { Words fermat.modulus part.old }
    ensures { part.new ≡ folded_both fermat.modulus (root_of fermat) width level part.old }
{
    let half = code::number::two_to(level) * width;
    fold(&mut part[..half], level, width);
    fold(&mut part[half..], level, width);
}

// Rebuilds a level from all levels below it and the block, and empties those. The level is lent on as a part from the middle of the log; what follows it
// stays. Y takes the block times w^rev(c), which is the entry at c with its ten bits reversed.
fn rebuild(header: ValidHeader, log: &mut [u32], level: usize, block: Block)
    requires level_bound { level < header.header.k }
    requires lengths { (length log.old ≡ log_size header.header) × (length block.words.now ≡ header.header.s) }
    ensures { log.new ≡ log_with header.header log.old (block.entry.number ∷ block.entry.words.now) level }
{
    let width = header.width();
    let e = code::number::reversed(10, header.header.c as usize);
    // one entry, by its number: `RowPowers` is of rows, each of which has a factor of its own
    let turn = Power {
        g: code::table_65537::entry(e as usize),
    };
    gather(log, level, 0, block, One);
    gather(log, level, 1, block, turn);
    let start = half_at(level, 0, width);
    let end = half_at(level + 1, 0, width);
    fold_level(&mut log[start..end], level, width);
    log[..start].fill(0);
}

// Enters a block as a write: the raw record is replaced, and the first empty level, or by the n-th write of a round the full stripe, built anew. Gives the
// header afterwards. Words that it reads from the buffers count modulo p.
pub(crate) fn enter(
    header: ValidHeader,
    raw: &mut [u32],
    full: &mut [u32],
    log: &mut [u32],
    block: Block,
) -> Header
    requires raw_len { length raw.old ≡ raw_size header.header }
    requires full_len { length full.old ≡ full_size header.header }
    requires log_len { length log.old ≡ log_size header.header }
    requires block_len { length block.words.now ≡ header.header.s }
    requires within { block.number < record_count header.header }
    ensures value { result ≡ next_header header.header }
    ensures raw_after { raw.new ≡
        (written header.header (buffers raw.old full.old log.old) block.entry.number block.entry.words.now).raw }
    ensures full_after { full.new ≡
        (written header.header (buffers raw.old full.old log.old) block.entry.number block.entry.words.now).full }
    ensures log_after { log.new ≡
        (written header.header (buffers raw.old full.old log.old) block.entry.number block.entry.words.now).log }
{
    put_record(raw, block.number as usize, block.words);
    let next = header.header.c + 1;
    if next as usize == header.record_count() {
        crate::opening::build::<Reduced>(header, raw, full);
        log.fill(0);
        return Header {
            c: 0,
            ..header.header
        };
    }
    let level = layout::places::first_empty(header.header.c);
    rebuild(header, log, level, block);
    Header {
        c: next,
        ..header.header
    }
}

// Tests 1, 2, 4, 5 and 11 of a write.
fn check_writing(
    header: Header,
    raw: &[u32],
    full: &[u32],
    log: &[u32],
    number: u32,
    block: &[u32],
) -> Result<ValidHeader, Refusal>
    ensures number { answer_number result ≡ write_number header (buffers raw.now full.now log.now) number block.now }
    ensures same { IfOk result (λ v. v.header ≡ header) }
{
    let valid = crate::buffers::check(header, raw, full, log)?;
    if block.len() != header.s as usize {
        return Err(Refusal::Length);
    }
    // what the last tests ask, before any of them is gone by: so their order stands alone
    let outside = valid.record_count() <= number as usize;
    let fit = layout::words::all_data(block);
    let blank = layout::words::is_blank(block);
    if outside {
        return Err(Refusal::RecordNumber);
    }
    if !fit {
        return Err(Refusal::DataWord);
    }
    if blank {
        return Err(Refusal::Blank);
    }
    Ok(valid)
}

// Writes a block to a record, and gives the header afterwards. Tests 1, 2 (the three buffers and the block), 4, 5, 11 (a blank block); a refusal changes
// nothing.
pub fn write(
    header: Header,
    raw: &mut [u32],
    full: &mut [u32],
    log: &mut [u32],
    number: u32,
    block: &[u32],
) -> Result<Header, Refusal>
    ensures value { written_as header result ≡ write_answer header (buffers raw.old full.old log.old) number block.now }
    ensures raw_after { raw.new ≡
        (write_leaves header (buffers raw.old full.old log.old) number block.now).raw }
    ensures full_after { full.new ≡
        (write_leaves header (buffers raw.old full.old log.old) number block.now).full }
    ensures log_after { log.new ≡
        (write_leaves header (buffers raw.old full.old log.old) number block.now).log }
{
    let valid = check_writing(header, raw, full, log, number, block)?;
    let block = Block {
        number,
        words: block,
    };
    Ok(enter(valid, raw, full, log, block))
}

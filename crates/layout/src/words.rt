// The loops over words that several calls share.
ghost use Rattle.std.specs.Prelude.{◌≡◌, ◌+◌, ◌*◌, ◌≤◌, length};
ghost use Rattle.code.specs.steps.Storing.{stored, word_from};
ghost use Rattle.layout.specs.Records.{are_data, is_blank, is_struck, record_fits, records_fit};

// What stands in the place of each data word of a struck record. As a word of the field it is p - 1.
pub const STRUCK: u32 = 65536;

// Copies as many words. Most rows are of few, for which a call of `copy_from_slice` takes longer than this loop: with it an opening at k = 10 takes 5 % more
// at s = 3, and 7 % more at s = 1, and misses its mark at s = 3 by as much.
pub fn copy_words(out: &mut [u32], words: &[u32])
    requires { length out.old ≡ length words.now }
    ensures { out.new ≡ words.now }
{
    for (j, word) in out.iter_mut().enumerate() {
        *word = words[j];
    }
}

// Copies `count` words from index `from` on to index `to` on: both parts are cut here, and not by each caller.
pub fn copy_row(out: &mut [u32], to: usize, words: &[u32], from: usize, count: usize)
    requires { (to + count ≤ length out.old) × (from + count ≤ length words.now) }
    ensures { out.new ≡ stored to (word_from words.now from) count out.old }
{
    copy_words(&mut out[to..to + count], &words[from..from + count]);
}

// Test 5 of a block: whether these are data words.
pub fn all_data(words: &[u32]) -> bool
    ensures { result ≡ are_data words.now }
{
    // No early end: a loop that has none takes four words at a time. A fold says the same with the flag as its first argument.
    let mut fit = true;
    for word in words {
        if 65535 < *word {
            fit = false;
        }
    }
    fit
}

// Test 11 of a block: whether each of its words is 0. Most often the first one is not, and the others are not looked at.
pub fn is_blank(words: &[u32]) -> bool
    ensures { result ≡ is_blank words.now }
{
    words.iter().all(|word| *word == 0)
}

// Test 14 of a record: whether it is struck. Most often its first word says that it is not, and the others are not looked at.
pub fn is_struck(words: &[u32]) -> bool
    ensures { result ≡ is_struck words.now }
{
    words.iter().all(|word| *word == STRUCK)
}

// Test 5 of one record: whether these may be its data.
pub fn record_fits(words: &[u32]) -> bool
    ensures { result ≡ record_fits words.now }
{
    all_data(words) || is_struck(words)
}

// Test 5 of n records of s words: whether each holds such data. Most often all are data words, which one pass over them shows. Else by the records' numbers:
// this is promised for any s, 0 too, of which `chunks_exact` makes no pieces.
pub fn records_fit(raw: &[u32], s: usize, n: usize) -> bool
    requires { n * s ≤ length raw.now }
    ensures { result ≡ records_fit s raw.now n }
{
    all_data(raw)
        || (0..n).all(|i| {
            let at = i * s;
            record_fits(&raw[at..at + s])
        })
}

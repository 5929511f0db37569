// Opening: the full stripe built from raw records.
ghost use Rattle.std.specs.Prelude.{◌≡◌, ◌∷◌, ◌<◌, Bool, true, false, suc, length, IfOk};
ghost use Rattle.field.specs.Field.{fermat};
ghost use Rattle.layout.specs.Header.{header_of, raw_size, full_size};
ghost use Rattle.layout.specs.Refusals.{answer_number};
ghost use Rattle.store.specs.Buffers.{reduced, full_stripe};
ghost use Rattle.store.specs.steps.Opening.{WholeWords};
ghost use Rattle.store.specs.StoreCalls.{open_number, opened_as, open_answer, open_leaves};

use code::ValidStripe;
use layout::{Header, Refusal, ValidHeader};

// Stores as many words, each modulo p.
pub(crate) fn reduce_row(out: &mut [u32], words: &[u32])
    requires { length out.old ≡ length words.now }
    ensures { out.new ≡ reduced fermat.modulus words.now }
{
    for (j, residue) in out.iter_mut().enumerate() {
        *residue = field::reduce(words[j]);
    }
}

// How the words of a record become words of the field.
pub(crate) trait Residues {
    // Whether it takes words of the field alone.
    ghost whole: { Bool };

    // Stores as many words, each modulo p.
    fn store(out: &mut [u32], words: &[u32])
        requires out_len { length out.old ≡ length words.now }
        requires whole_words { WholeWords fermat.modulus whole words.now }
        ensures { out.new ≡ reduced fermat.modulus words.now };
}

// Words of the field, copied as they are.
pub(crate) struct Copied;

// Any words, each reduced.
pub(crate) struct Reduced;

impl Residues for Copied {
    ghost whole = { true };

    fn store(out: &mut [u32], words: &[u32]) {
        layout::words::copy_words(out, words);
    }
}

impl Residues for Reduced {
    ghost whole = { false };

    fn store(out: &mut [u32], words: &[u32]) {
        reduce_row(out, words);
    }
}

// Record i as a block: its number, and its data modulo p. Where `put_row` of writing multiplies by a factor this one reduces: a trait for both would mean two
// things.
fn block_row<R: Residues>(row: &mut [u32], i: usize, words: &[u32])
    requires row_len { length row.old ≡ suc (length words.now) }
    requires i_lt_modulus { i < fermat.modulus }
    requires whole_words { WholeWords fermat.modulus R.whole words.now }
    ensures { row.new ≡ i ∷ reduced fermat.modulus words.now }
{
    row[0] = i as u32;
    R::store(&mut row[1..], words);
}

// Builds the full stripe of the raw records, whose words are of the field after test 5, but any in buffers that no opening made.
pub(crate) fn build<R: Residues>(header: ValidHeader, raw: &[u32], full: &mut [u32])
    requires lengths { (length raw.now ≡ raw_size header.header) × (length full.old ≡ full_size header.header) }
    requires whole_words { WholeWords fermat.modulus R.whole raw.now }
    ensures { full.new ≡ full_stripe header.header raw.now }
{
    let s = header.header.s as usize;
    let width = header.width();
    // By index: the rows of `full` are written a part at a time, and of what is written to `chunks_exact_mut` a proof knows the length alone.
    for i in 0..header.record_count() {
        let at = i * width;
        let from = i * s;
        block_row::<R>(&mut full[at..at + width], i, &raw[from..from + s]);
    }
    let stripe = header.stripe_of(header.header.k as usize);
    encoder::code(full, ValidStripe { stripe });
}

// Tests 1, 2 and 5 of an opening.
fn check_opening(
    k: u32,
    s: u32,
    raw: &[u32],
    full: &[u32],
    log: &[u32],
) -> Result<ValidHeader, Refusal>
    ensures number { answer_number result ≡ open_number k s raw.now full.now log.now }
    ensures same { IfOk result (λ v. v.header ≡ header_of k s 0) }
{
    let valid = crate::buffers::check(Header { k, s, c: 0 }, raw, full, log)?;
    if !layout::words::records_fit(raw, s as usize, valid.record_count()) {
        return Err(Refusal::DataWord);
    }
    Ok(valid)
}

// Opens a vault over raw records, which are its raw copy and do not change, and gives its header. Tests 1, 2 (the three buffers), 5.
pub fn open(
    k: u32,
    s: u32,
    raw: &[u32],
    full: &mut [u32],
    log: &mut [u32],
) -> Result<Header, Refusal>
    ensures value { opened_as result ≡ open_answer k s raw.now full.old log.old }
    ensures full_after { full.new ≡ (open_leaves k s raw.now full.old log.old).full }
    ensures log_after { log.new ≡ (open_leaves k s raw.now full.old log.old).log }
{
    let valid = check_opening(k, s, raw, full, log)?;
    build::<Copied>(valid, raw, full);
    log.fill(0);
    Ok(valid.header)
}

// The calls of the vault (docs/FORMAT.md, section 9), by value: headers are given and come back, and nothing is kept between two calls. They are all twelve,
// and place_of_two, which says where the part stands that shelf_of_two gives. Reading is `try_read`, which refuses as the others do; `read_number` and `read`
// give its number and its part apart, and cannot fail. No call has a precondition. Each contract says, for every input, what the call answers (`result`), and
// what is left of each buffer that it may change: `x.old` is the buffer x as it was lent, `x.new` as it is left, `x.now` one that does not change, and «x» a
// parameter whose name is a word of the language. An answer is read as the number of the table of refusals and what goes with it: by answer_number, opened_as,
// written_as, read_part, place_given and verdict_of. Where the promises (specs/promises) speak of a call, they speak of these definitions. Each call goes on
// to the one that does it: here all contracts stand where a caller reads them together.
ghost use Rattle.std.specs.Prelude.{◌≡◌};
ghost use Rattle.power_table.specs.PowersCall.{powers_number, powers_leaves};
ghost use Rattle.store.specs.Buffers.{buffers};
ghost use Rattle.layout.specs.Refusals.{answer_number, read_part};
ghost use Rattle.store.specs.StoreCalls.{opened_as, open_answer, open_leaves, written_as, write_answer, write_leaves, read_number, read_gives};
ghost use Rattle.store.specs.StoreCalls.{strike_answer, strike_leaves};
ghost use Rattle.taking_back.specs.TakeBackCall.{take_back_answer, take_back_leaves, take_back_scratch};
ghost use Rattle.image.specs.ImageCall.{image_number, image_leaves};
ghost use Rattle.stripe_decoding.specs.StripeCall.{decode_number, decode_leaves, decode_scratch};
ghost use Rattle.recovery.specs.Verdicts.{verdict_of};
ghost use Rattle.recovery.specs.RecoveryCall.{recover_answer, recover_leaves, recover_scratch};
ghost use Rattle.two_readings.specs.RecoverTwoCall.{recover_two_answer, recover_two_leaves, recover_two_scratch};
ghost use Rattle.two_readings.specs.ShelfOfTwoCall.{shelf_of_two_number, shelf_of_two_part, place_given, place_of_two};
ghost use Rattle.explanation.specs.ExplainCall.{explain_answer, explain_counts, explain_origins, explain_scratch};

use layout::{Header, Refusal};
use recovery::Fault;
use two_readings::Place;

// Opens a vault over raw records, which are its raw copy and do not change. Tests 1, 2 (raw, full, log), 5.
pub fn open(
    k: u32,
    s: u32,
    raw: &[u32],
    full: &mut [u32],
    log: &mut [u32],
) -> Result<Header, Refusal>
    ensures value { opened_as result ≡ open_answer k s raw.now full.old log.old }
    ensures full_after { full.new ≡ (open_leaves k s raw.now full.old log.old).full }
    ensures log_after { log.new ≡ (open_leaves k s raw.now full.old log.old).log }
{
    store::opening::open(k, s, raw, full, log)
}

// Replaces a record by a block, and gives the header afterwards. Tests 1, 2 (raw, full, log, block), 4, 5, 11.
pub fn write(
    header: Header,
    raw: &mut [u32],
    full: &mut [u32],
    log: &mut [u32],
    record: u32,
    block: &[u32],
) -> Result<Header, Refusal>
    ensures value { written_as header result ≡ write_answer header (buffers raw.old full.old log.old) «record» block.now }
    ensures raw_after { raw.new ≡ (write_leaves header (buffers raw.old full.old log.old) «record» block.now).raw }
    ensures full_after { full.new ≡ (write_leaves header (buffers raw.old full.old log.old) «record» block.now).full }
    ensures log_after { log.new ≡ (write_leaves header (buffers raw.old full.old log.old) «record» block.now).log }
{
    store::writing::write(header, raw, full, log, record, block)
}

// Strikes a record, struck or not: a write of 65536 in the place of each data word. Gives the header afterwards. Tests 1, 2 (raw, full, log), 4.
pub fn strike(
    header: Header,
    raw: &mut [u32],
    full: &mut [u32],
    log: &mut [u32],
    record: u32,
) -> Result<Header, Refusal>
    ensures value { written_as header result ≡ strike_answer header (buffers raw.old full.old log.old) «record» }
    ensures raw_after { raw.new ≡ (strike_leaves header (buffers raw.old full.old log.old) «record»).raw }
    ensures full_after { full.new ≡ (strike_leaves header (buffers raw.old full.old log.old) «record»).full }
    ensures log_after { log.new ≡ (strike_leaves header (buffers raw.old full.old log.old) «record»).log }
{
    store::striking::strike(header, raw, full, log, record)
}

// Takes back the last write of the round, which may be a strike, and gives the header afterwards. Tests 1, 2 (raw, full, log, scratch), 12, and 8 to 10 of
// each stripe that it decodes.
pub fn take_back(
    header: Header,
    raw: &mut [u32],
    full: &[u32],
    log: &mut [u32],
    scratch: &mut [u32],
) -> Result<Header, Refusal>
    ensures value { written_as header result ≡ take_back_answer header (buffers raw.old full.now log.old) scratch.old }
    ensures raw_after { raw.new ≡ (take_back_leaves header (buffers raw.old full.now log.old) scratch.old).raw }
    ensures log_after { log.new ≡ (take_back_leaves header (buffers raw.old full.now log.old) scratch.old).log }
    ensures scratch_after { scratch.new ≡ take_back_scratch header (buffers raw.old full.now log.old) scratch.old }
{
    taking_back::taking::take_back(header, raw, full, log, scratch)
}

// A record, a part of the raw buffer. Tests 1, 2 (raw), 4, 14.
pub fn try_read<'a>(header: Header, raw: &'a [u32], record: u32) -> Result<&'a [u32], Refusal>
    ensures value { answer_number result ≡ read_number header raw.now «record» }
    ensures part { read_part result ≡ read_gives header raw.now «record» }
{
    store::reading::try_read(header, raw, record)
}

// The number that reading gives.
pub fn read_number(header: Header, raw: &[u32], record: u32) -> u32
    ensures { result ≡ read_number header raw.now «record» }
{
    store::reading::read_number(header, raw, record)
}

// The record; an empty part where reading is refused.
pub fn read<'a>(header: Header, raw: &'a [u32], record: u32) -> &'a [u32]
    ensures { result.now ≡ read_gives header raw.now «record» }
{
    store::reading::read(header, raw, record)
}

// The image of the full stripe and the log. Tests 1, 2 (full, log, image).
pub fn image(header: Header, full: &[u32], log: &[u32], image: &mut [u8]) -> Result<(), Refusal>
    ensures value { answer_number result ≡ image_number header full.now log.now image.old }
    ensures image_after { image.new ≡ image_leaves header full.now log.now image.old }
{
    image::images::image(header, full, log, image)
}

// The blocks of one stripe of an image. Tests 1, 2 (image, out, scratch), 3, 6, 7, 8, 9, 10.
pub fn decode(
    header: Header,
    image: &[u8],
    erasures: &[u8],
    stripe: u32,
    out: &mut [u32],
    scratch: &mut [u32],
) -> Result<(), Refusal>
    ensures value { answer_number result ≡ decode_number header image.now erasures.now stripe out.old scratch.old }
    ensures out_after { out.new ≡ decode_leaves header image.now erasures.now stripe out.old scratch.old }
    ensures scratch_after { scratch.new ≡ decode_scratch header image.now erasures.now stripe out.old scratch.old }
{
    stripe_decoding::decoding::decode(header, image, erasures, stripe, out, scratch)
}

// All records, from an image. Tests 1, 2 (image, out, scratch), 3, and 7 to 10 of each needed stripe, of which the first at fault is named.
pub fn recover(
    header: Header,
    image: &[u8],
    erasures: &[u8],
    out: &mut [u32],
    scratch: &mut [u32],
) -> Result<(), Fault>
    ensures value { verdict_of result ≡ recover_answer header image.now erasures.now out.old scratch.old }
    ensures out_after { out.new ≡ recover_leaves header image.now erasures.now out.old scratch.old }
    ensures scratch_after { scratch.new ≡ recover_scratch header image.now erasures.now out.old scratch.old }
{
    recovery::recovering::recover(header, image, erasures, out, scratch)
}

// All records, from two readings of one rack: an image and an erasure list each. Tests 1, 2 (the images, out, scratch), 3, 13, and 7 to 10 of each needed
// stripe, of which the first at fault is named.
pub fn recover_two(
    header: Header,
    image1: &[u8],
    erasures1: &[u8],
    image2: &[u8],
    erasures2: &[u8],
    out: &mut [u32],
    scratch: &mut [u32],
) -> Result<(), Fault>
    ensures value { verdict_of result ≡ recover_two_answer header image1.now erasures1.now image2.now erasures2.now out.old scratch.old }
    ensures out_after { out.new ≡ recover_two_leaves header image1.now erasures1.now image2.now erasures2.now out.old scratch.old }
    ensures scratch_after { scratch.new ≡ recover_two_scratch header image1.now erasures1.now image2.now erasures2.now out.old scratch.old }
{
    two_readings::recovering::recover_two(
        header, image1, erasures1, image2, erasures2, out, scratch,
    )
}

// The bytes of one stripe, a part of the image of the reading that recovery takes it from. Tests 1, 2 (the images), 3, 13, 6.
pub fn shelf_of_two<'a>(
    header: Header,
    image1: &'a [u8],
    erasures1: &[u8],
    image2: &'a [u8],
    erasures2: &[u8],
    stripe: u32,
) -> Result<&'a [u8], Refusal>
    ensures value { answer_number result ≡ shelf_of_two_number header image1.now erasures1.now image2.now erasures2.now stripe }
    ensures part { read_part result ≡ shelf_of_two_part header image1.now erasures1.now image2.now erasures2.now stripe }
{
    two_readings::choosing::shelf_of_two(header, image1, erasures1, image2, erasures2, stripe)
}

// The same by where they stand: in which reading, from which byte on, and how many. This is what the boundary for C hands out.
pub fn place_of_two(
    header: Header,
    image1: &[u8],
    erasures1: &[u8],
    image2: &[u8],
    erasures2: &[u8],
    stripe: u32,
) -> Result<Place, Refusal>
    ensures value { answer_number result ≡ shelf_of_two_number header image1.now erasures1.now image2.now erasures2.now stripe }
    ensures place { place_given result ≡ place_of_two header image1.now erasures1.now image2.now erasures2.now stripe }
{
    two_readings::choosing::place_of_two(header, image1, erasures1, image2, erasures2, stripe)
}

// Why a recovery stops, or where each record comes from. Tests 1, 2 (image, counts, origins, scratch), 3, and 7 to 10 as recovery has them.
pub fn explain(
    header: Header,
    image: &[u8],
    erasures: &[u8],
    counts: &mut [u32],
    origins: &mut [u32],
    scratch: &mut [u32],
) -> Result<(), Fault>
    ensures value { verdict_of result ≡ explain_answer header image.now erasures.now counts.old origins.old scratch.old }
    ensures counts_after { counts.new ≡ explain_counts header image.now erasures.now counts.old origins.old scratch.old }
    ensures origins_after { origins.new ≡ explain_origins header image.now erasures.now counts.old origins.old scratch.old }
    ensures scratch_after { scratch.new ≡ explain_scratch header image.now erasures.now counts.old origins.old scratch.old }
{
    explanation::explaining::explain(header, image, erasures, counts, origins, scratch)
}

// The table of powers. Test 2 (powers).
pub fn powers(powers: &mut [u32]) -> Result<(), Refusal>
    ensures value { answer_number result ≡ powers_number powers.old }
    ensures powers_after { powers.new ≡ powers_leaves powers.old }
{
    power_table::powers(powers)
}

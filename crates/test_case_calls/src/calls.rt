// The calls of the vault, on what the buffers lend; each prints what it answered and what it left.
ghost use Rattle.std.specs.Prelude.{◌≡◌};
ghost use Rattle.test_case_calls.specs.Kept.{Kept, OutKept, VaultKept};

use crate::Test;
use std::io::Print;
use test_case_buffers::buffer::{all_mut, part_mut};
use test_case_buffers::output;
use vault::{Fault, Header, Refusal, calls, number_of};

// A line: a call's name, and the number of its answer.
fn answer<T: Drop>(out: &impl Print, name: &str, answer: Result<T, Refusal>) {
    output::all(out, name, &[number_of(answer)]);
}

// A line: a call's name, its number, and the stripe where one is named.
fn verdict(out: &impl Print, name: &str, answer: Result<(), Fault>) {
    match answer {
        Ok(()) => output::all(out, name, &[0]),
        Err(
            Fault {
                refusal,
                stripe: Some(stripe),
            },
        ) => output::all(out, name, &[refusal.number(), stripe]),
        Err(fault) => output::all(out, name, &[fault.refusal.number()]),
    }
}

// A number and the header that goes with it: that of the calls that follow, or what is printed of a refused call.
fn header(
    out: &impl Print,
    next: &mut Header,
    name: &str,
    answer: Result<Header, Refusal>,
    refused: Header,
) {
    let h = answer.unwrap_or(refused);
    if answer.is_ok() {
        *next = h;
    }
    output::all(out, name, &[number_of(answer), h.k, h.s, h.c]);
}

// Calls that leave the same buffers, as decode and recover, stay two: each has its own answer and its own parameters, and they share the functions that print.
impl<P: Print> Test<'_, P> {
    pub(crate) fn open(&mut self)
        ensures kept { Kept self.old.state self.new.state }
        ensures image { self.new.state.image ≡ self.old.state.image }
        ensures out { OutKept self.old.state self.new.state }
    {
        let state = &mut self.state;
        let Header { k, s, .. } = state.header;
        let (full, log) = (&mut state.full, &mut state.log);
        let opened = calls::open(
            k,
            s,
            state.raw.part(),
            part_mut(full.lent, full.all),
            part_mut(log.lent, log.all),
        );
        header(
            self.out,
            &mut self.state.header,
            "open",
            opened,
            Header::default(),
        );
        output::words(self.out, " full", self.state.full.part());
        output::words(self.out, " log", self.state.log.part());
    }

    pub(crate) fn write(&mut self, record: u32)
        ensures kept { Kept self.old.state self.new.state }
        ensures image { self.new.state.image ≡ self.old.state.image }
        ensures out { OutKept self.old.state self.new.state }
    {
        let state = &mut self.state;
        let before = state.header;
        let (raw, full, log) = (&mut state.raw, &mut state.full, &mut state.log);
        let written = calls::write(
            before,
            part_mut(raw.lent, raw.all),
            part_mut(full.lent, full.all),
            part_mut(log.lent, log.all),
            record,
            state.block.part(),
        );
        header(self.out, &mut self.state.header, "write", written, before);
        output::words(self.out, " raw", self.state.raw.part());
        output::words(self.out, " full", self.state.full.part());
        output::words(self.out, " log", self.state.log.part());
    }

    pub(crate) fn strike(&mut self, record: u32)
        ensures kept { Kept self.old.state self.new.state }
        ensures image { self.new.state.image ≡ self.old.state.image }
        ensures out { OutKept self.old.state self.new.state }
    {
        let state = &mut self.state;
        let before = state.header;
        let (raw, full, log) = (&mut state.raw, &mut state.full, &mut state.log);
        let struck = calls::strike(
            before,
            part_mut(raw.lent, raw.all),
            part_mut(full.lent, full.all),
            part_mut(log.lent, log.all),
            record,
        );
        header(self.out, &mut self.state.header, "strike", struck, before);
        output::words(self.out, " raw", self.state.raw.part());
        output::words(self.out, " full", self.state.full.part());
        output::words(self.out, " log", self.state.log.part());
    }

    // So many words are lent to it for its scratch, which hold what no scratch does afterwards.
    pub(crate) fn take_back(&mut self, count: usize)
        ensures kept { Kept self.old.state self.new.state }
        ensures image { self.new.state.image ≡ self.old.state.image }
        ensures out { OutKept self.old.state self.new.state }
    {
        let state = &mut self.state;
        let before = state.header;
        let mut all = [99999u32; 16384];
        let scratch = &mut all[..count.min(16384)];
        let (raw, log) = (&mut state.raw, &mut state.log);
        let taken_back = calls::take_back(
            before,
            part_mut(raw.lent, raw.all),
            state.full.part(),
            part_mut(log.lent, log.all),
            scratch,
        );
        header(
            self.out,
            &mut self.state.header,
            "take_back",
            taken_back,
            before,
        );
        output::words(self.out, " raw", self.state.raw.part());
        output::words(self.out, " log", self.state.log.part());
        output::words(self.out, " scratch", scratch);
    }

    pub(crate) fn read(&self, record: u32) {
        let header = self.state.header;
        let raw = self.state.raw.part();
        let number = calls::read_number(header, raw, record);
        output::all(self.out, "read", &[number]);
        output::words(self.out, " part", calls::read(header, raw, record));
    }

    pub(crate) fn image(&mut self)
        ensures kept { Kept self.old.state self.new.state }
        ensures vault { VaultKept self.old.state self.new.state }
        ensures out { OutKept self.old.state self.new.state }
    {
        let state = &mut self.state;
        let image = &mut state.image;
        let made = calls::image(
            state.header,
            state.full.part(),
            state.log.part(),
            part_mut(image.lent, image.all),
        );
        answer(self.out, "image", made);
        output::sum(self.out, " image", self.state.image.part());
    }

    pub(crate) fn decode(&mut self, stripe: u32)
        ensures kept { Kept self.old.state self.new.state }
        ensures vault { VaultKept self.old.state self.new.state }
        ensures image { self.new.state.image ≡ self.old.state.image }
    {
        let state = &mut self.state;
        let (out, scratch) = (&mut state.out, &mut state.scratch);
        let decoded = calls::decode(
            state.header,
            state.image.part(),
            state.list.part(),
            stripe,
            part_mut(out.lent, out.all),
            part_mut(scratch.lent, scratch.all),
        );
        answer(self.out, "decode", decoded);
        output::words(self.out, " out", self.state.out.part());
        output::words(self.out, " scratch", self.state.scratch.part());
    }

    pub(crate) fn recover(&mut self)
        ensures kept { Kept self.old.state self.new.state }
        ensures vault { VaultKept self.old.state self.new.state }
        ensures image { self.new.state.image ≡ self.old.state.image }
    {
        let state = &mut self.state;
        let (out, scratch) = (&mut state.out, &mut state.scratch);
        let recovered = calls::recover(
            state.header,
            state.image.part(),
            state.list.part(),
            part_mut(out.lent, out.all),
            part_mut(scratch.lent, scratch.all),
        );
        verdict(self.out, "recover", recovered);
        output::words(self.out, " out", self.state.out.part());
        output::words(self.out, " scratch", self.state.scratch.part());
    }

    // An explanation. So many words are lent to it for its counts, which hold what no count is; its origins go to the output.
    pub(crate) fn explain(&mut self, count: usize)
        ensures kept { Kept self.old.state self.new.state }
        ensures vault { VaultKept self.old.state self.new.state }
        ensures image { self.new.state.image ≡ self.old.state.image }
    {
        let state = &mut self.state;
        let (out, scratch) = (&mut state.out, &mut state.scratch);
        let mut all = [99999u32; 32];
        let counts = &mut all[..count.min(32)];
        let explained = calls::explain(
            state.header,
            state.image.part(),
            state.list.part(),
            counts,
            part_mut(out.lent, out.all),
            part_mut(scratch.lent, scratch.all),
        );
        verdict(self.out, "explain", explained);
        output::all(self.out, " counts", counts);
        output::all(self.out, " origins", self.state.out.part());
        output::words(self.out, " scratch", self.state.scratch.part());
    }

    pub(crate) fn recover_two(&mut self)
        ensures kept { Kept self.old.state self.new.state }
        ensures vault { VaultKept self.old.state self.new.state }
        ensures image { self.new.state.image ≡ self.old.state.image }
    {
        let state = &mut self.state;
        let (out, scratch) = (&mut state.out, &mut state.scratch);
        let recovered = calls::recover_two(
            state.header,
            state.image.part(),
            state.list.part(),
            state.image2.part(),
            state.list2.part(),
            part_mut(out.lent, out.all),
            part_mut(scratch.lent, scratch.all),
        );
        verdict(self.out, "recover_two", recovered);
        output::words(self.out, " out", self.state.out.part());
        output::words(self.out, " scratch", self.state.scratch.part());
    }

    // A stripe of two readings: where it stands, by one of the two calls for it, and its bytes, by the other.
    pub(crate) fn shelf_of_two(&self, stripe: u32) {
        let state = &self.state;
        let (image, list) = (state.image.part(), state.list.part());
        let (image2, list2) = (state.image2.part(), state.list2.part());
        let place = calls::place_of_two(state.header, image, list, image2, list2, stripe);
        let shelf = calls::shelf_of_two(state.header, image, list, image2, list2, stripe);
        // an image has at most 65,536 bytes here
        let (reading, start, count) = match place {
            Ok(place) => (
                place.reading,
                place.start.min(65536) as u32,
                place.count.min(65536) as u32,
            ),
            Err(_) => (0, 0, 0),
        };
        output::all(
            self.out,
            "shelf_of_two",
            &[number_of(shelf), reading, start, count],
        );
        output::sum(self.out, " part", shelf.unwrap_or(&[]));
    }

    pub(crate) fn powers(&mut self)
        ensures kept { Kept self.old.state self.new.state }
        ensures vault { VaultKept self.old.state self.new.state }
        ensures image { self.new.state.image ≡ self.old.state.image }
    {
        let state = &mut self.state;
        let out = &mut state.out;
        let made = calls::powers(part_mut(out.lent, out.all));
        answer(self.out, "powers", made);
        output::words(self.out, " out", self.state.out.part());
    }

    // A listing of the input that stands in `list`, which goes to the image. A short one is printed as it is.
    pub(crate) fn list(&mut self)
        ensures kept { Kept self.old.state self.new.state }
        ensures vault { VaultKept self.old.state self.new.state }
        ensures out { OutKept self.old.state self.new.state }
    {
        let state = &mut self.state;
        let image = &mut state.image;
        let text = all_mut(image.all);
        let length = listing::list(state.list.part(), text);
        let text = &text[..length];
        output::line(self.out, "list ", length);
        if 256 < length {
            output::sum(self.out, " text", text);
        } else {
            // a listing that cannot be written is lost, as a line is
            let _ = self.out.write_all(text);
        }
    }
}

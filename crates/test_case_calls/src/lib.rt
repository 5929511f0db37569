// Test code, below the program test_cases: the calls of the vault on what a test's buffers lend. What the calls answer and leave is printed, and compared by
// running it; proved is that each function is safe and ends, and what a call leaves as it was.
#![tactic(auto)]

ghost use Rattle.test_case_calls.specs.Kept.{Kept, RestKept};

mod calls;

use std::io::Print;
use test_case_buffers::command::Call;
use test_case_buffers::state::State;

// What the calls of a test are lent, and where they print.
#[derive(Drop)]
pub struct Test<'a, P> {
    pub state: State<'a>,
    pub out: &'a P,
}

impl<P: Print> Test<'_, P> {
    // Makes a call, and prints what it answers and leaves.
    pub fn make(&mut self, call: Call)
        ensures kept { Kept self.old.state self.new.state }
        ensures rest { RestKept call self.old.state self.new.state }
    {
        match call {
            Call::Open => self.open(),
            Call::Write { record } => self.write(record),
            Call::Strike { record } => self.strike(record),
            Call::Read { record } => self.read(record),
            Call::Image => self.image(),
            Call::Decode { stripe } => self.decode(stripe),
            Call::Recover => self.recover(),
            Call::List => self.list(),
            Call::Explain { counts } => self.explain(counts as usize),
            Call::Powers => self.powers(),
            Call::TakeBack { scratch } => self.take_back(scratch as usize),
            Call::RecoverTwo => self.recover_two(),
            Call::ShelfOfTwo { stripe } => self.shelf_of_two(stripe),
        }
    }
}

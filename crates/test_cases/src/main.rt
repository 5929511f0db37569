// Runs the calls of the vault on the cases that standard input holds, and prints what each call answers and leaves. The cases and the expected output are made
// by `cases` of reference/, whose modules script and machine describe both formats. What is printed is compared, not proved.
#![tactic(auto)]

use test_case_buffers::command::Command;
use test_case_buffers::input;
use test_case_buffers::state::{Memory, State};
use test_case_calls::Test;

// All commands: their count, and then each, but for those whose numbers name nothing.
fn main(rt: HostRuntime) {
    let mut input = rt.reader();
    let mut memory = Memory::zeros();
    let mut test = Test {
        state: State::new(&mut memory),
        out: &rt,
    };
    for _ in 0..input::number(&mut input) {
        match Command::try_from(input::command(&mut input)) {
            Ok(Command::Change(change)) => test.state.change(change, &mut input),
            Ok(Command::Call(call)) => test.make(call),
            Err(_) => {}
        }
    }
}

// Test code, below the program test_cases: commands from standard input, the buffers that they fill and change, and what is printed of those. What is read,
// drawn and printed is compared by running it, not proved; proved is that each function is safe and ends, what a command's kind and numbers name, what a buffer
// lends, and what a change makes of the header, of how much is lent and of which buffers. That a buffer keeps its size is in its type.
#![tactic(auto)]

pub mod buffer;
pub mod command;
mod draw;
pub mod input;
pub mod output;
pub mod state;

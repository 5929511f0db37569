// A level of the log taken apart: its code becomes that of the levels below it, by unmixing. It is what rebuilding a level (crate store) does, backwards.
#![tactic(auto)]

pub mod levels;
mod rows;

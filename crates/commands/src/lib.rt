// The commands of the program, read from bytes.
#![tactic(auto)]

pub mod command;

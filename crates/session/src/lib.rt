// Sessions of the program: what each command does, what it answers, and the lines that a run prints.
#![tactic(auto)]

pub mod answer;
pub mod channels;
pub mod line;
pub mod session;
pub mod transcript;

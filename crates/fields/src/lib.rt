// Fields of fixed widths, read from bytes and written to them.
#![tactic(auto)]

pub mod field;
pub mod tuple;
pub mod write;

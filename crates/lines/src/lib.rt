// Lines of bytes, and the reader of every line program.
#![tactic(auto)]

pub mod line;
pub mod source;

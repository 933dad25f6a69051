// The dimensions of a domain over a field, which its type tells the width of.
#![tactic(auto)]

pub mod over;

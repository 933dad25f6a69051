// The shape that a line of skipplan writes.
#![tactic(auto)]

pub mod shape;

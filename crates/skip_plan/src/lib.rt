// The plan of a round from its shape.
#![tactic(auto)]

pub mod plan;

// Where the round polynomial of a univariate-skip round lives: the domain over a field.
#![tactic(auto)]

pub mod domain;
mod points;
pub mod vanishing;

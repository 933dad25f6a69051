// The numbers of a domain: dimensions, the degrees that they carry, and why a domain is not built.
#![tactic(auto)]

pub mod degree;
pub mod dimensions;
pub mod fault;
pub mod refusal;

// What a line of fieldcalc asks for, and the answers of a field.
#![tactic(auto)]

pub mod calculation;
pub mod request;

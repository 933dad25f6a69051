// The words of a text, and the numbers and packed rows that words write.
#![tactic(auto)]

pub mod numeral;
pub mod packed;
pub mod word;

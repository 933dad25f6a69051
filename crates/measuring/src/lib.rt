// What a bench is made of: seeded values, checksums, and the time of repetitions.
#![tactic(auto)]

pub mod arguments;
pub mod checksum;
pub mod generator;
pub mod timing;

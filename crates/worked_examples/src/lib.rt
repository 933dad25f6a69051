// The rules on examples, one module for each subject. A crate with tests is proved twice, so they stand
// apart from what they try.
#![tactic(auto)]

#[cfg(test)]
mod dimensions;
#[cfg(test)]
mod domain;
#[cfg(test)]
mod generator;
#[cfg(test)]
mod rule;
#[cfg(test)]
mod sum;
#[cfg(test)]
mod text;

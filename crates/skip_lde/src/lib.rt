// The table that carries a packed row of bits to the transmitted points of a univariate-skip round.
#![tactic(auto)]

mod blocks;
mod columns;
pub mod fault;
pub mod lde;
mod lengths;
mod points;
mod rows;
mod table;

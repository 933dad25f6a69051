// The rules that a round proves: each a polynomial over a field in its operands, read over the field and over its extensions.
#![tactic(auto)]

pub mod composition;
pub mod conjunction;
pub mod gate;
pub mod monomial_sum;
mod operand;
pub mod rule;
pub mod square_product;
pub mod sum_composition;

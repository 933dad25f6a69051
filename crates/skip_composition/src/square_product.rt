// A cubic constraint.
ghost use Rattle.skip_composition.specs.Declarations.{declared_by};
ghost use Rattle.skip_composition.specs.MonomialSumsLemmas.{declares_ones};
ghost use Rattle.skip_composition.specs.Polynomials.{with_ones};
ghost use Rattle.skip_composition.specs.Rules.{square_product};

use crate::composition::Composition;
use crate::monomial_sum::MonomialSum;
use crate::operand::operand;
use fields::extension::ExtensionField;
use fields::field::Field;

// a·a·b + c, which is zero where the third operand is the square of the first times the second.
// Its degree is three, so a round sized for a quadratic rule cannot carry it.
#[derive(Clone, Copy, PartialEq, Eq, Debug)]
pub struct SquareProduct;

impl MonomialSum for SquareProduct {
    ghost monomials = { λ _. square_product };

    fn arity(&self) -> u16 {
        3
    }

    fn degree(&self) -> u16 {
        3
    }

    fn value<E: Field>(&self, values: &[E]) -> E {
        let a = operand(values, 0);
        a.product(a)
            .product(operand(values, 1))
            .sum(operand(values, 2))
    }
}

impl<F: Field> Composition<F> for SquareProduct {
    ghost polynomial = { λ _. with_ones F.Field.ops square_product };

    ghost declared = { λ _. declared_by square_product };

    ghost declares = { λ _. declares_ones F.Field.ops square_product };

    fn arity(&self) -> u16 {
        MonomialSum::arity(self)
    }

    fn degree(&self) -> u16 {
        MonomialSum::degree(self)
    }

    #[tactic(auto, using(crate::proofs::Values::ones_embed))]
    fn eval_extension<EF: ExtensionField<F, D>, D>(&self, values: &[EF]) -> EF {
        self.value(values)
    }
}

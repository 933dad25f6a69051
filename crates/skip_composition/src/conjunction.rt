// The conjunction of two bits.
ghost use Rattle.skip_composition.specs.Declarations.{declared_by};
ghost use Rattle.skip_composition.specs.MonomialSumsLemmas.{declares_ones};
ghost use Rattle.skip_composition.specs.Polynomials.{with_ones};
ghost use Rattle.skip_composition.specs.Rules.{conjunction};

use crate::composition::Composition;
use crate::monomial_sum::MonomialSum;
use crate::operand::operand;
use fields::extension::ExtensionField;
use fields::field::Field;

// a·b + c, which is zero where the third operand is the conjunction of the first two.
#[derive(Clone, Copy, PartialEq, Eq, Debug)]
pub struct Conjunction;

impl MonomialSum for Conjunction {
    ghost monomials = { λ _. conjunction };

    fn arity(&self) -> u16 {
        3
    }

    fn degree(&self) -> u16 {
        2
    }

    fn value<E: Field>(&self, values: &[E]) -> E {
        operand(values, 0)
            .product(operand(values, 1))
            .sum(operand(values, 2))
    }
}

impl<F: Field> Composition<F> for Conjunction {
    ghost polynomial = { λ _. with_ones F.Field.ops conjunction };

    ghost declared = { λ _. declared_by conjunction };

    ghost declares = { λ _. declares_ones F.Field.ops conjunction };

    fn arity(&self) -> u16 {
        MonomialSum::arity(self)
    }

    fn degree(&self) -> u16 {
        MonomialSum::degree(self)
    }

    #[tactic(auto, using(crate::proofs::Values::ones_embed))]
    fn eval_extension<EF: ExtensionField<F, D>, D>(&self, values: &[EF]) -> EF {
        self.value(values)
    }
}

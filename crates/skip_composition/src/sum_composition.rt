// A sum of monomials as a composition.
ghost use Rattle.skip_composition.specs.Declarations.{declared_by};
ghost use Rattle.skip_composition.specs.MonomialSumsLemmas.{declares_ones};
ghost use Rattle.skip_composition.specs.Polynomials.{with_ones};

use crate::composition::Composition;
use crate::monomial_sum::MonomialSum;
use fields::extension::ExtensionField;
use fields::field::Field;

// A sum of monomials as the composition that it is over every field. It holds the sum, so that another
// crate may still implement `Composition` over a field of its own for a type that is not its own.
#[derive(Clone, Copy, PartialEq, Eq, Debug)]
pub struct SumComposition<S>(pub S);

impl<F: Field, S: MonomialSum> Composition<F> for SumComposition<S> {
    ghost polynomial = { λ s. with_ones F.Field.ops (S.MonomialSum.monomials s.0) };

    ghost declared = { λ s. declared_by (S.MonomialSum.monomials s.0) };

    ghost declares = { λ s. declares_ones F.Field.ops (S.MonomialSum.monomials s.0) };

    fn arity(&self) -> u16 {
        self.0.arity()
    }

    fn degree(&self) -> u16 {
        self.0.degree()
    }

    #[tactic(auto, using(crate::proofs::Values::ones_embed))]
    fn eval_extension<EF: ExtensionField<F, D>, D>(&self, values: &[EF]) -> EF {
        self.0.value(values)
    }
}

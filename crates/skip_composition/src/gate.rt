// A gate over any composition.
ghost use Rattle.std.specs.Prelude.{◌≡◌};
ghost use Rattle.skip_composition.specs.Gates.{gated, gated_number, gated_declared};
ghost use Rattle.skip_composition.specs.GatesLemmas.{gated_declares};

use crate::composition::Composition;
use crate::operand::{after_first, operand};
use fields::extension::ExtensionField;
use fields::field::Field;

// The first operand times a composition of the others.
#[derive(Clone, Copy, PartialEq, Eq, Debug)]
pub struct Gate<C> {
    pub inner: C,
}

// One operand or one factor more, as a gate adds it; a number stops at the largest.
pub(crate) fn one_more(n: u16) -> u16
    ensures { result ≡ gated_number n }
{
    n.saturating_add(1)
}

impl<F: Field, C: Composition<F>> Composition<F> for Gate<C> {
    ghost polynomial = { λ s. gated (C.Composition.polynomial s.inner) };

    ghost declared = { λ s. gated_declared (C.Composition.declared s.inner) };

    ghost declares = { λ s. gated_declares _ _ (C.Composition.declares s.inner) };

    fn arity(&self) -> u16 {
        one_more(self.inner.arity())
    }

    fn degree(&self) -> u16 {
        one_more(self.inner.degree())
    }

    fn eval_extension<EF: ExtensionField<F, D>, D>(&self, values: &[EF]) -> EF {
        let others = after_first(values);
        operand(values, 0).product(self.inner.eval_extension(others))
    }
}

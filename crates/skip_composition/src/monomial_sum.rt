// Sums of monomials, each with the coefficient one.
ghost use Rattle.std.specs.Prelude.{◌≡◌};
ghost use Rattle.skip_composition.specs.Declarations.{declared_by};
ghost use Rattle.skip_composition.specs.Polynomials.{Monomials, operands, value, with_ones};

use fields::field::Field;

// A polynomial whose coefficients are all one, so that it is given by its monomials and computed
// alike over every field. `SumComposition` makes a composition of any; a type may also give its own.
pub trait MonomialSum {
    ghost monomials: { Self → Monomials };

    // Number of operands, exactly.
    fn arity(&self) -> u16
        ensures { result ≡ (declared_by (monomials self.now)).arity };

    // Total degree in the operands.
    fn degree(&self) -> u16
        ensures { result ≡ (declared_by (monomials self.now)).degree };

    // The value over any field; a missing operand reads as zero.
    fn value<E: Field>(&self, values: &[E]) -> E
        ensures { result ≡ value E.Field.ops (with_ones E.Field.ops (monomials self.now)) (operands E.Field.ops values.now) };
}

// A sum that is lent.
#[derive(Clone, Copy, PartialEq, Eq, Debug)]
pub struct LentSum<'a, S>(pub &'a S);

impl<S: MonomialSum> MonomialSum for LentSum<'_, S> {
    ghost monomials = { λ s. S.MonomialSum.monomials s.0.now };

    fn arity(&self) -> u16 {
        self.0.arity()
    }

    fn degree(&self) -> u16 {
        self.0.degree()
    }

    fn value<E: Field>(&self, values: &[E]) -> E {
        self.0.value(values)
    }
}

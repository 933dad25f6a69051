// The rule that a round proves: one polynomial over a field, read over that field and over its extensions.
ghost use Rattle.std.specs.Prelude.{◌≡◌};
ghost use Rattle.skip_composition.specs.Declarations.{Declared, Declares};
ghost use Rattle.skip_composition.specs.Polynomials.{Polynomial, operands, value, value_through};
ghost use Rattle.skip_composition.specs.Theorems.{EvaluationsAgree, ReadsOperands};

use fields::extension::{ExtensionField, Here};
use fields::field::Field;

// A polynomial over F in its operands, with a declared arity and degree. Each evaluation gives the
// polynomial's value; a missing operand reads as zero, and a surplus one is skipped.
pub trait Composition<F: Field> {
    ghost polynomial: { Self → Polynomial F };

    ghost declared: { Self → Declared };

    // Number of operands, exactly; 65,535 declares no bound.
    fn arity(&self) -> u16
        ensures { result ≡ (declared self.now).arity };

    // No monomial has more factors; 65,535 declares no bound.
    fn degree(&self) -> u16
        ensures { result ≡ (declared self.now).degree };

    // The value over the field, which extends itself.
    fn eval_base(&self, values: &[F]) -> F
        ensures { result ≡ value F.Field.ops (polynomial self.now) (operands F.Field.ops values.now) }
    {
        self.eval_extension::<F, Here>(values)
    }

    fn eval_extension<EF: ExtensionField<F, D>, D>(&self, values: &[EF]) -> EF
        ensures { result ≡ value_through EF.Field.ops EF.ExtensionField.over.embed (polynomial self.now) (operands EF.Field.ops values.now) };

    ghost declares: { (c : Self) → Declares (polynomial c) (declared c) };
}

// The two evaluations agree: that of embedded operands is the image of that of the operands.
#[tactic(auto, using(crate::proofs::Values::agrees_embedded))]
pub fn evaluations_agree<F: Field, EF: ExtensionField<F, D>, D, C: Composition<F>>()
    ensures { (c : C) → EvaluationsAgree F.Field.ops EF.Field.ops EF.ExtensionField.over.embed (C.Composition.polynomial c) }
{}

// Missing operands read as zero, and values past a declared arity are skipped.
#[tactic(auto, using(crate::proofs::Declarations::reads_operands))]
pub fn operands_are_read<F: Field, EF: ExtensionField<F, D>, D, C: Composition<F>>()
    ensures { (c : C) → ReadsOperands EF.Field.ops EF.ExtensionField.over.embed (C.Composition.polynomial c) (C.Composition.declared c) }
{}

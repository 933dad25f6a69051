// The operands in a slice of values.
ghost use Rattle.std.specs.Prelude.{◌≡◌, drop};
ghost use Rattle.skip_composition.specs.Polynomials.{operands};

use fields::field::Field;

// The operand of an index, zero if it is missing.
pub(crate) fn operand<E: Field>(values: &[E], index: usize) -> E
    ensures { result ≡ operands E.Field.ops values.now index }
{
    values.get(index).copied().unwrap_or(E::zero())
}

// The operands after the first.
pub(crate) fn after_first<E: Field>(values: &[E]) -> &[E]
    ensures { result.now ≡ drop 1 values.now }
{
    values.get(1..).unwrap_or_default()
}

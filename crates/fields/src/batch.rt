// Inverses of many elements at once.
ghost use Rattle.std.specs.Prelude.{◌≡◌};
ghost use Rattle.fields.specs.Batch.{batch_answer, batch_inverses};

use super::field::Field;

// Replaces each element by its inverse; if one is zero, answers None and changes nothing.
pub fn batch_multiplicative_inverse<F: Field>(values: &mut [F]) -> Option<()>
    ensures answer { result ≡ batch_answer F.Field.ops values.old }
    ensures inverses { values.new ≡ batch_inverses F.Field.ops values.old }
{
    if values.contains(&F::zero()) {
        return None;
    }
    for value in values.iter_mut() {
        *value = value.inverse().unwrap_or(*value);
    }
    Some(())
}

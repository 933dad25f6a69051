// The points that the Cantor basis of a level spans.
ghost use Rattle.std.specs.Prelude.{◌≡◌, ◌<◌, cond};
ghost use Rattle.fields.specs.Tower.{bit_set};
ghost use Rattle.algebra.specs.Points.{basis_element_or_zero, point as cantor_point};

use fields::field::Field;
use fields::tower::TowerLevel;

// Element r of the basis, or zero where the basis has none.
pub fn basis_or_zero<F: TowerLevel>(r: usize) -> F
    ensures { result ≡ basis_element_or_zero F.Field.ops F.TowerLevel.level r }
{
    F::cantor_basis(r).unwrap_or(F::zero())
}

// Adds element r of the basis where bit r of the index is set. Zero is added where it is clear, so that no
// branch hangs on the bits.
fn with_bit<F: TowerLevel>(sum: F, index: usize, r: usize) -> F
    requires { r < 64 }
    ensures { result ≡ F.Field.ops.sum sum (cond (bit_set index r) (basis_element_or_zero F.Field.ops F.TowerLevel.level r) F.Field.ops.zero) }
{
    if (index >> r) % 2 == 1 {
        sum.sum(basis_or_zero(r))
    } else {
        sum.sum(F::zero())
    }
}

// The point of an index: the sum of the basis elements at its set bits; a bit that has no basis
// element adds nothing.
pub fn point<F: TowerLevel>(index: usize) -> F
    ensures { result ≡ cantor_point F.Field.ops F.TowerLevel.level index }
{
    (0..64usize).fold(F::zero(), |sum, r| with_bit(sum, index, r))
}

// Points made from a few elements of the Cantor basis, computed once.
ghost use Rattle.std.specs.Prelude.{◌≡◌, ℕ, ◌^◌, ◌<◌, ◌≤◌, cond, length, slice_index_or};
ghost use Rattle.fields.specs.Tower.{bit_set};
ghost use Rattle.algebra.specs.Points.{basis_element_or_zero, point as cantor_point};

use algebra::basis::basis_or_zero;
use fields::field::Field;
use fields::tower::TowerLevel;
use std::array;

// Adds an element where bit r of the index is set. Zero is added where it is clear, so that no branch
// hangs on the bits.
fn with_bit<F: Field>(sum: F, index: usize, r: usize, element: F) -> F
    requires { r < 64 }
    ensures { result ≡ F.Field.ops.sum sum (cond (bit_set index r) element F.Field.ops.zero) }
{
    if (index >> r) % 2 == 1 {
        sum.sum(element)
    } else {
        sum.sum(F::zero())
    }
}

// The first elements of the Cantor basis, at most sixteen.
#[derive(Drop)]
pub(crate) struct Basis<'a, F: TowerLevel> {
    pub(crate) elements: &'a [F],
    pub(crate) ghost few: { length elements.now ≤ 16 },
    pub(crate) ghost first: { (r : ℕ) → r < length elements.now → slice_index_or elements.now r F.Field.ops.zero ≡ basis_element_or_zero F.Field.ops F.TowerLevel.level r },
}

// As many elements of the basis as a domain may have dimensions.
pub(crate) fn basis_elements<F: TowerLevel>() -> [F; 16]
    ensures { (r : ℕ) → r < 16 → slice_index_or result r F.Field.ops.zero ≡ basis_element_or_zero F.Field.ops F.TowerLevel.level r }
{
    array::from_fn(|r| basis_or_zero::<F>(r))
}

impl<F: TowerLevel> Basis<'_, F> {
    // The point of an index of no more bits than there are elements: the sum of those at its set bits.
    pub(crate) fn point(&self, index: usize) -> F
        requires { index < 2 ^ length self.now.elements.now }
        ensures { result ≡ cantor_point F.Field.ops F.TowerLevel.level index }
    {
        let mut point = F::zero();
        for (r, element) in self.elements.iter().enumerate() {
            point = with_bit(point, index, r, *element);
        }
        point
    }

    // The points of the indices 0 to 7.
    pub(crate) fn first_points(&self) -> [F; 8]
        requires { 3 ≤ length self.now.elements.now }
        ensures { (j : ℕ) → j < 8 → slice_index_or result j F.Field.ops.zero ≡ cantor_point F.Field.ops F.TowerLevel.level j }
    {
        array::from_fn(|j| self.point(j))
    }
}

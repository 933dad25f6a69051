// The columns of the table: the Lagrange polynomials of the points 0 to 7 of the subspace at every
// transmitted point.
ghost use Rattle.std.specs.Prelude.{◌≡◌, ℕ, ◌+◌, ◌^◌, ◌<◌, ◌≤◌, length, slice_index_or};
ghost use Rattle.fields.specs.Tower.{width};
ghost use Rattle.algebra.specs.Interpolation.{lagrange};
ghost use Rattle.algebra.specs.Points.{point as cantor_point};
ghost use Rattle.algebra.specs.Quotients.{quotient as quotient_of};
ghost use Rattle.skip_lde.specs.Rows.{transmitted};

use crate::points::Basis;
use fields::field::Field;
use fields::tower::TowerLevel;
use skip_dimensions::dimensions::Dimensions;

// What the columns of a domain over F are computed from: a basis element for each dimension, and the
// points 0 to 7.
#[derive(Drop)]
pub(crate) struct Columns<'a, F: TowerLevel> {
    pub(crate) dimensions: Dimensions,
    pub(crate) basis: Basis<'a, F>,
    pub(crate) points: &'a [F; 8],
    pub(crate) ghost fits: { dimensions.log_extended ≤ width F.TowerLevel.level },
    pub(crate) ghost each: { length basis.elements.now ≡ dimensions.log_extended },
    pub(crate) ghost eight: { (j : ℕ) → j < 8 → slice_index_or points.now j F.Field.ops.zero ≡ cantor_point F.Field.ops F.TowerLevel.level j },
}

// x / y, and zero where y is zero.
fn divide<F: Field>(x: F, y: F) -> F
    ensures { result ≡ quotient_of F.Field.ops x y }
{
    x.product(y.inverse().unwrap_or(F::zero()))
}

// vanishing / (t + point) for each of the points.
fn quotients<F: Field>(vanishing: F, t: F, points: &[F; 8]) -> [F; 8]
    ensures { (j : ℕ) → j < 8 → slice_index_or result j F.Field.ops.zero ≡ quotient_of F.Field.ops vanishing (F.Field.ops.sum t (slice_index_or points.now j F.Field.ops.zero)) }
{
    let mut values = [F::zero(); 8];
    for (j, value) in values.iter_mut().enumerate() {
        *value = divide(vanishing, t.sum(points[j]));
    }
    values
}

impl<F: TowerLevel> Columns<'_, F> {
    // The Lagrange polynomials of the points 0 to 7 at transmitted point i. There the vanishing
    // polynomial of the subspace is the point whose index has the low bits left out.
    pub(crate) fn column(&self, i: usize) -> [F; 8]
        requires { i < transmitted self.now.dimensions.log_size self.now.dimensions.log_extended }
        ensures { let s = self.now.dimensions.log_size in let t = cantor_point F.Field.ops F.TowerLevel.level in (j : ℕ) → j < 8 → slice_index_or result j F.Field.ops.zero ≡ lagrange F.Field.ops (2 ^ s) t j (t (2 ^ s + i)) }
    {
        let index = self.dimensions.size() + i;
        let t = self.basis.point(index);
        let vanishing = self.basis.point(index >> self.dimensions.log_size);
        quotients(vanishing, t, self.points)
    }
}

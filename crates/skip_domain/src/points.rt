// The points of a domain, built into a buffer.
ghost use Rattle.std.specs.Prelude.{◌≡◌, ℕ, ◌+◌, ◌^◌, ◌<◌, ◌≤◌, length, slice_index_or};
ghost use Rattle.skip_domain.specs.Domains.{points_of};

use algebra::basis::basis_or_zero;
use fields::field::Field;
use fields::tower::TowerLevel;

// Doubles the first `half` points: each of them plus the step stands that far behind it.
fn double_points<F: Field>(buffer: &mut [F], half: usize, step: F)
    requires { half + half ≤ length buffer.old }
    ensures kept { (k : ℕ) → k < half → slice_index_or buffer.new k F.Field.ops.zero ≡ slice_index_or buffer.old k F.Field.ops.zero }
    ensures shifted { (k : ℕ) → k < half → slice_index_or buffer.new (half + k) F.Field.ops.zero ≡ F.Field.ops.sum (slice_index_or buffer.old k F.Field.ops.zero) step }
{
    for j in 0..half {
        buffer[half + j] = buffer[j].sum(step);
    }
}

// Writes the points of log_extended dimensions in index order: point(0) is zero, and dimension r
// doubles the 2^r points of the dimensions below it by element r of the basis.
pub(crate) fn fill_points<F: TowerLevel>(log_extended: usize, buffer: &mut [F])
    requires fits { log_extended < 64 }
    requires length { length buffer.old ≡ 2 ^ log_extended }
    ensures { buffer.new ≡ points_of F.Field.ops F.TowerLevel.level log_extended }
{
    buffer[0] = F::zero();
    for r in 0..log_extended {
        double_points(buffer, 1 << r, basis_or_zero(r));
    }
}

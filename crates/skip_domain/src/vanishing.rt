// The vanishing polynomial of a subspace that the Cantor basis spans.
ghost use Rattle.std.specs.Prelude.{◌≡◌, ℕ, ◌+◌, ◌<◌, ◌≤◌, length, slice_index_or};
ghost use Rattle.algebra.specs.Points.{phi_power};

use fields::field::Field;

// The vanishing polynomial of log_size dimensions at x, in F or in an extension of it: the map
// w -> w*w + w, applied once for each dimension.
pub fn vanishing_poly<F: Field>(log_size: usize, x: F) -> F
    ensures { result ≡ phi_power F.Field.ops log_size x }
{
    (0..log_size).fold(x, |value, _| value.product(value).sum(value))
}

// Writes the value into `len` elements, from `start` on.
pub(crate) fn fill_block<F: Field>(output: &mut [F], start: usize, len: usize, value: F)
    requires { start + len ≤ length output.old }
    ensures before { (k : ℕ) → k < start → slice_index_or output.new k F.Field.ops.zero ≡ slice_index_or output.old k F.Field.ops.zero }
    ensures block { (k : ℕ) → k < len → slice_index_or output.new (start + k) F.Field.ops.zero ≡ value }
{
    let block = &mut output[start..start + len];
    for element in block.iter_mut() {
        *element = value;
    }
}

// The table built: its rows of one set bit, then every other row by peeling the lowest set bit.
ghost use Rattle.std.specs.Prelude.{◌≡◌, ℕ, ◌+◌, ◌-◌, ◌*◌, ◌^◌, ◌<◌, ◌≤◌, ◌≢◌, length, slice_index_or};
ghost use Rattle.fields.specs.Tower.{width};
ghost use Rattle.algebra.specs.Interpolation.{lagrange};
ghost use Rattle.algebra.specs.Points.{point as cantor_point};
ghost use Rattle.algebra.specs.Sums.{bit_sum};
ghost use Rattle.skip_lde.specs.Rows.{transmitted};
ghost use Rattle.skip_lde.specs.Tables.{Built};

use crate::columns::Columns;
use crate::points::{Basis, basis_elements};
use fields::field::Field;
use fields::tower::TowerLevel;
use skip_dimensions::dimensions::Dimensions;

// Where entry (v, i) stands in a table of rows of n entries.
fn entry_place(v: usize, n: usize, i: usize) -> usize
    requires { (v < 256) × (i < n) × (n < 2 ^ 17) }
    ensures { (result ≡ v * n + i) × (result < 256 * n) }
{
    v * n + i
}

// Writes a column's values into place i of the table rows 1, 2, 4 to 128, which have n places each;
// every place but i of a row stays.
fn write_column<F: Field>(table: &mut [F], n: usize, i: usize, column: &[F; 8])
    requires table { (length table.old ≡ 256 * n) × (n < 2 ^ 17) }
    requires place { i < n }
    ensures values { (j : ℕ) → j < 8 → slice_index_or table.new (2 ^ j * n + i) F.Field.ops.zero ≡ slice_index_or column.now j F.Field.ops.zero }
    ensures kept { (u k : ℕ) → k < i → slice_index_or table.new (u * n + k) F.Field.ops.zero ≡ slice_index_or table.old (u * n + k) F.Field.ops.zero }
{
    for (j, value) in column.iter().enumerate() {
        let at = entry_place(1 << j, n, i);
        table[at] = *value;
    }
}

// Writes the Lagrange values at all transmitted points into the rows of one bit.
fn write_columns<F: TowerLevel>(columns: &Columns<F>, table: &mut [F])
    requires { length table.old ≡ 256 * transmitted columns.now.dimensions.log_size columns.now.dimensions.log_extended }
    ensures { let s = columns.now.dimensions.log_size in let n = transmitted s columns.now.dimensions.log_extended in let t = cantor_point F.Field.ops F.TowerLevel.level in (j i : ℕ) → j < 8 → i < n → slice_index_or table.new (2 ^ j * n + i) F.Field.ops.zero ≡ lagrange F.Field.ops (2 ^ s) t j (t (2 ^ s + i)) }
{
    let n = columns.dimensions.num_transmitted();
    for i in 0..n {
        write_column(table, n, i, &columns.column(i));
    }
}

// Writes the row of no bits; the other rows stay.
fn clear_row<F: Field>(table: &mut [F], n: usize)
    requires { n ≤ length table.old }
    ensures zeros { (i : ℕ) → i < n → slice_index_or table.new i F.Field.ops.zero ≡ F.Field.ops.zero }
    ensures kept { (p : ℕ) → n ≤ p → slice_index_or table.new p F.Field.ops.zero ≡ slice_index_or table.old p F.Field.ops.zero }
{
    for entry in table[..n].iter_mut() {
        *entry = F::zero();
    }
}

// Writes row v as the sum of two earlier rows; the other rows stay.
fn add_rows<F: Field>(table: &mut [F], n: usize, v: usize, rest: usize, bit: usize)
    requires rows { (v < 256) × (rest < v) × (bit < v) }
    requires table { (length table.old ≡ 256 * n) × (n < 2 ^ 17) }
    ensures sums { (i : ℕ) → i < n → slice_index_or table.new (v * n + i) F.Field.ops.zero ≡ F.Field.ops.sum (slice_index_or table.old (rest * n + i) F.Field.ops.zero) (slice_index_or table.old (bit * n + i) F.Field.ops.zero) }
    ensures before { (p : ℕ) → p < v * n → slice_index_or table.new p F.Field.ops.zero ≡ slice_index_or table.old p F.Field.ops.zero }
    ensures after { (p : ℕ) → v * n + n ≤ p → slice_index_or table.new p F.Field.ops.zero ≡ slice_index_or table.old p F.Field.ops.zero }
{
    let (earlier, later) = table.split_at_mut(v * n);
    let rest_row = &earlier[rest * n..rest * n + n];
    let bit_row = &earlier[bit * n..bit * n + n];
    for (i, entry) in later[..n].iter_mut().enumerate() {
        *entry = rest_row[i].sum(bit_row[i]);
    }
}

// Writes every row of more than one bit from the row of no bits, which is zero, and the rows of one
// bit: a row is the row without its lowest set bit plus the row of that bit.
fn peel_rows<F: Field>(table: &mut [F], n: usize)
    requires table { (length table.old ≡ 256 * n) × (n < 2 ^ 17) }
    requires zeros { (i : ℕ) → i < n → slice_index_or table.old i F.Field.ops.zero ≡ F.Field.ops.zero }
    ensures { (v i : ℕ) → v < 256 → i < n → slice_index_or table.new (v * n + i) F.Field.ops.zero ≡ bit_sum F.Field.ops 8 (λ j. slice_index_or table.old (2 ^ j * n + i) F.Field.ops.zero) v }
{
    for v in 1..256usize {
        let bit = 1 << v.trailing_zeros();
        if bit < v {
            add_rows(table, n, v, v - bit, bit);
        }
    }
}

// Builds the table of a domain into a buffer of its length.
pub(crate) fn fill_table<F: TowerLevel>(dimensions: Dimensions, table: &mut [F])
    requires fits { dimensions.log_extended ≤ width F.TowerLevel.level }
    requires table { length table.old ≡ 256 * transmitted dimensions.log_size dimensions.log_extended }
    ensures { Built F.Field.ops F.TowerLevel.level dimensions.log_size dimensions.log_extended table.new }
{
    let elements = basis_elements::<F>();
    let basis = Basis {
        elements: &elements[..dimensions.log_extended],
    };
    let points = basis.first_points();
    let columns = Columns {
        dimensions,
        basis,
        points: &points,
    };
    let n = dimensions.num_transmitted();
    write_columns(&columns, table);
    clear_row(table, n);
    peel_rows(table, n);
}

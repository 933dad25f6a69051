// Extending one packed row, eight outputs at a time: a byte at another place of the row takes whole
// blocks of the table in another order.
ghost use Rattle.std.specs.Prelude.{◌≡◌, ℕ, ◌+◌, ◌*◌, ◌/◌, ◌^◌, ◌<◌, ◌≤◌, length, take, drop, bit_xor, slice_index_or};
ghost use Rattle.skip_lde.specs.Rows.{transmitted, bytes_of_row};
ghost use Rattle.skip_lde.specs.Tables.{entries_sum, SumsEntries};

use fields::field::Field;
use skip_dimensions::dimensions::Dimensions;

// The table of a domain: 256 rows of `width` entries, one row for each value of a byte. A packed row
// has `row_bytes` bytes, and the place of a byte moves a block of eight entries within its row.
#[derive(Drop)]
pub(crate) struct Table<'a, F> {
    pub(crate) entries: &'a [F],
    pub(crate) width: usize,
    pub(crate) row_bytes: usize,
    pub(crate) ghost whole: { (length entries.now ≡ 256 * width) × (width < 2 ^ 17) },
    pub(crate) ghost bytes: { 1 ≤ row_bytes },
    pub(crate) ghost blocks: { (8 ≤ width) × (8 * (width / 8) ≡ width) },
    pub(crate) ghost shifts: { (q b : ℕ) → q < width / 8 → b < row_bytes → bit_xor q b < width / 8 },
}

// Adds eight entries to the eight sums.
fn add_block<F: Field>(sums: &mut [F; 8], entries: &[F])
    requires { length entries.now ≡ 8 }
    ensures { (k : ℕ) → k < 8 → slice_index_or sums.new k F.Field.ops.zero ≡ F.Field.ops.sum (slice_index_or sums.old k F.Field.ops.zero) (slice_index_or entries.now k F.Field.ops.zero) }
{
    for (k, sum) in sums.iter_mut().enumerate() {
        *sum = sum.sum(entries[k]);
    }
}

impl<'a, F: Field> Table<'a, F> {
    // The table of a domain of these dimensions.
    pub(crate) fn new(dimensions: Dimensions, entries: &'a [F]) -> Table<'a, F>
        requires { length entries.now ≡ 256 * transmitted dimensions.log_size dimensions.log_extended }
        ensures entries { result.entries.now ≡ entries.now }
        ensures width { result.width ≡ transmitted dimensions.log_size dimensions.log_extended }
        ensures bytes { result.row_bytes ≡ bytes_of_row dimensions.log_size }
    {
        Table {
            entries,
            width: dimensions.num_transmitted(),
            row_bytes: dimensions.row_bytes(),
        }
    }

    // Block q of the table row of a byte.
    fn block(&self, byte: u8, q: usize) -> &'a [F]
        requires { q < self.now.width / 8 }
        ensures value { result.now ≡ take 8 (drop (byte * self.now.width + 8 * q) self.now.entries.now) }
        ensures within { byte * self.now.width + 8 * q + 8 ≤ length self.now.entries.now }
    {
        let at = byte as usize * self.width + 8 * q;
        &self.entries[at..at + 8]
    }

    // The sums of block q of a row's outputs: the byte at place b adds block q xor b of its table row.
    fn sum_block(&self, row: &[u8], q: usize) -> [F; 8]
        requires row { length row.now ≡ self.now.row_bytes }
        requires block { q < self.now.width / 8 }
        ensures { (k : ℕ) → k < 8 → slice_index_or result k F.Field.ops.zero ≡ entries_sum F.Field.ops self.now.width self.now.entries.now row.now (8 * q + k) }
    {
        let mut sums = [F::zero(); 8];
        for (b, byte) in row.iter().enumerate() {
            add_block(&mut sums, self.block(*byte, q ^ b));
        }
        sums
    }

    // Writes block q of a row's outputs; the blocks before it stay.
    fn write_block(&self, row: &[u8], out: &mut [F], q: usize)
        requires row { length row.now ≡ self.now.row_bytes }
        requires block { q < self.now.width / 8 }
        requires out { length out.old ≡ self.now.width }
        ensures sums { (k : ℕ) → k < 8 → slice_index_or out.new (8 * q + k) F.Field.ops.zero ≡ entries_sum F.Field.ops self.now.width self.now.entries.now row.now (8 * q + k) }
        ensures kept { (p : ℕ) → p < 8 * q → slice_index_or out.new p F.Field.ops.zero ≡ slice_index_or out.old p F.Field.ops.zero }
    {
        let sums = self.sum_block(row, q);
        out[8 * q..8 * q + 8].copy_from_slice(&sums);
    }

    // Extends one packed row: output i is the sum over bytes b of the table's entry (byte b, i xor 8b).
    pub(crate) fn extend_row(&self, row: &[u8], out: &mut [F])
        requires row { length row.now ≡ self.now.row_bytes }
        requires out { length out.old ≡ self.now.width }
        ensures { SumsEntries F.Field.ops self.now.width self.now.entries.now row.now out.new }
    {
        for q in 0..self.width / 8 {
            self.write_block(row, out, q);
        }
    }
}

// Extending many packed rows, one after the other.
ghost use Rattle.std.specs.Prelude.{◌≡◌, ◌+◌, ◌*◌, ◌/◌, ◌%◌, ◌≤◌, length};
ghost use Rattle.skip_lde.specs.Tables.{SumsEntriesOfRows};

use crate::blocks::Table;
use fields::field::Field;

// Where row r begins, among rows of that width that have len places.
fn row_start(r: usize, width: usize, len: usize) -> usize
    requires { r * width + width ≤ len }
    ensures { (result ≡ r * width) × (result + width ≤ len) }
{
    r * width
}

impl<F: Field> Table<'_, F> {
    // Extends whole packed rows, row r into the `width` outputs from r * width on.
    pub(crate) fn extend_rows(&self, rows: &[u8], out: &mut [F])
        requires rows { length rows.now % self.now.row_bytes ≡ 0 }
        requires out { length out.old ≡ length rows.now / self.now.row_bytes * self.now.width }
        ensures { SumsEntriesOfRows F.Field.ops self.now.width self.now.row_bytes self.now.entries.now rows.now (length rows.now / self.now.row_bytes) out.new }
    {
        for r in 0..rows.len() / self.row_bytes {
            let from = row_start(r, self.row_bytes, rows.len());
            let to = row_start(r, self.width, out.len());
            self.extend_row(
                &rows[from..from + self.row_bytes],
                &mut out[to..to + self.width],
            );
        }
    }
}

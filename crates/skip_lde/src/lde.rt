// Extension of packed rows of bits from the skipped subspace to the transmitted points.
ghost use Rattle.std.specs.Prelude.{◌≡◌, ◌+◌, ◌-◌, ◌*◌, ◌/◌, ◌^◌, ◌≤◌, length, IfOk, MatchResult, OnOk};
ghost use Rattle.skip_lde.specs.Rows.{transmitted, bytes_of_row};
ghost use Rattle.skip_lde.specs.Tables.{Built, SumsEntries, SumsEntriesOfRows, Extends, ExtendsRows};
ghost use Rattle.skip_lde.specs.Refusals.{reported, construction, of_one_row, of_rows};

use crate::blocks::Table;
use crate::fault::CompressedLdeError;
use crate::lengths::{check_buffers, count_rows};
use crate::table::fill_table;
use field_dimensions::over::dimensions_over;
use fields::field::Field;
use fields::tower::TowerLevel;
use skip_dimensions::dimensions::Dimensions;
use skip_dimensions::refusal::check_length;
use std::marker::PhantomData;

// The numbers of an extension over the field F. Its table stays with the caller.
#[derive(Clone, Copy)]
pub struct CompressedLde<F> {
    pub dimensions: Dimensions,
    field: PhantomData<F>,
}

impl<F: TowerLevel> CompressedLde<F> {
    // Builds the table of the domain of these dimensions over F into the lent buffer: entry (v, i),
    // at v N + i, is the value at transmitted point i for the row whose byte 0 is v and whose other
    // bytes are 0. Refused where there is no such domain, or the buffer has another length; a
    // refusal leaves the buffer.
    pub fn new(
        log_size: usize,
        log_extended: usize,
        table: &mut [F],
    ) -> Result<CompressedLde<F>, CompressedLdeError>
        ensures refused { reported result ≡ construction F.TowerLevel.level.log_bits log_size log_extended (length table.old) }
        ensures dimensions { IfOk result (λ l. (l.dimensions.log_size ≡ log_size) × (l.dimensions.log_extended ≡ log_extended)) }
        ensures table { MatchResult result (λ _. Built F.Field.ops F.TowerLevel.level log_size log_extended table.new) (λ _. table.new ≡ table.old) }
    {
        let dimensions = dimensions_over::<F>(log_size, log_extended)?;
        check_length::<CompressedLdeError>(2, dimensions.table_len(), table.len())?;
        fill_table(dimensions, table);
        Ok(CompressedLde {
            dimensions,
            field: PhantomData,
        })
    }

    // The same for dimensions in hand. Of the causes only two are left: the dimensions are more than
    // F has basis elements, where they were made for a wider field, or the buffer's length.
    pub fn from_dimensions(
        dimensions: Dimensions,
        table: &mut [F],
    ) -> Result<CompressedLde<F>, CompressedLdeError>
        ensures refused { reported result ≡ construction F.TowerLevel.level.log_bits dimensions.log_size dimensions.log_extended (length table.old) }
        ensures dimensions { IfOk result (λ l. (l.dimensions.log_size ≡ dimensions.log_size) × (l.dimensions.log_extended ≡ dimensions.log_extended)) }
        ensures table { MatchResult result (λ _. Built F.Field.ops F.TowerLevel.level dimensions.log_size dimensions.log_extended table.new) (λ _. table.new ≡ table.old) }
    {
        CompressedLde::new(dimensions.log_size, dimensions.log_extended, table)
    }

    // Number of transmitted values that one extended row has.
    pub fn num_transmitted(&self) -> usize
        ensures { let d = self.now.dimensions in result ≡ transmitted d.log_size d.log_extended }
    {
        self.dimensions.num_transmitted()
    }

    // Number of bytes of one packed row.
    pub fn num_chunks(&self) -> usize
        ensures value { result ≡ bytes_of_row self.now.dimensions.log_size }
        ensures some { 1 ≤ result }
    {
        self.dimensions.row_bytes()
    }

    // Number of elements of the table: one row of transmitted values for each value of a byte.
    pub fn table_len(&self) -> usize
        ensures { let d = self.now.dimensions in result ≡ 256 * transmitted d.log_size d.log_extended }
    {
        self.dimensions.table_len()
    }

    // Extends one packed row into one output for each transmitted point: output i is the sum over
    // bytes b of the table's entry (byte b, i xor 8b). From the built table it is the value there of
    // the polynomial that has the row's bits on the subspace. A refusal leaves the outputs.
    pub fn extend(&self, table: &[F], row: &[u8], out: &mut [F]) -> Result<(), CompressedLdeError>
        ensures refused { let d = self.now.dimensions in reported result ≡ of_one_row d.log_size d.log_extended (length table.now) (length row.now) (length out.old) }
        ensures sums { let d = self.now.dimensions in MatchResult result (λ _. SumsEntries F.Field.ops (transmitted d.log_size d.log_extended) table.now row.now out.new) (λ _. out.new ≡ out.old) }
        ensures values { let d = self.now.dimensions in OnOk result (Built F.Field.ops F.TowerLevel.level d.log_size d.log_extended table.now → Extends F.Field.ops F.TowerLevel.level d.log_size d.log_extended row.now out.new) }
    {
        count_rows(self.dimensions, row.len())?;
        if row.len() != self.num_chunks() {
            return Err(CompressedLdeError::NotWholeRows { len: row.len() });
        }
        check_buffers(self.dimensions, 1, table.len(), out.len())?;
        Table::new(self.dimensions, table).extend_row(row, out);
        Ok(())
    }

    // Extends packed rows, back to back, each as `extend` does; row r into the N outputs from r N on.
    pub fn extend_batch(
        &self,
        table: &[F],
        rows: &[u8],
        out: &mut [F],
    ) -> Result<(), CompressedLdeError>
        ensures refused { let d = self.now.dimensions in reported result ≡ of_rows d.log_size d.log_extended (length table.now) (length rows.now) (length out.old) }
        ensures sums { let d = self.now.dimensions in MatchResult result (λ _. SumsEntriesOfRows F.Field.ops (transmitted d.log_size d.log_extended) (bytes_of_row d.log_size) table.now rows.now (length rows.now / bytes_of_row d.log_size) out.new) (λ _. out.new ≡ out.old) }
        ensures values { let d = self.now.dimensions in OnOk result (Built F.Field.ops F.TowerLevel.level d.log_size d.log_extended table.now → ExtendsRows F.Field.ops F.TowerLevel.level d.log_size d.log_extended rows.now (length rows.now / bytes_of_row d.log_size) out.new) }
    {
        let count = count_rows(self.dimensions, rows.len())?;
        if rows.len() % self.num_chunks() != 0 {
            return Err(CompressedLdeError::NotWholeRows { len: rows.len() });
        }
        check_buffers(self.dimensions, count, table.len(), out.len())?;
        Table::new(self.dimensions, table).extend_rows(rows, out);
        Ok(())
    }
}

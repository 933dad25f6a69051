// Numbers of rows and lengths of buffers, checked in the order of the table of refusals.
ghost use Rattle.std.specs.Prelude.{◌≡◌, ◌*◌, ◌/◌, ◌^◌, ◌≤◌, IfOk, OnOk};
ghost use Rattle.skip_dimensions.specs.Refusals.{first_of, wrong_length};
ghost use Rattle.skip_lde.specs.Rows.{transmitted, bytes_of_row};
ghost use Rattle.skip_lde.specs.Refusals.{reported, too_many};

use crate::fault::CompressedLdeError;
use skip_dimensions::dimensions::Dimensions;
use skip_dimensions::refusal::check_length;

// Number of packed rows among so many bytes, at most 2^32.
pub(crate) fn count_rows(dimensions: Dimensions, bytes: usize) -> Result<usize, CompressedLdeError>
    ensures refused { reported result ≡ too_many (bytes_of_row dimensions.log_size) bytes }
    ensures count { IfOk result (λ rows. (rows ≡ bytes / bytes_of_row dimensions.log_size) × (rows ≤ 2 ^ 32)) }
{
    let rows = bytes / dimensions.row_bytes();
    if rows > 1 << 32 {
        return Err(CompressedLdeError::TooManyRows { rows });
    }
    Ok(rows)
}

// The lengths, in elements, of the table and the outputs with which so many rows are extended.
pub(crate) fn check_buffers(
    dimensions: Dimensions,
    rows: usize,
    table: usize,
    out: usize,
) -> Result<(), CompressedLdeError>
    requires { rows ≤ 2 ^ 32 }
    ensures refused { let n = transmitted dimensions.log_size dimensions.log_extended in reported result ≡ first_of (wrong_length 2 (256 * n) table) (wrong_length 4 (rows * n) out) }
    ensures lengths { let n = transmitted dimensions.log_size dimensions.log_extended in OnOk result ((table ≡ 256 * n) × (out ≡ rows * n)) }
{
    check_length::<CompressedLdeError>(2, dimensions.table_len(), table)?;
    check_length(4, rows * dimensions.num_transmitted(), out)
}

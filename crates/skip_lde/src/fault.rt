// Why an extension table cannot be built, or rows not be extended. `specs/Refusals.antt` has each
// case's number and values.
ghost use Rattle.std.specs.Prelude.{◌≡◌, Some};
ghost use Rattle.skip_lde.specs.Refusals as table;
ghost use Rattle.skip_lde.specs.declared.fault.CompressedLdeError.TheVariants.{Domain};

use skip_dimensions::fault::SkipDomainError;
use skip_dimensions::refusal::{Refusal, Values};
use std::error::Error;
use std::fmt;

// Reasons an extension is not built, or rows are not extended.
#[derive(Clone, Copy, PartialEq, Eq, Debug)]
pub enum CompressedLdeError {
    // There is no domain of these dimensions.
    Domain(SkipDomainError),
    // The packed bytes are not whole rows, or not the one row that is wanted.
    NotWholeRows {
        len: usize,
    },
    // More than 2^32 rows.
    TooManyRows {
        rows: usize,
    },
    // A buffer has another length: the table is place 2, the output place 4.
    BufferLenMismatch {
        place: u8,
        expected: usize,
        actual: usize,
    },
}

impl Refusal for CompressedLdeError {
    ghost number_of = { table.number_of };

    ghost values_of = { table.values_of };

    // A fault of the domain keeps its own number and values.
    fn number(&self) -> u8 {
        match self {
            CompressedLdeError::Domain(fault) => fault.number(),
            CompressedLdeError::NotWholeRows { .. } => 9,
            CompressedLdeError::TooManyRows { .. } => 10,
            CompressedLdeError::BufferLenMismatch { .. } => 5,
        }
    }

    fn values(&self) -> Values {
        match *self {
            CompressedLdeError::Domain(fault) => fault.values(),
            CompressedLdeError::NotWholeRows { len } => Values::One([len]),
            CompressedLdeError::TooManyRows { rows } => Values::One([rows]),
            CompressedLdeError::BufferLenMismatch {
                place,
                expected,
                actual,
            } => Values::Three([place as usize, expected, actual]),
        }
    }

    fn buffer_len_mismatch(place: u8, expected: usize, actual: usize) -> CompressedLdeError {
        CompressedLdeError::BufferLenMismatch {
            place,
            expected,
            actual,
        }
    }
}

// The name of the cause, and each value after its own name.
impl fmt::Display for CompressedLdeError {
    ghost output = { λ e. Some (table.text_of e) };

    fn fmt<W: fmt::Write>(&self, f: &mut fmt::Formatter<W>) -> fmt::Result {
        match self {
            CompressedLdeError::Domain(fault) => write!(f, "{fault}"),
            CompressedLdeError::NotWholeRows { len } => write!(f, "NotWholeRows: len {len}"),
            CompressedLdeError::TooManyRows { rows } => write!(f, "TooManyRows: rows {rows}"),
            CompressedLdeError::BufferLenMismatch {
                place,
                expected,
                actual,
            } => write!(
                f,
                "BufferLenMismatch: place {place}, expected {expected}, actual {actual}"
            ),
        }
    }
}

impl Error for CompressedLdeError {}

impl From<SkipDomainError> for CompressedLdeError {
    ghost from_gives = { λ e r. r ≡ Domain e };

    fn from(cause: SkipDomainError) -> CompressedLdeError {
        CompressedLdeError::Domain(cause)
    }
}

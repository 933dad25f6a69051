// Why a domain cannot be built or a buffer be used. `specs/Refusals.antt` has each case's number and values.
ghost use Rattle.std.specs.Prelude.{◌≡◌, Some, OnOk};
ghost use Rattle.skip_dimensions.specs.Refusals as table;
ghost use Rattle.skip_dimensions.specs.Refusals.{reported, wrong_length};

pub use crate::refusal::Values;
use crate::refusal::{self, Refusal};
use std::error::Error;
use std::fmt;

// Reasons a skip domain cannot be built, or a buffer that is lent to it be used.
#[derive(Clone, Copy, PartialEq, Eq, Debug)]
pub enum SkipDomainError {
    // The extension is not larger than the subspace, so that no point is left to transmit on.
    EmptyExtension {
        log_size: usize,
        log_extended: usize,
    },
    // The extension needs more dimensions than the field has basis elements or a word has bits.
    ExtensionTooWide {
        log_extended: usize,
        limit: usize,
    },
    // The extension has more than 16 dimensions.
    ExtensionBeyondLimit {
        log_extended: usize,
    },
    // The subspace has fewer points than a byte has bits.
    SubspaceTooNarrow {
        log_size: usize,
    },
    // A buffer has another length than the call wants; the place says which buffer.
    BufferLenMismatch {
        place: u8,
        expected: usize,
        actual: usize,
    },
}

impl Refusal for SkipDomainError {
    ghost number_of = { table.number_of };

    ghost values_of = { table.values_of };

    fn number(&self) -> u8 {
        match self {
            SkipDomainError::EmptyExtension { .. } => 1,
            SkipDomainError::ExtensionTooWide { .. } => 2,
            SkipDomainError::ExtensionBeyondLimit { .. } => 3,
            SkipDomainError::SubspaceTooNarrow { .. } => 4,
            SkipDomainError::BufferLenMismatch { .. } => 5,
        }
    }

    fn values(&self) -> Values {
        match *self {
            SkipDomainError::EmptyExtension {
                log_size,
                log_extended,
            } => Values::Two([log_size, log_extended]),
            SkipDomainError::ExtensionTooWide {
                log_extended,
                limit,
            } => Values::Two([log_extended, limit]),
            SkipDomainError::ExtensionBeyondLimit { log_extended } => Values::One([log_extended]),
            SkipDomainError::SubspaceTooNarrow { log_size } => Values::One([log_size]),
            SkipDomainError::BufferLenMismatch {
                place,
                expected,
                actual,
            } => Values::Three([place as usize, expected, actual]),
        }
    }

    fn buffer_len_mismatch(place: u8, expected: usize, actual: usize) -> SkipDomainError {
        SkipDomainError::BufferLenMismatch {
            place,
            expected,
            actual,
        }
    }
}

// The name of the cause, and each value after its own name.
impl fmt::Display for SkipDomainError {
    ghost output = { λ e. Some (table.text_of e) };

    fn fmt<W: fmt::Write>(&self, f: &mut fmt::Formatter<W>) -> fmt::Result {
        match self {
            SkipDomainError::EmptyExtension {
                log_size,
                log_extended,
            } => write!(
                f,
                "EmptyExtension: log_size {log_size}, log_extended {log_extended}"
            ),
            SkipDomainError::ExtensionTooWide {
                log_extended,
                limit,
            } => write!(
                f,
                "ExtensionTooWide: log_extended {log_extended}, limit {limit}"
            ),
            SkipDomainError::ExtensionBeyondLimit { log_extended } => write!(
                f,
                "ExtensionBeyondLimit: log_extended {log_extended}"
            ),
            SkipDomainError::SubspaceTooNarrow { log_size } => write!(
                f,
                "SubspaceTooNarrow: log_size {log_size}"
            ),
            SkipDomainError::BufferLenMismatch {
                place,
                expected,
                actual,
            } => write!(
                f,
                "BufferLenMismatch: place {place}, expected {expected}, actual {actual}"
            ),
        }
    }
}

impl Error for SkipDomainError {}

// Refuses a buffer whose length is not the one that is wanted at its place.
pub fn check_length(place: u8, expected: usize, actual: usize) -> Result<(), SkipDomainError>
    ensures refused { reported result ≡ wrong_length place expected actual }
    ensures length { OnOk result (actual ≡ expected) }
{
    refusal::check_length(place, expected, actual)
}

// Why a question is not answered by a value.
use skip_dimensions::fault::SkipDomainError;
use skip_lde::fault::CompressedLdeError;
use std::alloc::{AllocError, AllocFailed};
use std::io;

#[derive(Drop)]
pub(crate) enum Unanswered {
    // It is no question.
    Unknown,
    // The call is refused.
    Refused(CompressedLdeError),
    // Memory or the output fails, which ends the program.
    OutOfMemory(AllocError),
    Unwritten(io::Error),
}

impl From<SkipDomainError> for Unanswered {
    fn from(fault: SkipDomainError) -> Unanswered {
        Unanswered::Refused(CompressedLdeError::from(fault))
    }
}

impl From<CompressedLdeError> for Unanswered {
    fn from(fault: CompressedLdeError) -> Unanswered {
        Unanswered::Refused(fault)
    }
}

impl From<AllocError> for Unanswered {
    fn from(error: AllocError) -> Unanswered {
        Unanswered::OutOfMemory(error)
    }
}

impl<T: Drop> From<AllocFailed<T>> for Unanswered {
    fn from(error: AllocFailed<T>) -> Unanswered {
        Unanswered::from(AllocError::from(error))
    }
}

impl From<io::Error> for Unanswered {
    fn from(error: io::Error) -> Unanswered {
        Unanswered::Unwritten(error)
    }
}

// Why a line is not answered.
use skip_dimensions::fault::SkipDomainError;
use skip_lde::fault::CompressedLdeError;
use std::alloc::AllocError;
use std::io;

// What is wrong with a line, a refusal of what it asks for, or a want of the system, which ends the program.
#[derive(Drop)]
pub(crate) enum Fault {
    UnknownLine,
    NotARow,
    NoDomain,
    Refused(CompressedLdeError),
    System(anyhow::Error),
}

impl From<CompressedLdeError> for Fault {
    fn from(cause: CompressedLdeError) -> Fault {
        Fault::Refused(cause)
    }
}

impl From<SkipDomainError> for Fault {
    fn from(cause: SkipDomainError) -> Fault {
        Fault::Refused(CompressedLdeError::Domain(cause))
    }
}

impl From<AllocError> for Fault {
    fn from(error: AllocError) -> Fault {
        Fault::System(anyhow::Error::from(error))
    }
}

impl From<io::Error> for Fault {
    fn from(error: io::Error) -> Fault {
        Fault::System(anyhow::Error::from(error))
    }
}

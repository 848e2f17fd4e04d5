//! Why the tour ends early.
use refusal::cases::Refusal;
use std::alloc::AllocError;
use std::io;

#[derive(Drop)]
pub(crate) enum Stop {
    // a call of the library was refused
    Refused(Refusal),
    Failed(anyhow::Error),
}

impl From<Refusal> for Stop {
    fn from(refusal: Refusal) -> Stop {
        Stop::Refused(refusal)
    }
}

impl From<anyhow::Error> for Stop {
    fn from(error: anyhow::Error) -> Stop {
        Stop::Failed(error)
    }
}

impl From<io::Error> for Stop {
    fn from(error: io::Error) -> Stop {
        Stop::Failed(error.into())
    }
}

impl From<AllocError> for Stop {
    fn from(error: AllocError) -> Stop {
        Stop::Failed(error.into())
    }
}

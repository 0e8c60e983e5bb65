use crate::sources::Source;
use crate::station::Unbooked;
use crate::words::Words;
use server::refusal::Refusal;
use std::alloc::AllocError;
use std::{fmt, io};
use thiserror::Error;

// Why the program stops before its end.
#[derive(Drop, Error)]
pub enum Stop {
    // What cannot be written, or found room for.
    #[error("{0}")]
    Failed(#[from] io::Error),
    #[error("{0}")]
    Unbooked(#[from] Unbooked),
    #[error("{hop} has no latency of {who}: {}", Words(*refusal))]
    NoLatency {
        hop: &'static str,
        who: Source,
        refusal: Refusal,
    },
}

impl From<AllocError> for Stop {
    fn from(error: AllocError) -> Stop {
        Stop::Failed(error.into())
    }
}

// What is printed of it where `main` returns it: of what failed all that is known, else the words.
impl fmt::Debug for Stop {
    fn fmt<W: fmt::Write>(&self, f: &mut fmt::Formatter<W>) -> fmt::Result {
        match self {
            Stop::Failed(error) => write!(f, "{error:?}"),
            stop => write!(f, "{stop}"),
        }
    }
}

// How the program ends.
ghost use Rattle.std.specs.Prelude.{◌≡◌};
ghost use Rattle.mediabench.specs.Ends.{status_of};

use media_base::Failed;
use std::alloc::AllocError;
use std::io;
use thiserror::Error;

/// Why a command was not done.
#[derive(Clone, Copy, Debug, PartialEq, Eq, Error)]
pub enum BenchError {
    /// Memory ran out.
    #[error("out of memory")]
    Memory,
    /// The clock could not be read.
    #[error("the clock could not be read")]
    Clock,
    /// The sink failed.
    #[error("the sink failed")]
    Sink,
}

impl From<AllocError> for BenchError {
    ghost use Rattle.mediabench.specs.declared.error.BenchError.TheVariants.{Memory};

    ghost from_gives = { λ _ e. e ≡ Memory };

    fn from(_: AllocError) -> Self {
        BenchError::Memory
    }
}

impl From<io::Error> for BenchError {
    ghost use Rattle.mediabench.specs.declared.error.BenchError.TheVariants.{Clock};

    ghost from_gives = { λ _ e. e ≡ Clock };

    fn from(_: io::Error) -> Self {
        BenchError::Clock
    }
}

impl From<Failed> for BenchError {
    ghost use Rattle.mediabench.specs.declared.error.BenchError.TheVariants.{Sink};

    ghost from_gives = { λ _ e. e ≡ Sink };

    fn from(_: Failed) -> Self {
        BenchError::Sink
    }
}

/// How the program ends.
#[derive(Clone, Copy)]
pub enum End {
    /// The command was done.
    Done,
    /// The words are no command, or name no row.
    Usage,
    /// The command was not done to its end.
    Stopped(BenchError),
}

impl End {
    /// The exit status.
    pub fn status(self) -> u8
        ensures { result ≡ status_of self }
    {
        match self {
            End::Done => 0,
            End::Stopped(BenchError::Clock) => 4,
            End::Stopped(BenchError::Sink) => 5,
            End::Stopped(BenchError::Memory) => 6,
            End::Usage => 64,
        }
    }
}

use std::alloc::{AllocError, AllocFailed};
use thiserror::Error;

/// Why a script was not read.
#[derive(Clone, Copy, Debug, PartialEq, Eq, Error)]
pub enum ScriptError {
    /// Memory ran out.
    #[error("out of memory")]
    Memory,
    /// The first line outside the grammar, counted from 1. A line that is missing is the one after
    /// the last.
    #[error("line {0} is outside the grammar")]
    Syntax(u64),
}

impl From<AllocError> for ScriptError {
    ghost use Rattle.std.specs.Prelude.{◌≡◌};
    ghost use Rattle.media_script.specs.declared.error.ScriptError.TheVariants.{Memory};

    ghost from_gives = { λ _ e. e ≡ Memory };

    fn from(_: AllocError) -> Self {
        ScriptError::Memory
    }
}

/// Why a line or a word was not read.
#[derive(Clone, Copy, Debug, PartialEq, Eq, Error)]
pub enum LineError {
    /// Memory ran out.
    #[error("out of memory")]
    Memory,
    /// It is outside the grammar.
    #[error("the line or the word is outside the grammar")]
    Outside,
}

impl From<AllocError> for LineError {
    ghost use Rattle.std.specs.Prelude.{◌≡◌};
    ghost use Rattle.media_script.specs.declared.error.LineError.TheVariants.{Memory};

    ghost from_gives = { λ _ e. e ≡ Memory };

    fn from(_: AllocError) -> Self {
        LineError::Memory
    }
}

impl<T: Drop> From<AllocFailed<T>> for LineError {
    ghost use Rattle.std.specs.Prelude.{◌≡◌};
    ghost use Rattle.media_script.specs.declared.error.LineError.TheVariants.{Memory};

    ghost from_gives = { λ _ e. e ≡ Memory };

    fn from(_: AllocFailed<T>) -> Self {
        LineError::Memory
    }
}

ghost use Rattle.std.specs.Prelude.{◌≡◌};

use media_laws::{Counter, StepFault};
use media_model::{Side, Transcript};
use setup_rules::SetupFault;
use std::alloc::AllocError;
use thiserror::Error;

/// Why a step was not played.
#[derive(Clone, Copy, Debug, PartialEq, Eq, Error)]
pub enum StepError {
    /// Memory ran out.
    #[error("out of memory")]
    Memory,
    /// The first rule that the step breaks.
    #[error("the step breaks a rule: {0}")]
    Rule(StepFault),
    /// The side was to seal a datagram behind the last number of a key.
    #[error("a key has no number left")]
    KeyExhausted(Side, Counter),
    /// The run is stopped: an earlier step was answered `Memory` or `KeyExhausted`.
    #[error("the run is stopped")]
    Stopped,
}

impl From<AllocError> for StepError {
    ghost use Rattle.media_play.specs.declared.fault.StepError.TheVariants.{Memory};

    ghost from_gives = { λ _ e. e ≡ Memory };

    fn from(_: AllocError) -> Self {
        StepError::Memory
    }
}

impl From<StepFault> for StepError {
    ghost use Rattle.media_play.specs.declared.fault.StepError.TheVariants.{Rule};

    ghost from_gives = { λ fault e. e ≡ Rule fault };

    fn from(fault: StepFault) -> Self {
        StepError::Rule(fault)
    }
}

/// Why a run ended before its last step.
#[derive(Clone, Copy, Debug, PartialEq, Eq, Error)]
pub enum RunError {
    /// Memory ran out.
    #[error("out of memory")]
    Memory,
    /// The first rule that the setup breaks.
    #[error("the setup breaks a rule: {0}")]
    Setup(SetupFault),
    /// The step of this number, counted from 1, broke a rule.
    #[error("step {0} breaks a rule: {1}")]
    Step(u64, StepFault),
    /// A step had the side seal a datagram behind the last number of a key.
    #[error("a key has no number left")]
    KeyExhausted(Side, Counter),
}

impl From<AllocError> for RunError {
    ghost use Rattle.media_play.specs.declared.fault.RunError.TheVariants.{Memory};

    ghost from_gives = { λ _ e. e ≡ Memory };

    fn from(_: AllocError) -> Self {
        RunError::Memory
    }
}

/// Why a run ended before its last step, and what happened until then.
#[derive(Debug, Drop, Error)]
#[error("{cause}")]
pub struct RunFault {
    /// Why it ended.
    pub cause: RunError,
    /// What the steps that were played brought; and of one that found a key used up the call of the
    /// application, or the tick and all that it sealed until then.
    pub sofar: Transcript,
}

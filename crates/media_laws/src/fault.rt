ghost use Rattle.std.specs.Prelude.{◌≡◌};
ghost use Rattle.media_laws.specs.FaultNames.{step_fault_name};

use thiserror::Error;

/// The first rule that a step breaks, in this order.
#[derive(Clone, Copy, Debug, PartialEq, Eq, Error)]
pub enum StepFault {
    /// Its time is 0.
    #[error("its time is 0")]
    TimeZero,
    /// Its time is below that of the step before, of either side.
    #[error("its time is below that of the step before")]
    TimeBack,
    /// Its time is above 10^16 ns.
    #[error("its time is too great")]
    TimeBeyond,
    /// No stream of the side has the SSRC.
    #[error("no stream of the side has the SSRC")]
    UnknownStream,
    /// The other side has not sealed so many datagrams yet.
    #[error("the other side has not sealed so many datagrams yet")]
    UnknownDatagram,
    /// The setup does not claim the payload type.
    #[error("the setup does not claim the payload type")]
    UnknownType,
    /// The number is 2^48 or more.
    #[error("the number is 2^48 or more")]
    NumberTooBig,
    /// The number was written before on the SSRC.
    #[error("the number was written before on the SSRC")]
    NumberUsed,
    /// The payload has more than 1,400 bytes.
    #[error("the payload has more than 1,400 bytes")]
    PayloadTooLong,
    /// There are more than 15 contributing sources, of which no script tells.
    #[error("there are more than 15 contributing sources")]
    TooManySources,
}

impl StepFault {
    /// The word for it in the line that names it.
    pub fn word(self) -> &'static str
        ensures { result.now ≡ step_fault_name self }
    {
        match self {
            StepFault::TimeZero => "TimeZero",
            StepFault::TimeBack => "TimeBack",
            StepFault::TimeBeyond => "TimeBeyond",
            StepFault::UnknownStream => "UnknownStream",
            StepFault::UnknownDatagram => "UnknownDatagram",
            StepFault::UnknownType => "UnknownType",
            StepFault::NumberTooBig => "NumberTooBig",
            StepFault::NumberUsed => "NumberUsed",
            StepFault::PayloadTooLong => "PayloadTooLong",
            StepFault::TooManySources => "TooManySources",
        }
    }
}

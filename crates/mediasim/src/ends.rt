// How a call of the program ends.
ghost use Rattle.std.specs.Prelude.{◌≡◌, ◌⊎◌, None};
ghost use Rattle.media_base.specs.Causes.{Rose};
ghost use Rattle.mediasim.specs.Ends.{status_of, Tells};

use media_base::{Sink, write_all};
use media_laws::{Counter, StepFault};
use media_model::{Side, Transcript};
use setup_rules::SetupFault;

/// How a call ended.
#[derive(Clone, Copy, Debug, PartialEq, Eq)]
pub enum End {
    /// The input was read to its end, every step played, and all text written.
    Done,
    /// The first rule that the setup breaks.
    Setup(SetupFault),
    /// The first step, counted from 1, that breaks a rule, and the first rule that it breaks.
    Step(u64, StepFault),
    /// A step had the side seal a datagram behind the last number of a key.
    KeyExhausted(Side, Counter),
    /// The first call of a pace script, counted from 1, that may not come: its moment falls, or it
    /// sends a packet that no poll gave a queue for.
    Call(u64),
    /// The source failed.
    ReadFault,
    /// The sink failed.
    WriteFault,
    /// Memory ran out.
    Memory,
    /// The first line outside the grammar, counted from 1.
    Syntax(u64),
    /// More bytes were read than an input may have.
    TooLong,
    /// The words are no command.
    Usage,
}

impl End {
    /// The exit status.
    pub fn status(&self) -> u8
        ensures { result ≡ status_of self.now }
    {
        match self {
            End::Done => 0,
            End::Setup(_) => 1,
            End::Step(_, _) => 2,
            End::Call(_) => 2,
            End::KeyExhausted(_, _) => 3,
            End::ReadFault => 4,
            End::WriteFault => 5,
            End::Memory => 6,
            End::Syntax(_) => 7,
            End::TooLong => 8,
            End::Usage => 64,
        }
    }
}

/// How a call ended, and what happened in the run that it played.
#[derive(Debug, Drop)]
pub struct Report {
    /// The exit status of the end.
    pub status: u8,
    /// How the call ended.
    pub end: End,
    /// There exactly where the end is `Done`, `Step` or `KeyExhausted`.
    pub transcript: Option<Transcript>,
}

impl Report {
    /// The report of an end.
    pub fn new(end: End, transcript: Option<Transcript>) -> Self
        ensures end { result.end ≡ end }
        ensures transcript { result.transcript ≡ transcript }
        ensures status { result.status ≡ status_of end }
    {
        Report {
            status: end.status(),
            end,
            transcript,
        }
    }
}

/// Tells an end that has no transcript by its text.
pub fn tell_line<K: Sink>(sink: &mut K, end: End, line: &[u8]) -> Report
    ensures status { result.status ≡ status_of result.end }
    ensures tells { Tells (K.written sink.old) (K.written sink.new) end None line.now result.end result.transcript }
    ensures kept { (result.end ≡ end) ⊎ ((result.end ≡ End.WriteFault)
        × Rose (K.fault_count sink.old) (K.fault_count sink.new)) }
    ensures write_told { (result.end ≡ End.WriteFault) ⊎ (K.fault_count sink.new ≡ K.fault_count sink.old) }
{
    match write_all(sink, line) {
        Ok(()) => Report::new(end, None),
        Err(_) => Report::new(End::WriteFault, None),
    }
}

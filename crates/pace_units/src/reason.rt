//! Why a moment is waited for.

/// Why a pacer wants a timeout.
#[derive(Clone, Copy, Debug, PartialEq, Eq, Hash)]
pub enum PacerReason {
    /// What is owed is to be counted anew.
    Handle,
    /// A packet is let out before any was sent.
    FirstEver,
    /// A packet of an unpaced queue, such as audio, is let out.
    Unpaced,
    /// A packet of a cluster of probes is due.
    Probe1,
    /// Padding of a cluster of probes is due.
    Probe2,
    /// The queue whose turn it is is let out.
    Paced,
    /// Padding may be asked for.
    Padding,
    /// A queue was polled.
    Immediate,
}

/// Why a session wants a timeout.
#[derive(Clone, Copy, Debug, Default, PartialEq, Eq, Hash)]
pub enum Reason {
    /// No timeout is wanted.
    #[default]
    NotHappening,
    /// Reports and requests are due.
    Feedback,
    /// Lost packets are asked for.
    Nack,
    /// Transport-wide feedback is due.
    Twcc,
    /// The pacer wants it.
    Pacer(PacerReason),
    /// A packet waits long enough for those before it.
    ReceiveReorder,
    /// A payload is to be put into packets.
    Packetize,
    /// A stream may have paused.
    PauseCheck,
    /// A packet waits to be sent.
    SendStream,
    /// The estimator of the bandwidth wants it.
    BweDelayControl,
}

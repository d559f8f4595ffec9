//! Pacers: which queue a session sends from next, and when.
#![tactic(auto)]

mod clusters;
mod laws;
mod leaky;
mod log;
mod null;
mod numbers;
mod pacer;
mod queues;
mod run;
mod sends;

pub use laws::{answers_are_within, burst_is_let_out, burst_is_run, envelope};
pub use leaky::{
    LeakyBucketPacer, MAX_BURST_SIZE, MAX_DEBT_IN_TIME, MAX_PACKET_IN_TIME, MINIMAL_DELTA, PACING,
    PADDING_BURST_INTERVAL,
};
pub use log::{PaceEntry, PaceLog};
pub use null::NullPacer;
pub use numbers::named_numbers;
pub use pace_units::{
    Estimator, FixedEstimate, PacerControl, PacerReason, PacingResult, PaddingRequest,
    ProbeClusterConfig, ProbeClusterState, ProbeKind, QueuePriority, QueueSnapshot, QueueState,
    Reason, ScriptedEstimate, SendRecord,
};
pub use pacer::{Pacer, PacerImpl};
pub use queues::{QUEUE_LIMIT, SHORTEST_DRAIN};
pub use run::{MAX_PACKET, PaceCall, PaceError, PaceFault, PaceQueue, are_short, pace_run};

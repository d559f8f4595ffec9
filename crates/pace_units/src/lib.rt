//! What pacers count with: snapshots of the queues of packets, clusters of probes, the rates that
//! follow an estimate of the bandwidth, and what an estimator of it is.
#![tactic(auto)]

mod cluster;
mod control;
mod estimator;
mod fixed;
mod numbers;
mod probe;
mod queue;
mod reason;
mod scripted;

pub use cluster::{MAX_PADDING_PACKET_SIZE, ProbeClusterState};
pub use control::{PACING_TENTHS, PADDING_TARGET, PacerControl, PacingResult};
pub use estimator::{Estimator, SendRecord};
pub use fixed::FixedEstimate;
pub use numbers::named_numbers;
pub use probe::{
    DEFAULT_DELTA_MILLIS, DEFAULT_DURATION_MILLIS, DEFAULT_PACKETS, ProbeClusterConfig, ProbeKind,
    bytes_of,
};
pub use queue::{PaddingRequest, QueuePriority, QueueSnapshot, QueueState};
pub use reason::{PacerReason, Reason};
pub use scripted::ScriptedEstimate;

//! What was sent and is kept to be resent (RFC 4588), as a queue by rising position: positions and
//! moments in one queue, values in another beside it.
#![tactic(auto)]

mod queue;
mod stamps;
mod steps;
mod values;

pub use queue::QueueStore;
pub use steps::Steps;

//! What runs of two media sessions are, what holds of their entries, and the laws that say so; and
//! the laws of runs of plain sessions that these come from.
#![tactic(auto)]

mod counter;
mod fault;
pub mod laws;
pub mod plain_laws;

pub use counter::Counter;
pub use fault::StepFault;

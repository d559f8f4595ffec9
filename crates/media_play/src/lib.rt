//! Runs of two media sessions over a script.
#![tactic(auto)]

mod acting;
mod end;
mod fault;
mod log;
mod numbers;
mod pair;
mod request;
mod run;
mod slices;
mod starting;

pub use fault::{RunError, RunFault, StepError};
pub use media_laws::{Counter, StepFault, laws};
pub use run::{Run, media_run};
pub use setup_rules::SetupFault;
pub use slices::runs_of_slices;

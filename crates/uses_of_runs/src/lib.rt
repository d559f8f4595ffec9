//! Callers of the runs of two sessions, as those of `uses`, in a crate of its own, so that the
//! callers of sessions do not stand above runs.
#![tactic(auto)]

#[cfg(test)]
mod callers;
pub mod cite_the_laws;
pub mod mirror_a_session;
pub mod play_a_run;

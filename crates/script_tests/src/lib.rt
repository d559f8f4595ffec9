//! The tests of sealing and of scripts: worked values of the standards, and each public call that
//! takes memory once with enough of it. What a clause says is not tested.
#![tactic(auto)]

#[cfg(test)]
mod outside;
#[cfg(test)]
mod pace_scripts;
#[cfg(test)]
mod scripts;
#[cfg(test)]
mod srtp_contexts;
#[cfg(test)]
mod transcripts;

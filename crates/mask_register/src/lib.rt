//! The register of received numbers (RFC 4585 section 6.2.1) as a mask: one bit for each of the
//! last 101 numbers, and a row for each missing one that was asked for.
#![tactic(auto)]

mod asks;
mod mask;
mod numbers;
mod register;
mod window;

pub use asks::MOST_MISSING;
pub use numbers::named_numbers;
pub use register::MaskRegister;

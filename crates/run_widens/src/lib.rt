//! Whether the repairs of a run widen: each that restores a number carries a write that was sealed
//! before under it.
#![tactic(auto)]

mod line;
mod packet;
mod sent;
mod taken;
mod widens;

pub use widens::repairs_widen;

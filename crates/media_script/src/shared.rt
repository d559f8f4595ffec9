//! What scripts of other kinds share with these: lines, the words of a line, and what words say.

pub use crate::error::LineError;
pub use crate::lines::{first_line, is_passed_over, words};
pub use crate::words::{mid, name, number, number_32, time};

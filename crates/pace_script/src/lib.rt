//! Pace scripts, the calls of a pacer as text: grammar, reading, and the text of a run's log.
#![tactic(auto)]

mod calls;
pub mod laws;
mod numbers;
mod queues;
mod reader;
mod text;
mod words;

pub use calls::SIZE_LIMIT;
pub use media_script::ScriptError;
pub use numbers::named_numbers;
pub use queues::{BYTES_LIMIT, MOST_WAIT, WAIT_LIMIT};
pub use reader::read_pace_script;
pub use text::{log_text, write_pace_log};
pub use words::MOST_TIME;

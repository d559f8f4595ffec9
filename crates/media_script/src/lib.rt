//! Scripts of two media sessions and the text of their transcripts: grammar, reading, writing.
#![tactic(auto)]

mod draft;
mod error;
pub mod laws;
mod limits;
mod lines;
mod media_list;
mod order;
mod reader;
mod said;
mod setup_line;
mod setup_lines;
pub mod shared;
mod steps;
mod text;
mod text_lines;
mod words;

pub use draft::DEFAULT_UNIX_SECS;
pub use error::ScriptError;
pub use limits::named_numbers;
pub use lines::MOST_WORDS;
pub use order::{MOST_MEDIA, MOST_STREAMS};
pub use reader::read_script;
pub use text::{entries_text, write_transcript};
pub use text_lines::{end_line, put_line};
pub use words::MOST_SOURCE_BYTES;

//! Bytes and lists as contracts see them, patterns of bits, and the source and the sink of a
//! program.
#![tactic(auto)]

mod bit_pattern;
mod bytes;
mod listed;
mod memory;
mod numbers;
mod sink;
mod source;
mod std_ends;

pub use bit_pattern::BitPattern;
pub use bytes::Bytes;
pub use listed::Listed;
pub use memory::{MemSink, MemSource};
pub use numbers::named_numbers;
pub use sink::{Sink, write_all};
pub use source::{Failed, READ_LIMIT, ReadError, Source, read_all};
pub use std_ends::{ReaderSource, WriterSink};

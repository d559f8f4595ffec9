//! What was sent and is kept to be resent (RFC 4588): a ring of values under rising positions, each
//! until it is too old or its room is needed, and the cache of sent packets, found by number and by
//! size.
#![tactic(auto)]

mod laws;
pub mod mark;
mod numbers;
mod resend_store;
mod ring;
mod rtx_cache;
mod rtx_cache_buf;
mod size_classes;

pub use laws::event_laws;
pub use numbers::named_numbers;
pub use resend_store::ResendStore;
pub use rtx_cache::{Cached, INITIAL_CACHE_PACKETS, RtxCache};
pub use rtx_cache_buf::EvictingBuffer;
pub use size_classes::{CACHED_SIZE_LIMIT, CLASS_COUNT, CLASS_SIZE};

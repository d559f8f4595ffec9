//! What was sent, kept in a queue by rising position.
ghost use Rattle.std.specs.Prelude.{◌≡◌, is_some, IfOk};
ghost use Rattle.std.specs.Bool.{OnFalse, OnTrue};
ghost use Rattle.resend_core.specs.ResendStore.{made, IsPushedInto};
ghost use Rattle.queue_store.specs.Queue.{StandsFor, value_at, with_value};

use media_units::{Duration, Instant};
use queue_store::QueueStore;
use resend_core::ResendStore;
use std::alloc::{AllocError, Global};

/// A queue that keeps values for three seconds, at most 100 positions of them, with a first value.
pub fn queue_of_one(
    alloc: Global,
    position: u64,
    now: Instant,
    value: u32,
) -> Result<QueueStore<u32>, AllocError>
    ensures { IfOk result (λ queue.
        IsPushedInto StandsFor (made 10 3000000000 100) position now value queue) }
{
    let mut queue = QueueStore::new(alloc, 10, Duration::from_secs(3), 100)?;
    queue.push(position, now, value)?;
    Ok(queue)
}

/// Puts another value under a position where one is kept, and tells whether one was.
pub fn replace(queue: &mut QueueStore<u32>, position: u64, value: u32) -> bool
    ensures found { result ≡ is_some (value_at queue.old position) }
    ensures replaced { OnTrue result (queue.new ≡ with_value queue.old position value) }
    ensures unchanged { OnFalse result (queue.new ≡ queue.old) }
{
    match queue.get_mut(position) {
        Some(kept) => {
            *kept = value;
            true
        }
        None => false,
    }
}

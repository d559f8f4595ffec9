//! A value that is found in a queue, with the comparisons that it took.
ghost use Rattle.std.specs.Prelude.{◌≡◌, ◌+◌, ◌-◌, ◌*◌, ◌^◌, ◌≤◌, ◌<◌, length};
ghost use Rattle.queue_store.specs.Queue.{value_at};

use queue_store::{QueueStore, Steps};
use std::marker::Brand;
use std::sync::ledger::{Blank, Ledger};

/// The value of a position, where a queue holds it. Of n values at most log2 (2 n + 1) are compared
/// with it, and the ledger has counted them.
pub fn find_counted<L: Ledger>(
    queue: &QueueStore<u32>,
    position: u64,
    steps: &mut Steps<L>,
) -> Option<u32>
    ensures value { result ≡ value_at queue.now position }
    ensures cost { 2 ^ (steps.new - steps.old) ≤ 2 * length queue.now.stamps + 1 }
{
    queue.get_counted(position, steps).copied()
}

fn find_on<L: Ledger>(queue: &QueueStore<u32>, position: u64, blank: Blank) -> Option<u32>
    requires name { blank.name ≡ L.name }
    requires parts { blank.parts ≡ L.parts }
    requires some { 0 < L.parts }
    ensures { result ≡ value_at queue.now position }
{
    let mut steps = Steps::<L>::new(blank);
    find_counted(queue, position, &mut steps)
}

/// The value of a position, where a queue holds it; a ledger is made for it.
pub fn find(queue: &QueueStore<u32>, position: u64) -> Option<u32>
    ensures { result ≡ value_at queue.now position }
{
    find_on::<Brand>(queue, position, Blank::new(1))
}

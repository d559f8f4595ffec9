use media_units::{Duration, Instant};
use queue_store::QueueStore;
use resend_core::{EvictingBuffer, ResendStore};
use std::alloc::{AllocError, Global};
use std::test::Fail;

fn seconds(count: u64) -> Instant {
    Instant::from_nanos((count % 100) * 1_000_000_000)
}

// Stores pairs of a position and a second, evicts at a second, and tells which of some positions
// are held.
fn held<S: ResendStore<char>>(
    alloc: Global,
    sizes: (usize, usize),
    pushes: &[(u64, u64)],
    evicted: u64,
    asked: &[u64],
) -> Result<Vec<bool>, AllocError> {
    let mut store = S::new(alloc, sizes.0, Duration::from_secs(10), sizes.1)?;
    for (position, second) in pushes {
        store.push(*position, seconds(*second), 'A')?;
    }
    store.maybe_evict(seconds(evicted));
    let mut held = Vec::new(alloc);
    for position in asked {
        held.push(store.contains(*position))?;
    }
    Ok(held)
}

// What was stored, the moment of an eviction, and what is held then. Values are held for ten
// seconds.
static ROWS: [((usize, usize), &[(u64, u64)], u64, &[u64], &[bool]); 5] = [
    (
        (2, 10),
        &[(2, 0), (3, 1), (4, 2)],
        2,
        &[2, 3, 4],
        &[true, true, true],
    ),
    (
        (4, 10),
        &[(5, 0), (7, 2), (8, 3)],
        13,
        &[5, 7, 8],
        &[false, false, true],
    ),
    ((4, 10), &[(5, 0), (13, 9)], 10, &[5, 13], &[true, true]),
    (
        (1, 2),
        &[(1, 0), (2, 0), (3, 0)],
        0,
        &[1, 2, 3],
        &[false, true, true],
    ),
    (
        (4, 4),
        &[(1, 0), (1_000_002, 9)],
        11,
        &[1, 1_000_002],
        &[false, true],
    ),
];

#[test]
fn both_hold(rt: HostRuntime) -> Result<(), Fail> {
    for (sizes, pushes, evicted, asked, wanted) in ROWS {
        let ring = held::<EvictingBuffer<char>>(rt.alloc(), sizes, pushes, evicted, asked)?;
        let queue = held::<QueueStore<char>>(rt.alloc(), sizes, pushes, evicted, asked)?;
        assert_eq!(rt; ring.as_slice(), wanted);
        assert_eq!(rt; queue.as_slice(), wanted);
    }
    Ok(())
}

// What is stored is found, replaced and changed in its place, also out of order; below the mark
// nothing is stored.
#[test]
fn queue_keeps(rt: HostRuntime) -> Result<(), Fail> {
    let mut queue = QueueStore::new(rt.alloc(), 4, Duration::from_secs(10), 10)?;
    queue.push(5, seconds(0), 'A')?;
    queue.push(7, seconds(2), 'C')?;
    queue.push(6, seconds(2), 'B')?;
    queue.push(7, seconds(3), 'D')?;
    queue.push(4, seconds(3), 'E')?;
    assert_eq!(rt; queue.last_position(), Some(7));
    assert_eq!(rt; queue.last().copied(), Some('D'));
    if let Some(value) = queue.get_mut(6) {
        *value = 'F';
    }
    assert_eq!(rt; queue.get(6).copied(), Some('F'));
    assert!(rt; !queue.contains(4));
    queue.clear();
    assert_eq!(rt; queue.last_position(), None);
    assert!(rt; !queue.contains(7));
    Ok(())
}

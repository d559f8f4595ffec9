use crate::packets::{Packet, is_number, is_packet};
use media_units::{Duration, Instant};
use queue_store::QueueStore;
use resend_core::{EvictingBuffer, ResendStore};
use rtp_base::{NackEntry, SeqNo};
use rtx_core::{ResendError, ResendQueue};
use std::alloc::{AllocError, Global};
use std::test::Fail;

/// What is done to a queue of resends, and what it answers. Moments are in milliseconds.
#[derive(Clone, Copy)]
enum Step {
    /// A packet of a number and a size is sent, and kept.
    Sent(u64, usize, u64),
    /// One of a size is sent, and not kept.
    Counted(usize, u64),
    /// A NACK names a number, and others by bits.
    Nack(u16, u16, u64),
    /// The packet that is sent again next.
    Next(u64, Option<u64>),
    /// It is taken, under a number.
    Taken(u64, Option<u64>),
    /// It has no number left.
    UsedUp(u64),
    /// All goes.
    Clear,
    /// All begins anew, with a first number of repairs and the same limits.
    Anew(u64),
}

use Step::{Anew, Clear, Counted, Nack, Next, Sent, Taken, UsedUp};

/// The number of the first repair; how many packets are kept, and for how many milliseconds; the
/// cap.
type Made = (u64, usize, u64, Option<u32>);

const SECONDS: Made = (5, 2_000, 3_000, None);

const CAPPED: Made = (5, 2_000, 3_000, Some(15));

const LIMIT: u64 = 281_474_976_710_656;

static ROWS: [(Made, &[Step]); 13] = [
    // Asked for twice.
    (
        SECONDS,
        &[
            Sent(1, 1, 0),
            Sent(2, 1, 0),
            Sent(3, 1, 0),
            Nack(2, 0, 33),
            Nack(2, 0, 33),
            Next(33, Some(2)),
            Taken(33, Some(5)),
            Taken(33, Some(6)),
            Taken(33, None),
        ],
    ),
    // One byte in four was sent again, until the first sendings are older than a second.
    (
        CAPPED,
        &[
            Sent(1, 1, 0),
            Sent(2, 1, 0),
            Sent(3, 1, 0),
            Nack(2, 0, 33),
            Taken(33, Some(5)),
            Nack(2, 0, 100),
            Next(100, None),
            Taken(100, None),
            Nack(2, 0, 149),
            Taken(149, None),
            Nack(2, 0, 2_000),
            Taken(2_000, Some(6)),
        ],
    ),
    // One byte in five was, which is the cap.
    (
        (5, 2_000, 3_000, Some(20)),
        &[
            Sent(2, 1, 0),
            Counted(3, 0),
            Nack(2, 0, 33),
            Taken(33, Some(5)),
            Nack(2, 0, 100),
            Taken(100, Some(6)),
        ],
    ),
    // Without a cap.
    (
        SECONDS,
        &[
            Sent(2, 1, 0),
            Nack(2, 0, 33),
            Taken(33, Some(5)),
            Nack(2, 0, 100),
            Taken(100, Some(6)),
        ],
    ),
    // A number is the one nearest to that which was kept last.
    (
        SECONDS,
        &[
            Sent(65_541, 1, 0),
            Nack(5, 0, 0),
            Next(0, Some(65_541)),
            Taken(0, Some(5)),
            Nack(65_530, 0, 0),
            Taken(0, None),
        ],
    ),
    // The last number, and none left.
    (
        (281_474_976_710_655, 32_000, 3_000, None),
        &[
            Sent(1, 1, 0),
            Nack(1, 0, 0),
            Nack(1, 0, 0),
            Taken(0, Some(281_474_976_710_655)),
            UsedUp(0),
            UsedUp(0),
            Next(0, Some(1)),
        ],
    ),
    // At an age of three seconds a packet is kept, and above it not, also where it was asked for
    // before.
    (
        SECONDS,
        &[
            Sent(1, 1, 0),
            Sent(2, 1, 3_000),
            Nack(1, 0, 3_000),
            Next(3_000, Some(1)),
            Sent(3, 1, 3_001),
            Next(3_001, None),
            Nack(1, 3, 3_001),
            Taken(3_001, Some(5)),
            Next(3_001, Some(3)),
        ],
    ),
    // Room for one.
    (
        (5, 1, 3_000, None),
        &[
            Sent(1, 1, 0),
            Sent(2, 1, 0),
            Nack(1, 1, 0),
            Next(0, Some(2)),
            Clear,
        ],
    ),
    (
        SECONDS,
        &[
            Sent(1, 1, 0),
            Nack(1, 0, 0),
            Clear,
            Taken(0, None),
            Nack(1, 0, 0),
            Taken(0, None),
        ],
    ),
    // The room for one packet stays.
    (
        (5, 1, 3_000, None),
        &[
            Sent(1, 1, 0),
            Nack(1, 0, 0),
            Anew(9),
            Next(0, None),
            Sent(2, 1, 0),
            Sent(3, 1, 0),
            Nack(2, 1, 0),
            Taken(0, Some(9)),
            Taken(0, None),
        ],
    ),
    // The cap stays, and what it counts begins anew.
    (
        CAPPED,
        &[
            Sent(1, 1, 0),
            Nack(1, 0, 0),
            Taken(0, Some(5)),
            Anew(9),
            Sent(2, 1, 100),
            Nack(2, 0, 100),
            Taken(100, Some(9)),
            Nack(2, 0, 150),
            Taken(150, None),
        ],
    ),
    // Nothing is kept.
    (
        (5, 0, 3_000, None),
        &[Sent(1, 1, 0), Nack(1, 0, 0), Taken(0, None)],
    ),
    (
        (5, 2_000, 0, None),
        &[Sent(1, 1, 0), Nack(1, 0, 0), Taken(0, None)],
    ),
];

fn at(milliseconds: u64) -> Instant {
    Instant::from_nanos((milliseconds % 1_000_000) * 1_000_000)
}

fn is_answered<S: ResendStore<Packet>>(
    queue: &mut ResendQueue<Packet, S>,
    step: Step,
) -> Result<bool, AllocError> {
    match step {
        Sent(number, size, now) => {
            let packet = Packet {
                number: number % LIMIT,
                size: size % 2_000,
            };
            queue.cache_sent_packet(packet, at(now))?;
        }
        Counted(size, now) => queue.count_sent(at(now), size)?,
        Nack(pid, blp, now) => queue.handle_nack(&[NackEntry { pid, blp }], at(now))?,
        Next(now, wanted) => return Ok(is_packet(queue.peek(at(now)), wanted)),
        Taken(now, wanted) => {
            return match queue.pop(at(now)) {
                Ok(number) => Ok(is_number(number, wanted)),
                Err(ResendError::Memory) => Err(AllocError),
                Err(ResendError::Exhausted) => Ok(false),
            };
        }
        UsedUp(now) => return Ok(queue.pop(at(now)) == Err(ResendError::Exhausted)),
        Clear => queue.clear(),
        Anew(first) => *queue = queue.anew(SeqNo::from(first % LIMIT))?,
    }
    Ok(true)
}

fn are_answered<S: ResendStore<Packet>>(
    alloc: Global,
    made: Made,
    steps: &[Step],
) -> Result<bool, AllocError> {
    let mut queue = ResendQueue::<Packet, S>::new(alloc, SeqNo::from(made.0 % LIMIT))?;
    queue.set_rtx_cache(made.1, Duration::from_millis(made.2 % 1_000_000), made.3)?;
    for step in steps {
        if !is_answered(&mut queue, *step)? {
            return Ok(false);
        }
    }
    Ok(true)
}

#[test]
fn resends_of_both_stores(rt: HostRuntime) -> Result<(), Fail> {
    for (made, steps) in &ROWS {
        assert!(rt; are_answered::<EvictingBuffer<Packet>>(rt.alloc(), *made, steps)?);
        assert!(rt; are_answered::<QueueStore<Packet>>(rt.alloc(), *made, steps)?);
    }
    Ok(())
}

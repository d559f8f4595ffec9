//! Rounds on the pacers.
use media_units::{Bitrate, DataSize, Duration, Instant};
use pace_core::{LeakyBucketPacer, NullPacer, Pacer};
use pace_units::{QueuePriority, QueueSnapshot, QueueState};
use rtp_base::{Mid, MidRid, Rid};
use std::alloc::{AllocError, Global};

/// What is done with a pacer over so many queues.
#[derive(Clone, Copy)]
pub enum PacerWork {
    /// A timeout, a poll and a packet of a leaky bucket pacer.
    Leaky(u16),
    /// A timeout, a poll and a packet of a null pacer.
    Null(u16),
    /// A poll of a null pacer whose queues hold nothing.
    NullPoll(u16),
}

// The section of a queue: two letters of its number, or none.
fn section(number: u16) -> Option<Mid> {
    let high = b'a' + (number / 26 % 26) as u8;
    let low = b'a' + (number % 26) as u8;
    Mid::from_slice(&[high, low])
}

// A queue of so many packets of 1,200 bytes.
fn queue(mid: Mid, packets: u32, now: Instant) -> QueueState {
    let priority = if packets > 0 {
        QueuePriority::Media
    } else {
        QueuePriority::Empty
    };
    QueueState {
        midrid: MidRid(mid, None),
        unpaced: false,
        use_for_padding: false,
        snapshot: QueueSnapshot {
            created_at: now,
            byte_size: if packets > 0 { 1_200 } else { 0 },
            packet_count: packets,
            total_queue_time_origin: Duration::ZERO,
            last_emitted: None,
            first_unsent: if packets > 0 { Some(now) } else { None },
            priority,
        },
    }
}

// Puts the queue of a number behind others.
fn push_queue(states: &mut Vec<QueueState>, number: u16, packets: u32) -> Result<(), AllocError> {
    // The check has to meet the types that a state may hold.
    let _key: (Option<MidRid>, Option<Rid>) = (None, None);
    let _state: (
        Option<QueueSnapshot>,
        Option<QueuePriority>,
        Option<Instant>,
    ) = (None, None, None);
    if let Some(mid) = section(number) {
        states.push(queue(mid, packets, Instant::from_nanos(0)))?;
    }
    Ok(())
}

// Puts so many queues of so many packets each behind others.
fn push_queues(states: &mut Vec<QueueState>, count: u16, packets: u32) -> Result<(), AllocError> {
    for number in 0..count {
        push_queue(states, number, packets)?;
    }
    Ok(())
}

fn filled(alloc: Global, count: u16, packets: u32) -> Result<Vec<QueueState>, AllocError> {
    let mut states = Vec::new(alloc);
    push_queues(&mut states, count, packets)?;
    Ok(states)
}

// A timeout, a poll and, where a queue is given, a packet; tells whether one was sent.
fn cycle<P: Pacer>(pacer: &mut P, queues: &[QueueState], now: Instant) -> Result<bool, AllocError> {
    let _ = pacer.handle_timeout(now, queues)?;
    match pacer.poll_queue() {
        Some((midrid, _)) => {
            pacer.register_send(now, DataSize::bytes(1_200), midrid)?;
            Ok(true)
        }
        None => Ok(false),
    }
}

// So many cycles, 2 ms apart; tells how many packets were sent.
fn cycles<P: Pacer>(pacer: &mut P, queues: &[QueueState], count: u64) -> Result<u64, AllocError> {
    let mut sent: u64 = 0;
    for i in 0..count {
        let now = Instant::from_nanos(i.wrapping_mul(2_000_000));
        sent = sent.wrapping_add(u64::from(cycle(pacer, queues, now)?));
    }
    Ok(sent)
}

// So many polls after one timeout; tells how many gave no queue.
fn polls<P: Pacer>(pacer: &mut P, queues: &[QueueState], count: u64) -> Result<u64, AllocError> {
    let _ = pacer.handle_timeout(Instant::from_nanos(1), queues)?;
    let mut quiet: u64 = 0;
    for _i in 0..count {
        if pacer.poll_queue().is_none() {
            quiet = quiet.wrapping_add(1);
        }
    }
    Ok(quiet)
}

fn leaky(alloc: Global, queues: &[QueueState], count: u64) -> Result<u64, AllocError> {
    let mut pacer = LeakyBucketPacer::new(alloc, Bitrate::mbps(10));
    cycles(&mut pacer, queues, count)
}

fn null(alloc: Global, queues: &[QueueState], count: u64) -> Result<u64, AllocError> {
    let mut pacer = NullPacer::new(alloc);
    cycles(&mut pacer, queues, count)
}

fn null_polls(alloc: Global, queues: &[QueueState], count: u64) -> Result<u64, AllocError> {
    let mut pacer = NullPacer::new(alloc);
    polls(&mut pacer, queues, count)
}

// Does it so often over these queues.
fn play_on(
    alloc: Global,
    work: PacerWork,
    queues: &[QueueState],
    count: u64,
) -> Result<u64, AllocError> {
    match work {
        PacerWork::Leaky(_) => leaky(alloc, queues, count),
        PacerWork::Null(_) => null(alloc, queues, count),
        PacerWork::NullPoll(_) => null_polls(alloc, queues, count),
    }
}

impl PacerWork {
    // How many queues there are, and how many packets each of them holds.
    fn sizes(self) -> (u16, u32) {
        match self {
            PacerWork::Leaky(size) | PacerWork::Null(size) => (size, 1),
            PacerWork::NullPoll(size) => (size, 0),
        }
    }

    /// Does it so often.
    pub fn play(self, alloc: Global, count: u64) -> Result<u64, AllocError> {
        let (size, packets) = self.sizes();
        let queues = filled(alloc, size, packets)?;
        play_on(alloc, self, &queues, count)
    }
}

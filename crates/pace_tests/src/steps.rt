//! Calls of a pacer as steps of a table, and what is seen of each.
use media_units::{Bitrate, DataSize, Instant};
use pace_core::{Pacer, QueuePriority, QueueSnapshot, QueueState, Reason};
use rtp_base::{Mid, MidRid, Rid, TwccClusterId};
use std::alloc::{AllocError, Global};
use std::process::Abort;

// What a queue is beside its packets.
#[derive(Clone, Copy)]
pub enum Kind {
    // Media that was never sent on.
    Fresh,
    // Media that was sent on last at a moment.
    Sent(u64),
    // Unpaced media, whose first packet waits since a moment.
    Unpaced(u64),
    // Padding alone, sent on last at a moment.
    Padding(u64),
    // Media, and no padding may be asked of it.
    Apart,
}

// A queue at a timeout: its media, a letter, its packets and their bytes, made at moment 0.
#[derive(Clone, Copy)]
pub struct Held(pub u8, pub u32, pub usize, pub Kind);

// The queues of a timeout.
pub type Queues = &'static [Held];

// A call of a pacer. Moments are in nanoseconds, rates in bits a second.
#[derive(Clone, Copy)]
pub enum Step<'a> {
    Pacing(u64),
    Padding(u64),
    // A timeout with these queues.
    Timeout(u64, &'a [Held]),
    Poll,
    // A packet of so many bytes is sent on a queue.
    Send(u64, u64, u8),
    // When the next timeout is wanted.
    Wake,
}

// What a call answers.
#[derive(Clone, Copy, PartialEq)]
pub enum Seen {
    Nothing,
    // The padding that is asked for: the media and the bytes.
    Asked(Option<(u8, usize)>),
    // The queue that is let out, and the cluster.
    Gave(Option<(u8, Option<u64>)>),
    Wakes(Option<u64>, Reason),
}

pub fn at(nanos: u64) -> Instant {
    Instant::from_nanos(nanos)
}

// The queue of the media of a letter.
fn key_of(rt: &impl Abort, letter: u8) -> MidRid {
    MidRid(Mid::from_slice(&[letter]).expect(rt, "a letter"), None)
}

// The letter of a queue.
fn letter_of(key: &MidRid) -> u8 {
    match key.0.as_slice() {
        [letter] => *letter,
        _ => 0,
    }
}

pub fn number_of(cluster: Option<TwccClusterId>) -> Option<u64> {
    match cluster {
        Some(cluster) => Some(u64::from(cluster)),
        None => None,
    }
}

fn snapshot_of(held: &Held) -> QueueSnapshot {
    let mut snapshot = QueueSnapshot::default();
    snapshot.created_at = at(0);
    snapshot.packet_count = held.1;
    snapshot.byte_size = held.2;
    snapshot.update_priority(QueuePriority::Media);
    match held.3 {
        Kind::Fresh | Kind::Apart => {}
        Kind::Sent(last) => snapshot.last_emitted = Some(at(last)),
        Kind::Unpaced(since) => snapshot.first_unsent = Some(at(since)),
        Kind::Padding(last) => {
            snapshot.last_emitted = Some(at(last));
            snapshot.update_priority(QueuePriority::Padding);
        }
    }
    snapshot
}

fn state_of(rt: &impl Abort, held: &Held) -> QueueState {
    QueueState {
        midrid: key_of(rt, held.0),
        unpaced: matches!(held.3, Kind::Unpaced(_)),
        use_for_padding: !matches!(held.3, Kind::Apart),
        snapshot: snapshot_of(held),
    }
}

fn states(rt: &impl Abort, alloc: Global, queues: &[Held]) -> Result<Vec<QueueState>, AllocError> {
    // The check has to meet the types that a state may hold.
    let _key: (Option<MidRid>, Option<Rid>) = (None, None);
    let _state: (
        Option<QueueSnapshot>,
        Option<QueuePriority>,
        Option<Instant>,
    ) = (None, None, None);
    let mut states = Vec::new(alloc);
    for held in queues {
        states.push(state_of(rt, held))?;
    }
    Ok(states)
}

fn timeout<P: Pacer>(
    rt: &impl Abort,
    alloc: Global,
    pacer: &mut P,
    now: u64,
    queues: &[Held],
) -> Result<Seen, AllocError> {
    // The check has to meet the types that a state may hold.
    let _key: (Option<MidRid>, Option<Rid>) = (None, None);
    let _state: (
        Option<QueueSnapshot>,
        Option<QueuePriority>,
        Option<Instant>,
    ) = (None, None, None);
    let states = states(rt, alloc, queues)?;
    match pacer.handle_timeout(at(now), states.as_slice())? {
        Some(request) => Ok(Seen::Asked(Some((letter_of(&request.midrid), request.padding)))),
        None => Ok(Seen::Asked(None)),
    }
}

fn poll<P: Pacer>(pacer: &mut P) -> Seen {
    match pacer.poll_queue() {
        Some((key, cluster)) => Seen::Gave(Some((letter_of(&key), number_of(cluster)))),
        None => Seen::Gave(None),
    }
}

fn wake<P: Pacer>(pacer: &P) -> Seen {
    match pacer.poll_timeout() {
        (Some(moment), reason) => Seen::Wakes(Some(moment.as_nanos()), reason),
        (None, reason) => Seen::Wakes(None, reason),
    }
}

pub fn play<P: Pacer>(
    rt: &impl Abort,
    alloc: Global,
    pacer: &mut P,
    step: Step,
) -> Result<Seen, AllocError> {
    match step {
        Step::Pacing(rate) => pacer.set_pacing_rate(Bitrate::bps(rate)),
        Step::Padding(rate) => pacer.set_padding_rate(Bitrate::bps(rate)),
        Step::Timeout(now, queues) => return timeout(rt, alloc, pacer, now, queues),
        Step::Poll => return Ok(poll(pacer)),
        Step::Send(now, size, letter) => {
            pacer.register_send(at(now), DataSize::bytes(size), key_of(rt, letter))?;
        }
        Step::Wake => return Ok(wake(pacer)),
    }
    Ok(Seen::Nothing)
}

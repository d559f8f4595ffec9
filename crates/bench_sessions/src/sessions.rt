//! Rounds on sessions: one stream, the toy cipher under AEAD_AES_128_GCM, and the register with a
//! mask.
use crate::end::End;
use crate::peer::{Peer, Role, moment};
use media_units::Instant;
use rtp_base::{Mid, MidRid};
use session_core::Datagram;
use std::alloc::{AllocError, Global};

/// What is done with a session, with payloads of so many bytes.
#[derive(Clone, Copy)]
pub enum SessionWork {
    /// A packet is written, a tick comes, and all that leaves is taken.
    Send(usize),
    /// A datagram comes, and what it opened to is taken.
    Receive(usize),
    /// A packet is asked for, a tick comes, and all that leaves is taken: the packet as a repair.
    Repair(usize),
}

/// So many datagrams are sealed once, and come to each of several sessions.
const SEALED: u64 = 500;

// The section of the stream.
fn section() -> Option<MidRid> {
    Some(MidRid(Mid::from_slice(b"v")?, None))
}

// Gives an end its media section, its keys and its stream.
fn set_up<P: Peer>(alloc: Global, peer: &mut P, role: Role, at: &MidRid) -> Result<(), AllocError> {
    let left = !matches!(role, Role::Receiver);
    peer.add_media(alloc, at)?;
    peer.give_keys(alloc, left)?;
    peer.add_stream(role, at)
}

// An end with its stream.
fn ready<P: Peer>(alloc: Global, role: Role, at: &MidRid) -> Result<Box<P>, AllocError> {
    let mut peer = P::fresh(alloc)?;
    set_up(alloc, &mut *peer, role, at)?;
    Ok(peer)
}

// Ticks, and takes what leaves.
fn leave<P: Peer>(peer: &mut P, now: Instant) -> Result<Vec<Datagram>, AllocError> {
    peer.tick(now)?;
    let given = peer.take(now)?;
    Ok(given.datagrams)
}

// The same; tells how many datagrams left.
fn count_leaving<P: Peer>(peer: &mut P, now: Instant) -> Result<u64, AllocError> {
    let datagrams = leave(peer, now)?;
    Ok(datagrams.len() as u64)
}

// Sends so many packets; tells how many datagrams left.
fn send_all<P: Peer>(
    alloc: Global,
    peer: &mut P,
    bytes: &[u8],
    count: u64,
) -> Result<u64, AllocError> {
    let mut sent: u64 = 0;
    for i in 0..count {
        peer.write(alloc, i, bytes)?;
        sent = sent.wrapping_add(count_leaving(peer, moment(i))?);
    }
    Ok(sent)
}

fn send<P: Peer>(alloc: Global, at: &MidRid, bytes: &[u8], count: u64) -> Result<u64, AllocError> {
    let mut peer: Box<P> = ready(alloc, Role::Sender, at)?;
    send_all(alloc, &mut *peer, bytes, count)
}

// Sends a packet, and puts the last datagram that leaves behind those before.
fn seal_one<P: Peer>(
    alloc: Global,
    peer: &mut P,
    number: u64,
    bytes: &[u8],
    all: &mut Vec<Datagram>,
) -> Result<(), AllocError> {
    peer.write(alloc, number, bytes)?;
    let mut datagrams = leave(peer, moment(number))?;
    if let Some(datagram) = datagrams.pop() {
        all.push(datagram)?;
    }
    Ok(())
}

// Puts the datagrams of the first numbers behind those before.
fn seal_all<P: Peer>(
    alloc: Global,
    peer: &mut P,
    bytes: &[u8],
    all: &mut Vec<Datagram>,
) -> Result<(), AllocError> {
    for i in 0..SEALED {
        seal_one(alloc, peer, i, bytes, all)?;
    }
    Ok(())
}

fn seal<P: Peer>(
    alloc: Global,
    at: &MidRid,
    bytes: &[u8],
    all: &mut Vec<Datagram>,
) -> Result<(), AllocError> {
    let mut peer: Box<P> = ready(alloc, Role::Sender, at)?;
    seal_all(alloc, &mut *peer, bytes, all)
}

// Takes a datagram in, and what it opened to; tells whether it opened.
fn receive_next<P: Peer>(peer: &mut P, bytes: &[u8]) -> Result<bool, AllocError> {
    let opened = peer.open(bytes)?;
    let given = peer.take(moment(0))?;
    Ok(opened && given.events > 0)
}

// The datagrams come; tells how many opened.
fn receive_each<P: Peer>(peer: &mut P, datagrams: &[Datagram]) -> Result<u64, AllocError> {
    let mut opened: u64 = 0;
    for datagram in datagrams {
        let opens = receive_next(peer, datagram.bytes.as_slice())?;
        opened = opened.wrapping_add(u64::from(opens));
    }
    Ok(opened)
}

// The datagrams come to a new session; tells how many opened.
fn receive_once<P: Peer>(
    alloc: Global,
    at: &MidRid,
    datagrams: &[Datagram],
) -> Result<u64, AllocError> {
    let mut peer: Box<P> = ready(alloc, Role::Receiver, at)?;
    receive_each(&mut *peer, datagrams)
}

// The datagrams come to several sessions; tells how many opened.
fn receive_all<P: Peer>(
    alloc: Global,
    at: &MidRid,
    datagrams: &[Datagram],
    count: u64,
) -> Result<u64, AllocError> {
    let mut opened: u64 = 0;
    for _i in 0..count / SEALED {
        opened = opened.wrapping_add(receive_once::<P>(alloc, at, datagrams)?);
    }
    Ok(opened)
}

fn receive<P: Peer>(
    alloc: Global,
    at: &MidRid,
    bytes: &[u8],
    count: u64,
) -> Result<u64, AllocError> {
    let mut datagrams = Vec::new(alloc);
    seal::<P>(alloc, at, bytes, &mut datagrams)?;
    receive_all::<P>(alloc, at, &datagrams, count)
}

// Asks so often for the first packet; tells how many datagrams left.
fn repair_all<P: Peer>(peer: &mut P, count: u64) -> Result<u64, AllocError> {
    let mut sent: u64 = 0;
    for i in 0..count {
        peer.ask(moment(i))?;
        sent = sent.wrapping_add(count_leaving(peer, moment(i))?);
    }
    Ok(sent)
}

fn repair<P: Peer>(
    alloc: Global,
    at: &MidRid,
    bytes: &[u8],
    count: u64,
) -> Result<u64, AllocError> {
    let mut peer: Box<P> = ready(alloc, Role::Repairer, at)?;
    send_all(alloc, &mut *peer, bytes, 1)?;
    repair_all(&mut *peer, count)
}

// Does it so often with these bytes.
fn play_on<P: Peer>(
    alloc: Global,
    work: SessionWork,
    bytes: &[u8],
    count: u64,
) -> Result<u64, AllocError> {
    let Some(at) = section() else {
        return Ok(0);
    };
    match work {
        SessionWork::Send(_) => send::<P>(alloc, &at, bytes, count),
        SessionWork::Receive(_) => receive::<P>(alloc, &at, bytes, count),
        SessionWork::Repair(_) => repair::<P>(alloc, &at, bytes, count),
    }
}

impl SessionWork {
    // The bytes of a payload.
    fn size(self) -> usize {
        match self {
            SessionWork::Send(size) | SessionWork::Receive(size) | SessionWork::Repair(size) => {
                size
            }
        }
    }

    /// Does it so often.
    pub fn play(self, alloc: Global, count: u64) -> Result<u64, AllocError> {
        let bytes = vec![in alloc; 7; self.size()]?;
        play_on::<End>(alloc, self, &bytes, count)
    }
}

use crate::steps::at;
use media_base::Listed;
use media_units::{Bitrate, DataSize, Duration, Instant};
use pace_core::{PaceCall, PaceEntry, PaceError, PaceLog, PaceQueue, are_short, pace_run};
use rtp_base::Mid;
use std::alloc::{AllocError, Global};
use std::process::Abort;

// A call of a run. The only queue is that of the media v.
#[derive(Clone, Copy)]
enum Call {
    Pacing(u64),
    Padding(u64),
    // A timeout at a moment, with so many packets of 1,000 bytes each, and whether padding may be
    // asked for.
    Timeout(u64, u32, bool),
    Poll,
    // A packet at a moment, of so many bytes.
    Send(u64, u64),
}

// What a call answers.
#[derive(Clone, Copy, PartialEq)]
enum Line {
    Set,
    Timed(Option<u64>),
    Chose,
    Idle(Option<u64>),
    // The bits of a packet, the debt in bits after it, and the rate.
    Sent(u64, u128, u64),
}

use Call::{Poll, Send, Timeout};
use Line::{Chose, Idle, Sent, Set, Timed};

fn call_of(alloc: Global, mid: Mid, call: Call) -> Result<PaceCall, AllocError> {
    match call {
        Call::Pacing(rate) => Ok(PaceCall::Pacing(Bitrate::bps(rate))),
        Call::Padding(rate) => Ok(PaceCall::Padding(Bitrate::bps(rate))),
        Timeout(now, count, padding) => {
            let mut queues = Listed::new(alloc);
            queues.push(PaceQueue {
                mid,
                count,
                bytes: DataSize::bytes(count as u64 * 1_000),
                wait: Duration::ZERO,
                padding,
            })?;
            Ok(PaceCall::Timeout(at(now), queues))
        }
        Poll => Ok(PaceCall::Poll),
        Send(now, size) => Ok(PaceCall::Send(at(now), DataSize::bytes(size))),
    }
}

fn size_of(asked: &Option<(Mid, DataSize)>) -> Option<u64> {
    match asked {
        Some((_, size)) => Some(size.as_u64()),
        None => None,
    }
}

fn nanos_of(wake: &Option<Instant>) -> Option<u64> {
    match wake {
        Some(moment) => Some(moment.as_nanos()),
        None => None,
    }
}

fn line_of(entry: &PaceEntry) -> Line {
    match entry {
        PaceEntry::Set => Set,
        PaceEntry::Timed(asked) => Timed(size_of(asked)),
        PaceEntry::Chose(_) => Chose,
        PaceEntry::Idle(wake) => Idle(nanos_of(wake)),
        PaceEntry::Sent { bits, debt, rate } => {
            Sent(*bits, debt.as_billionths() / 1_000_000_000, rate.as_u64())
        }
    }
}

// The log of a run at 1 Mbit/s, and why it ended early.
fn run(
    rt: &impl Abort,
    alloc: Global,
    table: &[Call],
) -> Result<(PaceLog, Option<PaceError>), AllocError> {
    let mid = Mid::from_slice(b"v").expect(rt, "a mid");
    let mut calls = Vec::new(alloc);
    for call in table {
        calls.push(call_of(alloc, mid, *call)?)?;
    }
    assert!(rt; are_short(calls.as_slice()));
    match pace_run(alloc, Bitrate::mbps(1), calls.as_slice()) {
        Ok(log) => Ok((log, None)),
        Err(fault) => Ok((fault.sofar, Some(fault.error))),
    }
}

fn logs(
    rt: &impl Abort,
    alloc: Global,
    table: &[Call],
    wanted: &[Line],
    error: Option<PaceError>,
) -> Result<(), AllocError> {
    let (log, ended) = run(rt, alloc, table)?;
    assert!(rt; ended == error);
    assert_eq!(rt; log.len(), wanted.len());
    assert_eq!(rt; log.is_empty(), wanted.is_empty());
    for (i, (entry, line)) in log.iter().zip(wanted.iter()).enumerate() {
        assert!(rt; line_of(entry) == *line, "call {i}");
    }
    Ok(())
}

// Two packets at one moment; a poll between tells the wake.
static TWO: [Call; 8] = [
    Timeout(1, 2, false),
    Poll,
    Send(1, 1_000),
    Poll,
    Timeout(1, 1, false),
    Poll,
    Send(1, 1_000),
    Poll,
];

static TWO_LINES: [Line; 8] = [
    Timed(None),
    Chose,
    Sent(8_000, 8_000, 1_000_000),
    Idle(Some(1_001)),
    Timed(None),
    Chose,
    Sent(8_000, 16_000, 1_000_000),
    Idle(Some(1_001)),
];

// 31 bytes of padding, again once the debt is drained at 50 kbit/s.
static PADDED: [Call; 8] = [
    Poll,
    Call::Padding(50_000),
    Timeout(5, 0, true),
    Poll,
    Send(5, 31),
    Call::Pacing(2_000_000),
    Timeout(4_960_004, 0, true),
    Timeout(4_960_005, 0, true),
];

static PADDED_LINES: [Line; 8] = [
    Idle(None),
    Set,
    Timed(Some(31)),
    Chose,
    Sent(248, 248, 1_000_000),
    Set,
    Timed(None),
    Timed(Some(31)),
];

// What no poll gave a queue for is not sent, not twice for one poll, and moments do not fall.
static UNPOLLED: [Call; 2] = [Timeout(1, 2, false), Send(1, 1_000)];

static TWICE: [Call; 4] = [Timeout(1, 2, false), Poll, Send(1, 1_000), Send(1, 1_000)];

static FALLS: [Call; 4] = [Timeout(2, 2, false), Poll, Send(3, 0), Timeout(2, 1, false)];

static SENT_BEFORE: [Call; 3] = [Timeout(2, 2, false), Poll, Send(1, 0)];

static FALLEN: [Line; 3] = [Timed(None), Chose, Sent(0, 0, 1_000_000)];

fn runs(rt: &impl Abort, alloc: Global) -> Result<(), AllocError> {
    logs(rt, alloc, &TWO, &TWO_LINES, None)?;
    logs(rt, alloc, &PADDED, &PADDED_LINES, None)?;
    logs(
        rt,
        alloc,
        &UNPOLLED,
        &TWO_LINES[..1],
        Some(PaceError::Call(1)),
    )?;
    logs(rt, alloc, &TWICE, &TWO_LINES[..3], Some(PaceError::Call(3)))?;
    logs(rt, alloc, &FALLS, &FALLEN, Some(PaceError::Call(3)))?;
    logs(
        rt,
        alloc,
        &SENT_BEFORE,
        &FALLEN[..2],
        Some(PaceError::Call(2)),
    )
}

#[test]
fn runs_are_logged(rt: HostRuntime) {
    assert!(rt; runs(&rt, rt.alloc()).is_ok());
}

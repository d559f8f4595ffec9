use PacketStatus::{NotReceived, Received};
use media_base::Listed;
use media_units::{DataSize, Instant};
use rtp_base::{SeqNo, Ssrc, TwccPacketId};
use std::alloc::{AllocError, Global};
use twcc_core::{
    PacketStatus, StatusList, Twcc, TwccRecvRegister, TwccSendRecord, TwccSendRegister, arrivals,
    read_twcc, twcc_len, write_twcc,
};

/// Of feedback its first number, its reference time, its count, and what became of each packet.
type Feedback = (u16, i32, u8, &'static [PacketStatus]);

// Seven packets 1 ms after one another, one that is missing and one 250 us before the last, from
// the number 65,535 on: a run, a vector, deltas and fill.
static WORKED: [u8; 32] = [
    0, 0, 0, 1, 0, 0, 0, 42, 0xff, 0xff, 0, 9, 0xff, 0xff, 0xff, 7, 0x20, 7, 0xc8, 0, 4, 4, 4, 4,
    4, 4, 4, 0xff, 0xff, 0, 0, 0,
];

static WORKED_FEEDBACK: Feedback = (
    65_535,
    -1,
    7,
    &[
        Received(4),
        Received(4),
        Received(4),
        Received(4),
        Received(4),
        Received(4),
        Received(4),
        NotReceived,
        Received(-1),
    ],
);

fn rows_of(alloc: Global, statuses: &[PacketStatus]) -> Result<StatusList, AllocError> {
    let mut rows = StatusList::new(alloc);
    for status in statuses {
        rows.push(*status)?;
    }
    Ok(rows)
}

fn feedback_of(alloc: Global, feedback: &Feedback) -> Result<Twcc, AllocError> {
    let rows = rows_of(alloc, feedback.3)?;
    Ok(Twcc {
        sender_ssrc: Ssrc::from(1),
        ssrc: Ssrc::from(42),
        base_seq: feedback.0,
        reference_time: feedback.1,
        feedback_count: feedback.2,
        rows,
    })
}

// How many bytes feedback takes that is written, if they are as many as were told before.
fn write(twcc: &Twcc, out: &mut [u8]) -> Option<usize> {
    if twcc.rows.len() >= 65_536 {
        return None;
    }
    let len = twcc_len(twcc);
    match write_twcc(twcc, out) {
        Some(written) if written == len => Some(len),
        _ => None,
    }
}

// Whether feedback is that of `WORKED`, and is written as it where there is room.
fn is_worked(twcc: &Option<Twcc>, wanted: &Twcc) -> bool {
    let Some(twcc) = twcc else {
        return false;
    };
    let mut out = [1; 32];
    let whole = write(twcc, &mut out) == Some(32) && out == WORKED;
    whole && *twcc == *wanted && write(twcc, &mut out[..31]).is_none()
}

fn goes_both_ways(alloc: Global) -> Result<bool, AllocError> {
    let wanted = feedback_of(alloc, &WORKED_FEEDBACK)?;
    let read = read_twcc(alloc, &WORKED)?;
    Ok(is_worked(&read, &wanted))
}

#[test]
fn worked_bytes(rt: HostRuntime) {
    assert!(rt; goes_both_ways(rt.alloc()) == Ok(true));
}

// Feedback that so many packets are missing.
fn gap_of(alloc: Global, count: u16) -> Result<Twcc, AllocError> {
    let mut gap = feedback_of(alloc, &(5, 1, 7, &[]))?;
    for _ in 0..count {
        gap.rows.push(NotReceived)?;
    }
    Ok(gap)
}

// Nine runs that tell 65,535 missing packets, which is as many as feedback can tell of.
static WIDE: [u8; 36] = [
    0, 0, 0, 1, 0, 0, 0, 42, 0, 5, 0xff, 0xff, 0, 0, 1, 7, 0x1f, 0xff, 0x1f, 0xff, 0x1f, 0xff,
    0x1f, 0xff, 0x1f, 0xff, 0x1f, 0xff, 0x1f, 0xff, 0x1f, 0xff, 0, 7, 0, 0,
];

fn is_wide(alloc: Global) -> Result<bool, AllocError> {
    let gap = gap_of(alloc, 65_535)?;
    let Some(read) = read_twcc(alloc, &WIDE)? else {
        return Ok(false);
    };
    let mut out = [1; 36];
    let written = write(&read, &mut out) == Some(36) && out == WIDE;
    Ok(written && read.rows.len() == 65_535 && read == gap)
}

// Few bytes tell of many packets.
#[test]
fn wide_gap(rt: HostRuntime) {
    assert!(rt; is_wide(rt.alloc()) == Ok(true));
}

fn send(register: &mut TwccSendRegister, number: u64, nanos: u64) -> Result<(), AllocError> {
    let id = TwccPacketId::new(SeqNo::from(number));
    register.register_seq(id, DataSize::bytes(1_000), Instant::from_nanos(nanos))
}

fn moment_of(nanos: Option<u64>) -> Option<Instant> {
    match nanos {
        Some(nanos) => Some(Instant::from_nanos(nanos)),
        None => None,
    }
}

// The records of such numbers, reported at a moment, and when each came.
fn told(
    alloc: Global,
    reported: u64,
    arrivals: &[(u64, Option<u64>)],
) -> Result<Listed<TwccSendRecord>, AllocError> {
    let mut records = Listed::new(alloc);
    for (number, received) in arrivals {
        records.push(TwccSendRecord {
            id: TwccPacketId::new(SeqNo::from(*number)),
            size: DataSize::bytes(1_000),
            sent: Instant::from_nanos(*number),
            reported: Some(Instant::from_nanos(reported)),
            received: moment_of(*received),
        })?;
    }
    Ok(records)
}

fn tells(
    alloc: Global,
    register: &mut TwccSendRegister,
    report: &Twcc,
    now: u64,
    arrivals: &[(u64, Option<u64>)],
) -> Result<bool, AllocError> {
    let wanted = told(alloc, now, arrivals)?;
    let records = register.apply_report(alloc, Instant::from_nanos(now), report)?;
    Ok(records == wanted)
}

// When three packets came of which the second is missing, and what is told of them where they were
// sent.
static CAME: [Option<u64>; 3] = [Some(64_000_000_000), None, Some(64_000_500_000)];

static TOLD: [(u64, Option<u64>); 3] = [
    (3, Some(64_000_000_000)),
    (4, None),
    (5, Some(64_000_500_000)),
];

fn moments_of(alloc: Global, nanos: &[Option<u64>]) -> Result<Listed<Option<Instant>>, AllocError> {
    let mut moments = Listed::new(alloc);
    for moment in nanos {
        moments.push(moment_of(*moment))?;
    }
    Ok(moments)
}

fn has_arrivals(alloc: Global, report: &Twcc) -> Result<bool, AllocError> {
    let wanted = moments_of(alloc, &CAME)?;
    let found = arrivals(alloc, report)?;
    Ok(found == wanted)
}

fn has_records(alloc: Global, report: &Twcc) -> Result<bool, AllocError> {
    let mut register = TwccSendRegister::new(alloc);
    for number in 3..6 {
        send(&mut register, number, number)?;
    }
    tells(alloc, &mut register, report, 9, &TOLD)
}

// Whether what was read is the report, and tells of its packets.
fn is_same(alloc: Global, read: &Option<Twcc>, report: &Twcc) -> Result<bool, AllocError> {
    match read {
        Some(read) => {
            let arrived = has_arrivals(alloc, read)?;
            let told = has_records(alloc, read)?;
            Ok(*read == *report && arrived && told)
        }
        None => Ok(false),
    }
}

// Whether a report is written and read again.
fn is_exchanged(alloc: Global, report: &Option<Twcc>) -> Result<bool, AllocError> {
    let Some(report) = report else {
        return Ok(false);
    };
    let mut out = [0; 20];
    let len = write(report, &mut out);
    let read = read_twcc(alloc, &out)?;
    Ok(len == Some(20) && is_same(alloc, &read, report)?)
}

fn is_reported(alloc: Global, register: &mut TwccRecvRegister) -> Result<bool, AllocError> {
    register.update_seq(SeqNo::from(3), Instant::from_nanos(64_000_000_100))?;
    register.update_seq(SeqNo::from(5), Instant::from_nanos(64_000_500_000))?;
    let waits = register.has_unreported();
    let report = register.build_report(alloc, Ssrc::from(1), Ssrc::from(42), 1_000)?;
    Ok(waits && !register.has_unreported() && is_exchanged(alloc, &report)?)
}

// Each call that takes memory, once, with ample memory.
#[test]
fn surface_ample(rt: HostRuntime) {
    let mut register = TwccRecvRegister::new(rt.alloc());
    let reported = is_reported(rt.alloc(), &mut register);
    assert!(rt; reported == Ok(true));
}

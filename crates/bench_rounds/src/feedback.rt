//! Rounds on transport-wide feedback.
use media_units::{DataSize, Instant};
use rtp_base::{SeqNo, Ssrc, TwccPacketId};
use std::alloc::{AllocError, Global};
use twcc_core::{Twcc, TwccRecvRegister, TwccSendRegister, read_twcc, write_twcc};

/// What is done with feedback.
#[derive(Clone, Copy)]
pub enum FeedbackWork {
    /// A packet is taken, and after each 32 a report made.
    Take,
    /// A report of ten packets is read.
    Read,
    /// It is written.
    Write,
    /// It is taken into a register of 1,000 packets sent.
    Apply,
}

// The fields of a report of ten packets from 10 on: a run of seven with deltas of 8 bits, and a
// vector of one with a delta of -1 in 16 bits, one that did not come and one with a delta of 255
// (draft-holmer-rmcat-transport-wide-cc-extensions-01 section 3.1).
static REPORT: [u8; 32] = [
    0, 0, 0, 1, 0, 0, 0, 42, 0, 10, 0, 10, 0xff, 0xff, 0xfe, 5, 0x20, 7, 0xe1, 0, 4, 4, 4, 4, 4, 4,
    4, 0xff, 0xff, 0xff, 0, 0,
];

// Makes the report of what came, and tells how many rows it has.
fn report(alloc: Global, register: &mut TwccRecvRegister) -> Result<u64, AllocError> {
    match register.build_report(alloc, Ssrc::from(1), Ssrc::from(42), 1_200)? {
        Some(report) => Ok(report.rows.len() as u64),
        None => Ok(0),
    }
}

// So many packets come, one each 250 us; tells how many rows were reported.
fn take_all(alloc: Global, register: &mut TwccRecvRegister, count: u64) -> Result<u64, AllocError> {
    let mut rows: u64 = 0;
    for i in 0..count {
        register.update_seq(SeqNo::from(i), Instant::from_nanos(i.wrapping_mul(250_000)))?;
        if i % 32 == 31 {
            rows = rows.wrapping_add(report(alloc, register)?);
        }
    }
    Ok(rows)
}

fn take(alloc: Global, count: u64) -> Result<u64, AllocError> {
    let mut register = TwccRecvRegister::new(alloc);
    take_all(alloc, &mut register, count)
}

// Reads a report; tells how many rows that gave.
fn read_one(alloc: Global, bytes: &[u8]) -> Result<u64, AllocError> {
    match read_twcc(alloc, bytes)? {
        Some(report) => Ok(report.rows.len() as u64),
        None => Ok(0),
    }
}

// Reads a report so often; tells how many rows that gave.
fn read(alloc: Global, count: u64) -> Result<u64, AllocError> {
    let mut bytes = REPORT;
    let mut rows: u64 = 0;
    for i in 0..count {
        bytes[15] = (i % 256) as u8;
        rows = rows.wrapping_add(read_one(alloc, &bytes)?);
    }
    Ok(rows)
}

// Writes a report so often; tells how many bytes that gave.
fn write_all(report: &Twcc, count: u64) -> u64 {
    let mut bytes = [0; 64];
    let mut written: u64 = 0;
    for _i in 0..count {
        if report.rows.len() < 65_536 {
            let len = write_twcc(report, &mut bytes).unwrap_or(0);
            written = written.wrapping_add(len as u64);
        }
    }
    written
}

fn write(alloc: Global, count: u64) -> Result<u64, AllocError> {
    match read_twcc(alloc, &REPORT)? {
        Some(report) => Ok(write_all(&report, count)),
        None => Ok(0),
    }
}

// The packets from 0 to 999 are sent, one each 250 us.
fn send_all(register: &mut TwccSendRegister) -> Result<(), AllocError> {
    for i in 0..1_000u64 {
        let id = TwccPacketId::new(SeqNo::from(i));
        register.register_seq(id, DataSize::bytes(1_200), Instant::from_nanos(i * 250_000))?;
    }
    Ok(())
}

// Takes a report in; tells how many records it told.
fn apply_one(
    alloc: Global,
    register: &mut TwccSendRegister,
    report: &Twcc,
    now: Instant,
) -> Result<u64, AllocError> {
    let records = register.apply_report(alloc, now, report)?;
    Ok(records.as_slice().len() as u64)
}

// Takes a report in so often; tells how many records it told.
fn apply_all(
    alloc: Global,
    register: &mut TwccSendRegister,
    report: &Twcc,
    count: u64,
) -> Result<u64, AllocError> {
    let mut told: u64 = 0;
    for i in 0..count {
        let next = apply_one(alloc, register, report, Instant::from_nanos(i))?;
        told = told.wrapping_add(next);
    }
    Ok(told)
}

// Sends, and takes a report in so often.
fn send_and_apply(alloc: Global, report: &Twcc, count: u64) -> Result<u64, AllocError> {
    let mut register = TwccSendRegister::new(alloc);
    send_all(&mut register)?;
    apply_all(alloc, &mut register, report, count)
}

// Takes the report in so often, as one of the packets from 980 on; tells how many records it told.
fn apply(alloc: Global, count: u64) -> Result<u64, AllocError> {
    let mut bytes = REPORT;
    bytes[8] = 3;
    bytes[9] = 0xd4;
    match read_twcc(alloc, &bytes)? {
        Some(report) => send_and_apply(alloc, &report, count),
        None => Ok(0),
    }
}

impl FeedbackWork {
    /// Does it so often.
    pub fn play(self, alloc: Global, count: u64) -> Result<u64, AllocError> {
        match self {
            FeedbackWork::Take => take(alloc, count),
            FeedbackWork::Read => read(alloc, count),
            FeedbackWork::Write => write(alloc, count),
            FeedbackWork::Apply => apply(alloc, count),
        }
    }
}

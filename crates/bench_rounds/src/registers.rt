//! Rounds on the registers of received numbers.
ghost use Rattle.std.specs.Prelude.{◌≡◌, ◌<◌, ◌%◌};

use media_units::Instant;
use repair_core::{GapWindow, ReceiverRegister};
use rtp_base::{NUMBER_LIMIT, NackEntry, ReportList, SeqNo};
use std::alloc::{AllocError, Global};

/// Which numbers come.
#[derive(Clone, Copy)]
pub enum Numbers {
    /// Every number, in order.
    InOrder,
    /// One number in ten is lost.
    Lossy,
    /// One number in ten comes five later.
    Late,
}

/// What is done with a register.
#[derive(Clone, Copy)]
pub enum RegisterWork {
    /// A number is tested and taken.
    Take(Numbers),
    /// 33 numbers are taken, and the missing ones asked for.
    Round(Numbers),
    /// Whether anything is to be asked for, where nothing is missing.
    Pending,
    /// A packet enters the receiver's register.
    Receive,
    /// The receiver's register makes its report.
    Report,
}

/// So many registers are asked in turn, so that no compiler asks one of them once for all.
const REGISTERS: u64 = 16;

// The number of a count, in 48 bits.
fn at(count: u64) -> SeqNo
    ensures number { result ≡ count % NUMBER_LIMIT }
    ensures bound { result < NUMBER_LIMIT }
{
    SeqNo::from(count % NUMBER_LIMIT)
}

// The number that comes next, None where it is lost.
fn arriving(numbers: Numbers, count: u64) -> Option<u64> {
    match (numbers, count % 10) {
        (Numbers::Lossy, 3) => None,
        (Numbers::Late, 3) => Some(count.wrapping_add(5)),
        (Numbers::Late, 8) => Some(count.wrapping_sub(5)),
        _ => Some(count),
    }
}

// Takes the number that comes next, and tells whether it was fresh.
fn take_next<W: GapWindow>(window: &mut W, numbers: Numbers, count: u64) -> bool {
    match arriving(numbers, count) {
        Some(number) => {
            let seq = at(number);
            window.accepts(seq) && window.update(seq)
        }
        None => false,
    }
}

// Takes so many numbers, and tells how many were fresh.
fn take_all<W: GapWindow>(window: &mut W, numbers: Numbers, count: u64) -> u64 {
    let mut fresh: u64 = 0;
    for i in 0..count {
        fresh = fresh.wrapping_add(u64::from(take_next(window, numbers, i)));
    }
    fresh
}

fn take<W: GapWindow>(alloc: Global, numbers: Numbers, count: u64) -> Result<u64, AllocError> {
    let mut window = W::new(alloc, None)?;
    Ok(take_all(&mut window, numbers, count))
}

// Asks for what is missing after 33 numbers, and tells how many entries that takes.
fn round<W: GapWindow>(window: &mut W, numbers: Numbers, round: u64) -> u64 {
    for i in 0..33u64 {
        let _ = take_next(window, numbers, round.wrapping_mul(33).wrapping_add(i));
    }
    let mut reports: ReportList<NackEntry> = ReportList::new();
    if window.has_pending_nacks() {
        let now = Instant::from_nanos(round.wrapping_mul(33_000_000));
        window.nack_reports(now, None, &mut reports);
    }
    reports.len() as u64
}

// Plays so many rounds, and tells how many entries they took.
fn round_all<W: GapWindow>(window: &mut W, numbers: Numbers, count: u64) -> u64 {
    let mut entries: u64 = 0;
    for i in 0..count {
        entries = entries.wrapping_add(round(window, numbers, i));
    }
    entries
}

fn rounds<W: GapWindow>(alloc: Global, numbers: Numbers, count: u64) -> Result<u64, AllocError> {
    let mut window = W::new(alloc, None)?;
    Ok(round_all(&mut window, numbers, count))
}

// A register that took 200 numbers.
fn full<W: GapWindow>(alloc: Global) -> Result<W, AllocError> {
    let mut window = W::new(alloc, None)?;
    take_all(&mut window, Numbers::InOrder, 200);
    Ok(window)
}

fn push_full<W: GapWindow>(alloc: Global, windows: &mut Vec<W>) -> Result<(), AllocError> {
    for _r in 0..REGISTERS {
        windows.push(full(alloc)?)?;
    }
    Ok(())
}

// Asks registers in turn, so often, whether anything is missing; tells how often nothing was.
fn ask_all<W: GapWindow>(windows: &[W], count: u64) -> u64 {
    let mut quiet: u64 = 0;
    for i in 0..count {
        if let Some(window) = windows.get((i % REGISTERS) as usize) {
            if !window.has_pending_nacks() {
                quiet = quiet.wrapping_add(1);
            }
        }
    }
    quiet
}

fn pending<W: GapWindow>(alloc: Global, count: u64) -> Result<u64, AllocError> {
    let mut windows: Vec<W> = Vec::new(alloc);
    push_full(alloc, &mut windows)?;
    Ok(ask_all(&windows, count))
}

// A packet comes every millisecond.
fn receive_next<W: GapWindow>(register: &mut ReceiverRegister<W>, count: u64) -> bool {
    let now = Instant::from_nanos(count.wrapping_mul(1_000_000));
    register.update(at(count), now, (count % 0x1_0000) as u32, 90_000)
}

// So many packets come; tells how many were fresh.
fn receive_all<W: GapWindow>(register: &mut ReceiverRegister<W>, count: u64) -> u64 {
    let mut fresh: u64 = 0;
    for i in 0..count {
        fresh = fresh.wrapping_add(u64::from(receive_next(register, i)));
    }
    fresh
}

fn receive<W: GapWindow>(alloc: Global, count: u64) -> Result<u64, AllocError> {
    let mut register: ReceiverRegister<W> = ReceiverRegister::new(alloc, None)?;
    Ok(receive_all(&mut register, count))
}

// A receiver's register that took 200 packets.
fn receiver<W: GapWindow>(alloc: Global) -> Result<ReceiverRegister<W>, AllocError> {
    let mut register: ReceiverRegister<W> = ReceiverRegister::new(alloc, None)?;
    receive_all(&mut register, 200);
    Ok(register)
}

fn push_receivers<W: GapWindow>(
    alloc: Global,
    registers: &mut Vec<ReceiverRegister<W>>,
) -> Result<(), AllocError> {
    for _r in 0..REGISTERS {
        registers.push(receiver(alloc)?)?;
    }
    Ok(())
}

// The greatest number of a register's report.
fn report_of<W: GapWindow>(register: &mut ReceiverRegister<W>) -> u64 {
    match register.reception_report() {
        Some(report) => u64::from(report.max_seq),
        None => 0,
    }
}

// Has registers make their reports in turn, so often; tells the sum of the greatest numbers.
fn report_all<W: GapWindow>(registers: &mut [ReceiverRegister<W>], count: u64) -> u64 {
    let mut sum: u64 = 0;
    for i in 0..count {
        let place = (i % REGISTERS) as usize;
        if place < registers.len() {
            sum = sum.wrapping_add(report_of(&mut registers[place]));
        }
    }
    sum
}

fn reports<W: GapWindow>(alloc: Global, count: u64) -> Result<u64, AllocError> {
    let mut registers: Vec<ReceiverRegister<W>> = Vec::new(alloc);
    push_receivers(alloc, &mut registers)?;
    Ok(report_all(&mut registers, count))
}

impl RegisterWork {
    /// Does it so often with a register.
    pub fn play<W: GapWindow>(self, alloc: Global, count: u64) -> Result<u64, AllocError> {
        match self {
            RegisterWork::Take(numbers) => take::<W>(alloc, numbers, count),
            RegisterWork::Round(numbers) => rounds::<W>(alloc, numbers, count),
            RegisterWork::Pending => pending::<W>(alloc, count),
            RegisterWork::Receive => receive::<W>(alloc, count),
            RegisterWork::Report => reports::<W>(alloc, count),
        }
    }
}

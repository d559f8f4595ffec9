ghost use Rattle.std.specs.Prelude.{◌≡◌, ℕ, ◌+◌, ◌<◌, ◌≤◌, ◌&&◌, ◌||◌, not, nat_eq, nat_lt, nat_le};
ghost use Rattle.std.specs.List.{list_any};
ghost use Rattle.repair_core.specs.Fresh.{greatest, is_fresh};

use media_units::Instant;
use repair_core::{NackRegister, ReceiverRegister, expected, packets_lost};
use rtp_base::{NUMBER_LIMIT, NackEntry, ReceptionReport, ReportList, SeqNo};
use std::alloc::{AllocError, Global};
use std::test::Fail;

// A number of 48 bits.
fn number_of(number: u64) -> SeqNo
    ensures { result < NUMBER_LIMIT }
{
    SeqNo::from(number % NUMBER_LIMIT)
}

/// What is asked of a register of missing numbers, and what it answers.
#[derive(Clone, Copy)]
enum Step {
    /// The number is taken, or is not.
    Update(u64, bool),
    /// At so many milliseconds it asks for missing numbers by these entries.
    Asks(u64, [Option<NackEntry>; 2]),
    /// Up to this nanosecond the numbers from one up to another are waited for, behind a packet
    /// that came after one nanosecond.
    Deadline(u64, u64, Option<u64>),
}

use Step::{Asks, Deadline, Update};

const NOTHING: [Option<NackEntry>; 2] = [None, None];

const ELEVEN: [Option<NackEntry>; 2] = [Some(NackEntry { pid: 11, blp: 0 }), None];

// Five rounds ask for 11, and later ones for nothing: it is waited for until 300 ms after the last.
const FIVE_ASKS: [Step; 18] = [
    Update(10, true),
    Update(12, true),
    Deadline(10, 12, None),
    Asks(0, ELEVEN),
    Deadline(10, 12, None),
    Asks(105, ELEVEN),
    Deadline(10, 12, None),
    Asks(210, ELEVEN),
    Deadline(10, 12, None),
    Asks(315, ELEVEN),
    Deadline(10, 12, None),
    Asks(420, ELEVEN),
    Deadline(10, 12, Some(720_000_000)),
    Asks(525, NOTHING),
    Deadline(10, 12, Some(720_000_000)),
    Asks(630, NOTHING),
    Deadline(10, 12, Some(720_000_000)),
    Deadline(0, 11, Some(300_000_001)),
];

fn asks(register: &mut NackRegister, time: u64, wanted: [Option<NackEntry>; 2]) -> bool {
    let now = Instant::from_nanos(time.saturating_mul(1_000_000));
    let mut reports = ReportList::new();
    register.nack_reports(now, None, &mut reports);
    let entries = reports.as_slice();
    let two = entries.first().copied() == wanted[0] && entries.get(1).copied() == wanted[1];
    two && entries.get(2).is_none()
}

fn waits(register: &NackRegister, first: u64, behind: u64, until: Option<u64>) -> bool {
    let range = SeqNo::from(first)..SeqNo::from(behind);
    match (
        register.recovery_deadline(range, Instant::from_nanos(1), None),
        until,
    ) {
        (Some(deadline), Some(nanos)) => deadline == Instant::from_nanos(nanos),
        (None, None) => true,
        _ => false,
    }
}

// Takes a step, and tells whether the register answers so.
fn answers(register: &mut NackRegister, step: Step) -> bool {
    match step {
        Update(number, taken) => register.update(number_of(number)) == taken,
        Asks(time, wanted) => asks(register, time, wanted),
        Deadline(first, behind, until) => waits(register, first, behind, until),
    }
}

fn answered(register: &mut NackRegister, steps: &[Step]) -> usize {
    for (at, step) in steps.iter().enumerate() {
        if !answers(register, *step) {
            return at;
        }
    }
    steps.len()
}

// How many steps a fresh register takes and answers, up to the first that it answers otherwise.
fn play(alloc: Global, steps: &[Step]) -> Result<usize, AllocError> {
    let mut register = NackRegister::new(alloc, None)?;
    Ok(answered(&mut register, steps))
}

#[test]
fn registers_answer(rt: HostRuntime) -> Result<(), Fail> {
    let answered = play(rt.alloc(), &FIVE_ASKS)?;
    assert_eq!(rt; answered, 18);
    Ok(())
}

/// What a register of received packets hears, and what it tells.
#[derive(Clone, Copy)]
enum Hears {
    /// A fresh packet: its number, when it came in milliseconds, its RTP time, and its clock rate.
    Packet(u64, u64, u32, u32),
    /// A number that was rebuilt.
    Rebuilt(u64),
    /// The report tells this fraction and count of lost packets, a greatest number, and no jitter.
    Report(u8, i32, u32),
    /// The jitter is this one.
    Jitter(u32),
    /// Of so many expected and so many received packets this fraction was lost.
    Fraction(u64, u64, u8),
    /// It starts again.
    Restart,
}

use Hears::{Fraction, Jitter, Packet, Rebuilt, Report, Restart};

static LOSSES: [Hears; 8] = [
    Packet(10, 7, 0, 90_000),
    Packet(11, 7, 0, 90_000),
    Packet(12, 7, 0, 90_000),
    Packet(13, 7, 0, 90_000),
    Packet(19, 7, 0, 90_000),
    Report(128, 5, 19),
    Rebuilt(14),
    Report(0, 5, 19),
];

static JITTER: [Hears; 4] = [
    Packet(1, 0, 1, 8_000),
    Packet(2, 50, 161, 8_000),
    Packet(3, 100, 321, 8_000),
    Jitter(29),
];

static FRACTIONS: [Hears; 4] = [
    Fraction(120, 118, 4),
    Fraction(240, 240, 0),
    Restart,
    Fraction(100, 0, 255),
];

fn reports(report: Option<ReceptionReport>, fraction: u8, lost: i32, greatest: u32) -> bool {
    match report {
        Some(report) => {
            report.fraction_lost == fraction
                && report.packets_lost == lost
                && report.max_seq == greatest
                && report.jitter == 0
        }
        None => false,
    }
}

fn comes(register: &mut ReceiverRegister, packet: (u64, u64, u32, u32)) -> bool {
    let (number, time, rtp_time, rate) = packet;
    let arrival = Instant::from_nanos(time.saturating_mul(1_000_000));
    register.update(number_of(number), arrival, rtp_time, rate.max(1))
}

// Takes a step, and tells whether the register answers so.
fn tells(register: &mut ReceiverRegister, heard: Hears) -> bool {
    match heard {
        Packet(number, time, rtp_time, rate) => comes(register, (number, time, rtp_time, rate)),
        Rebuilt(number) => {
            register.mark_recovered(number_of(number));
            true
        }
        Report(fraction, lost, greatest) => {
            reports(register.reception_report(), fraction, lost, greatest)
        }
        Jitter(jitter) => register.jitter_in_rtp_ts() == jitter,
        Fraction(expected, received, fraction) => {
            register.fraction_lost(expected, received) == fraction
        }
        Restart => {
            register.clear(None);
            true
        }
    }
}

fn told(register: &mut ReceiverRegister, steps: &[Hears]) -> usize {
    for (at, heard) in steps.iter().enumerate() {
        if !tells(register, *heard) {
            return at;
        }
    }
    steps.len()
}

// How many steps a fresh register hears and tells, up to the first that it answers otherwise.
fn hear(alloc: Global, steps: &[Hears]) -> Result<usize, AllocError> {
    let mut register = ReceiverRegister::new(alloc, None)?;
    Ok(told(&mut register, steps))
}

#[test]
fn receivers_tell(rt: HostRuntime) -> Result<(), Fail> {
    for steps in [LOSSES.as_slice(), JITTER.as_slice(), FRACTIONS.as_slice()] {
        let told = hear(rt.alloc(), steps)?;
        assert_eq!(rt; told, steps.len());
    }
    Ok(())
}

#[test]
fn packets_are_counted(rt: HostRuntime) {
    assert_eq!(rt; expected(SeqNo::from(14), SeqNo::from(17)), 4);
    assert_eq!(rt; packets_lost(4, 3), 1);
}

//! Transport-wide feedback, as its receiver makes it and its sender takes it in.
ghost use Rattle.std.specs.Prelude.{◌≡◌, IfOk, OnOk, OnErr};
ghost use Rattle.twcc_core.specs.Reports.{Receiving, StandsFor};
ghost use Rattle.twcc_core.specs.Reports.{after_report, report_of, with_arrival};
ghost use Rattle.twcc_core.specs.Sending.{after_applied};

use media_units::{Duration, Instant};
use rtp_base::{SeqNo, Ssrc};
use std::alloc::{AllocError, Global};
use twcc_core::{Twcc, TwccRecvRegister, TwccSendRegister};

/// Takes in a packet that came, and reports what was not reported yet, in at most 1,200 bytes.
pub fn report_arrival(
    alloc: Global,
    register: &mut TwccRecvRegister,
    number: SeqNo,
    now: Instant,
) -> Result<Option<Twcc>, AllocError>
    ensures report { IfOk result (λ t. (past : Receiving) → StandsFor register.old past
        → t ≡ report_of (with_arrival past number now) 1 42 1200) }
    ensures after { OnOk result ((past : Receiving) → StandsFor register.old past
        → StandsFor register.new (after_report (with_arrival past number now) 1200)) }
{
    register.update_seq(number, now)?;
    register.build_report(alloc, Ssrc::from(1), Ssrc::from(42), 1_200)
}

/// Takes in a report, and tells how long it took from sending a packet to it.
pub fn round_trip(
    alloc: Global,
    register: &mut TwccSendRegister,
    report: &Twcc,
    now: Instant,
) -> Result<Option<Duration>, AllocError>
    ensures trip { IfOk result (λ trip. trip ≡ (after_applied register.old now report.now).trip) }
    ensures after { OnOk result (register.new ≡ after_applied register.old now report.now) }
    ensures unchanged { OnErr result (register.new ≡ register.old) }
{
    register.apply_report(alloc, now, report)?;
    Ok(register.rtt())
}

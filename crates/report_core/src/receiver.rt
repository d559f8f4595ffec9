//! What a receiver reports: how it receives, and the moment at which it says so.
ghost use Rattle.std.specs.Prelude.{◌≡◌, None, IfOk, IsOk};
ghost use Rattle.report_core.specs.Receiver.{receiver_report_of, moment_report_of};

use media_base::Listed;
use media_units::{Beginning, Instant, InstantExt};
use rtcp_items::{ExtendedReport, ReceiverReport, ReportBlock, Rrtr};
use rtp_base::{ReceptionReport, Ssrc};
use std::alloc::{AllocError, Global};

/// A receiver report (RFC 3550 section 6.4.2) of one source, or of none where nothing came from it.
pub fn receiver_report(
    alloc: Global,
    sender_ssrc: Ssrc,
    block: Option<ReceptionReport>,
) -> Result<ReceiverReport, AllocError>
    ensures report { IfOk result (λ r. r ≡ receiver_report_of sender_ssrc block) }
    ensures none { block ≡ None → IsOk result }
{
    let mut reports = Listed::new(alloc);
    if let Some(block) = block {
        reports.push(block)?;
    }
    Ok(ReceiverReport {
        sender_ssrc,
        reports,
    })
}

/// The extended report that goes with a receiver report: the receiver's moment by the calendar (RFC
/// 3611 section 4.4), to which the peer answers.
pub fn moment_report(
    alloc: Global,
    sender_ssrc: Ssrc,
    now: Instant,
    beginning: &Beginning,
) -> Result<ExtendedReport, AllocError>
    ensures { IfOk result (λ r. r ≡ moment_report_of sender_ssrc now beginning.now) }
{
    let ntp_time = now.to_system_time(beginning);
    let mut blocks = Listed::new(alloc);
    blocks.push(ReportBlock::Rrtr(Rrtr { ntp_time }))?;
    Ok(ExtendedReport {
        ssrc: sender_ssrc,
        blocks,
    })
}

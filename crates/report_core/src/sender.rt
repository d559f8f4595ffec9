//! What a sender report says, and the description that goes with it.
ghost use Rattle.std.specs.Prelude.{◌≡◌, IfOk};
ghost use Rattle.report_core.specs.Sender.{info_of, report_of, name_of};

use crate::{RtpClock, Traffic};
use media_base::{Bytes, Listed};
use media_units::{Beginning, Instant, InstantExt};
use rtcp_items::{Descriptions, Sdes, SdesItem, SdesType, SenderInfo, SenderReport};
use rtp_base::Ssrc;
use std::alloc::{AllocError, Global};

/// What a sender says of itself at a moment (RFC 3550 section 6.4.1): the moment by the calendar,
/// the RTP time then, and the packets and bytes sent so far, modulo 2^32. Takes constant time.
pub fn sender_info(
    ssrc: Ssrc,
    clock: &RtpClock,
    sent: &Traffic,
    now: Instant,
    beginning: &Beginning,
) -> SenderInfo
    ensures { result ≡ info_of ssrc clock.now sent.now now beginning.now }
{
    SenderInfo {
        ssrc,
        ntp_time: now.to_system_time(beginning),
        rtp_time: clock.time_at(now),
        sender_packet_count: (sent.packets % 0x1_0000_0000) as u32,
        sender_octet_count: (sent.bytes % 0x1_0000_0000) as u32,
    }
}

/// A sender report without reception blocks (RFC 3550 section 6.4.1).
pub fn sender_report(alloc: Global, sender_info: SenderInfo) -> SenderReport
    ensures { result ≡ report_of sender_info }
{
    SenderReport {
        sender_info,
        reports: Listed::new(alloc),
    }
}

/// The description of a source by its name, CNAME, of 1 to 255 bytes (RFC 3550 section 6.5.1). The
/// time grows with the name.
pub fn description(alloc: Global, ssrc: Ssrc, cname: &[u8]) -> Result<Descriptions, AllocError>
    ensures { IfOk result (λ d. d ≡ name_of ssrc cname.now) }
{
    let text = Bytes::from_slice(alloc, cname)?;
    let kind = SdesType::CNAME;
    let mut values = Listed::new(alloc);
    values.push(SdesItem { kind, text })?;
    let mut reports = Listed::new(alloc);
    reports.push(Sdes { ssrc, values })?;
    Ok(Descriptions { reports })
}

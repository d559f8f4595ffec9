//! Reports on what was sent and received (RFC 3550 section 6.4).
ghost use Rattle.std.specs.Prelude.{◌≡◌, ◌<◌, ◌≤◌, length, IfOk};
ghost use Rattle.rtp_base.specs.Wire.{Puts};
ghost use Rattle.rtcp_wire.specs.Reports.{receiver_report_of, receiver_report_body, sender_info_at, sender_info_text, sender_report_of, sender_report_body};

use crate::row::{Put, Row, read_many, write_rows};
use media_units::{SystemTime, SystemTimeExt};
use rtcp_items::{ReceiverReport, SenderInfo, SenderReport};
use rtp_base::ReceptionReport;
use rtp_base::wire::{double, put, signed, word};
use std::alloc::{AllocError, Global};

/// The bytes of a reception report block (RFC 3550 section 6.4.1).
pub const RECEPTION_REPORT_LEN: usize = 24;

/// The bytes of what a sender says of itself, from its SSRC on (RFC 3550 section 6.4.1).
pub const SENDER_INFO_LEN: usize = 24;

impl Row for ReceptionReport {
    ghost use Rattle.rtcp_wire.specs.Rows.{report_at, report_text};
    ghost use Rattle.rtcp_wire.specs.declared.report.TheConstants.{RECEPTION_REPORT_LEN};

    ghost size = { RECEPTION_REPORT_LEN };

    ghost row_of = { report_at };

    fn size() -> usize {
        RECEPTION_REPORT_LEN
    }

    #[tactic(auto, unfolding(crate::specs::Rows::report_at))]
    fn read(bytes: &[u8]) -> Self {
        let lost = word(bytes, 4);
        ReceptionReport {
            ssrc: word(bytes, 0).into(),
            fraction_lost: (lost / 0x100_0000) as u8,
            packets_lost: signed(lost % 0x100_0000),
            max_seq: word(bytes, 8),
            jitter: word(bytes, 12),
            last_sr_time: word(bytes, 16),
            last_sr_delay: word(bytes, 20),
        }
    }
}

impl Put for ReceptionReport {
    ghost use Rattle.rtcp_wire.specs.Rows.{report_at, report_text};

    ghost text_of = { report_text };

    #[tactic(auto, unfolding(crate::specs::Rows::report_text))]
    fn len(&self) -> usize {
        RECEPTION_REPORT_LEN
    }

    #[tactic(auto, unfolding(crate::specs::Rows::report_text))]
    fn write(&self, out: &mut [u8], at: usize) -> Option<usize> {
        let lost = u32::from(self.fraction_lost) * 0x100_0000
            + self.packets_lost.cast_unsigned() % 0x100_0000;
        let words = [
            self.ssrc.into(),
            lost,
            self.max_seq,
            self.jitter,
            self.last_sr_time,
            self.last_sr_delay,
        ];
        write_rows(&words, out, at)
    }
}

#[tactic(auto, unfolding(crate::specs::Reports::receiver_report_of))]
pub(crate) fn read_receiver_report(
    alloc: Global,
    count: u8,
    body: &[u8],
) -> Result<Option<ReceiverReport>, AllocError>
    ensures { IfOk result (λ r. r ≡ receiver_report_of count body.now) }
{
    let count = usize::from(count);
    if body.len() < 4 + count * RECEPTION_REPORT_LEN {
        return Ok(None);
    }
    let (_, rows) = body.split_at(4);
    Ok(Some(ReceiverReport {
        sender_ssrc: word(body, 0).into(),
        reports: read_many(alloc, rows, count)?,
    }))
}

#[tactic(auto, unfolding(crate::specs::Reports::receiver_report_body))]
pub(crate) fn write_receiver_report(report: &ReceiverReport, out: &mut [u8]) -> Option<usize>
    ensures { Puts out.old 0 (receiver_report_body report.now) out.new result }
{
    let at = put(out, 0, &u32::from(report.sender_ssrc).to_be_bytes())?;
    write_rows(report.reports.as_slice(), out, at)
}

#[tactic(auto, unfolding(crate::specs::Reports::sender_info_at))]
fn read_sender_info(body: &[u8]) -> SenderInfo
    requires { SENDER_INFO_LEN ≤ length body.now }
    ensures { result ≡ sender_info_at body.now }
{
    SenderInfo {
        ssrc: word(body, 0).into(),
        ntp_time: SystemTime::from_ntp_64(double(body, 4)),
        rtp_time: word(body, 12),
        sender_packet_count: word(body, 16),
        sender_octet_count: word(body, 20),
    }
}

#[tactic(auto, unfolding(crate::specs::Reports::sender_info_text))]
fn write_sender_info(info: &SenderInfo, out: &mut [u8]) -> Option<usize>
    ensures { Puts out.old 0 (sender_info_text info.now) out.new result }
{
    let at = put(out, 0, &u32::from(info.ssrc).to_be_bytes())?;
    let at = put(out, at, &info.ntp_time.as_ntp_64().to_be_bytes())?;
    let words = [
        info.rtp_time,
        info.sender_packet_count,
        info.sender_octet_count,
    ];
    write_rows(&words, out, at)
}

#[tactic(auto, unfolding(crate::specs::Reports::sender_report_of))]
pub(crate) fn read_sender_report(
    alloc: Global,
    count: u8,
    body: &[u8],
) -> Result<Option<SenderReport>, AllocError>
    ensures { IfOk result (λ r. r ≡ sender_report_of count body.now) }
{
    let count = usize::from(count);
    if body.len() < SENDER_INFO_LEN + count * RECEPTION_REPORT_LEN {
        return Ok(None);
    }
    let (_, rows) = body.split_at(SENDER_INFO_LEN);
    Ok(Some(SenderReport {
        sender_info: read_sender_info(body),
        reports: read_many(alloc, rows, count)?,
    }))
}

#[tactic(auto, unfolding(crate::specs::Reports::sender_report_body))]
pub(crate) fn write_sender_report(report: &SenderReport, out: &mut [u8]) -> Option<usize>
    ensures { Puts out.old 0 (sender_report_body report.now) out.new result }
{
    let at = write_sender_info(&report.sender_info, out)?;
    write_rows(report.reports.as_slice(), out, at)
}

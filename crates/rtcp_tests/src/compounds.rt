ghost use Rattle.std.specs.Prelude.{◌<◌, length};
ghost use Rattle.rtcp_wire.specs.Texts.{IsWritable};

use media_base::{Bytes, Listed};
use media_units::{Bitrate, SystemTime};
use rtcp_wire::{
    AppSpecificFeedback, Descriptions, Dlrr, DlrrItem, ExtendedReport, Fir, FirEntry, Goodbye,
    Nack, NackEntry, PacketStatus, Pli, ReceiverReport, ReceptionReport, Remb, ReportBlock,
    ReportList, Rrtr, Rtcp, RtcpFb, Sdes, SdesItem, SdesType, SenderInfo, SenderReport, StatusList,
    Twcc, items_fit_by_lengths,
};
use rtp_base::Ssrc;
use std::alloc::{AllocError, Global};
use std::collections::VecDeque;

// A goodbye of source 42 (RFC 3550 section 6.6).
static GOODBYE: [u8; 8] = [0x81, 0xcb, 0, 1, 0, 0, 0, 42];

// An empty receiver report (RFC 3550 section 6.4.2).
static EMPTY_REPORT: [u8; 8] = [0x80, 0xc9, 0, 1, 0, 0, 0, 1];

// A sender report with one block, whose packets lost are -1 (RFC 3550 section 6.4.1).
static SENDER_REPORT: [u8; 52] = [
    0x81, 0xc8, 0, 12, 0, 0, 0, 7, 0xb4, 0x4d, 0xb7, 0x05, 0x20, 0, 0, 0, 0, 0, 1, 0, 0, 0, 0, 9,
    0, 0, 3, 0, 0, 0, 0, 8, 5, 0xff, 0xff, 0xff, 0, 1, 0, 2, 0, 0, 0, 3, 0, 0, 0, 4, 0, 0, 0, 6,
];

// The CNAME "cam" and an empty TOOL of source 42, and nothing of source 43 (RFC 3550 section 6.5).
static DESCRIPTIONS: [u8; 24] = [
    0x82, 0xca, 0, 5, 0, 0, 0, 42, 1, 3, 99, 97, 109, 6, 0, 0, 0, 0, 0, 43, 0, 0, 0, 0,
];

// A NACK of 2, one of 10, 11 and 13 (RFC 4585 section 6.2.1), a PLI (section 6.3.1) and a FIR (RFC
// 5104 section 4.3.1.1).
static LOST: [u8; 16] = [0x81, 0xcd, 0, 3, 0, 0, 0, 2, 0, 0, 0, 42, 0, 2, 0, 0];

static NACK: [u8; 16] = [0x81, 0xcd, 0, 3, 0, 0, 0, 1, 0, 0, 0, 42, 0, 10, 0, 5];

static PLI: [u8; 12] = [0x81, 0xce, 0, 2, 0, 0, 0, 2, 0, 0, 0, 42];

static FIR: [u8; 20] = [
    0x84, 0xce, 0, 4, 0, 0, 0, 1, 0, 0, 0, 0, 0, 0, 0, 42, 3, 0, 0, 0,
];

// Transport-wide feedback of ten packets from 10 on: a run of seven with deltas of 8 bits, and a
// vector of one with a delta of -1 in 16 bits, one that did not come and one with a delta of 255
// (draft-holmer-rmcat-transport-wide-cc-extensions-01 section 3.1).
static TWCC: [u8; 36] = [
    0x8f, 0xcd, 0, 8, 0, 0, 0, 1, 0, 0, 0, 42, 0, 10, 0, 10, 0xff, 0xff, 0xfe, 5, 0x20, 7, 0xe1, 0,
    4, 4, 4, 4, 4, 4, 4, 0xff, 0xff, 0xff, 0, 0,
];

// Feedback of an application (RFC 4585 section 6.4), and a REMB of 262,144 bits a second for two
// sources: exponent 1, mantissa 131,072 (draft-alvestrand-rmcat-remb section 2.2).
static APPLICATION: [u8; 16] = [0x8f, 0xce, 0, 3, 0, 0, 0, 1, 0, 0, 0, 42, 1, 2, 3, 4];

static REMB: [u8; 28] = [
    0x8f, 0xce, 0, 6, 0, 0, 0, 1, 0, 0, 0, 0, 0x52, 0x45, 0x4d, 0x42, 2, 0x06, 0, 0, 0, 0, 0, 42,
    0, 0, 0, 43,
];

// An RRTR and a DLRR of one item (RFC 3611 sections 4.4 and 4.5).
static EXTENDED: [u8; 36] = [
    0x80, 0xcf, 0, 8, 0, 0, 0, 1, 4, 0, 0, 2, 0xb4, 0x4d, 0xb7, 0x05, 0x20, 0, 0, 0, 5, 0, 0, 3, 0,
    0, 0, 9, 0, 0, 0, 2, 0, 0, 0, 3,
];

// The moment of the sender report and of the RRTR.
const MOMENT: u64 = 816_003_205_125_000_000;

fn read(alloc: Global, bytes: &[u8]) -> Result<VecDeque<Rtcp>, AllocError> {
    let mut items = VecDeque::new(alloc);
    Rtcp::read_packet(alloc, bytes, &mut items)?;
    Ok(items)
}

// Whether the bytes are read to the item alone.
fn is_read(alloc: Global, bytes: &[u8], item: &Rtcp) -> Result<bool, AllocError> {
    let items = read(alloc, bytes)?;
    Ok(items.len() == 1 && items.front() == Some(item))
}

// Whether the item alone is written as the bytes.
fn is_written(alloc: Global, bytes: &[u8], item: Rtcp) -> Result<bool, AllocError>
    requires { IsWritable item }
{
    let mut items = VecDeque::new(alloc);
    items.push_back(item)?;
    let mut out = [0; 64];
    let len = Rtcp::write_packet(&mut items, &mut out);
    Ok(&out[..len] == bytes)
}

// Whether the bytes are read to the item, and the item is written as the bytes.
fn both_ways(alloc: Global, bytes: &[u8], item: Rtcp) -> Result<bool, AllocError>
    requires { IsWritable item }
{
    let read = is_read(alloc, bytes, &item)?;
    let written = is_written(alloc, bytes, item)?;
    Ok(read && written)
}

#[tactic(auto, unfolding(rtcp_wire::specs::Reports::sender_report_body, rtcp_wire::specs::Reports::sender_info_text, rtcp_wire::specs::Rows::report_text))]
fn reads_sender_report(alloc: Global) -> Result<bool, AllocError> {
    let mut reports = Listed::new(alloc);
    reports.push(ReceptionReport {
        ssrc: Ssrc::from(8),
        fraction_lost: 5,
        packets_lost: -1,
        max_seq: 65_538,
        jitter: 3,
        last_sr_time: 4,
        last_sr_delay: 6,
    })?;
    let item = Rtcp::SenderReport(SenderReport {
        sender_info: SenderInfo {
            ssrc: Ssrc::from(7),
            ntp_time: SystemTime::from_unix_nanos(MOMENT),
            rtp_time: 256,
            sender_packet_count: 9,
            sender_octet_count: 768,
        },
        reports,
    });
    both_ways(alloc, &SENDER_REPORT, item)
}

#[tactic(auto, unfolding(rtcp_wire::specs::Reports::receiver_report_body))]
fn reads_receiver_report(alloc: Global) -> Result<bool, AllocError> {
    let item = Rtcp::ReceiverReport(ReceiverReport {
        sender_ssrc: Ssrc::from(1),
        reports: Listed::new(alloc),
    });
    both_ways(alloc, &EMPTY_REPORT, item)
}

#[tactic(auto, unfolding(rtcp_wire::specs::Reports::goodbye_body))]
fn reads_goodbye(alloc: Global) -> Result<bool, AllocError> {
    let mut reports = ReportList::new();
    reports.push(Ssrc::from(42));
    let item = Rtcp::Goodbye(Goodbye { reports });
    both_ways(alloc, &GOODBYE, item)
}

#[tactic(auto, unfolding(rtcp_wire::specs::Descriptions::descriptions_body, rtcp_wire::specs::Descriptions::sdes_text, rtcp_wire::specs::Descriptions::sdes_item_text))]
fn reads_descriptions(alloc: Global) -> Result<bool, AllocError> {
    let mut values = Listed::new(alloc);
    values.push(SdesItem {
        kind: SdesType::CNAME,
        text: Bytes::from_slice(alloc, b"cam")?,
    })?;
    values.push(SdesItem {
        kind: SdesType::TOOL,
        text: Bytes::from_slice(alloc, b"")?,
    })?;
    let mut reports = Listed::new(alloc);
    let ssrc = Ssrc::from(42);
    reports.push(Sdes { ssrc, values })?;
    let ssrc = Ssrc::from(43);
    let values = Listed::new(alloc);
    reports.push(Sdes { ssrc, values })?;
    let item = Rtcp::SourceDescription(Descriptions { reports });
    both_ways(alloc, &DESCRIPTIONS, item)
}

#[tactic(auto, unfolding(rtcp_wire::specs::Feedback::nack_body, rtcp_wire::specs::Rows::nack_entry_text))]
fn reads_nack(
    alloc: Global,
    bytes: &[u8],
    sender: u32,
    entry: NackEntry,
) -> Result<bool, AllocError> {
    let mut reports = ReportList::new();
    reports.push(entry);
    let item = Rtcp::Nack(Nack {
        sender_ssrc: Ssrc::from(sender),
        ssrc: Ssrc::from(42),
        reports,
    });
    both_ways(alloc, bytes, item)
}

#[tactic(auto, unfolding(rtcp_wire::specs::Feedback::pli_body))]
fn reads_pli(alloc: Global) -> Result<bool, AllocError> {
    let item = Rtcp::Pli(Pli {
        sender_ssrc: Ssrc::from(2),
        ssrc: Ssrc::from(42),
    });
    both_ways(alloc, &PLI, item)
}

#[tactic(auto, unfolding(rtcp_wire::specs::Feedback::fir_body, rtcp_wire::specs::Rows::fir_entry_text))]
fn reads_fir(alloc: Global) -> Result<bool, AllocError> {
    let mut reports = ReportList::new();
    reports.push(FirEntry {
        ssrc: Ssrc::from(42),
        seq_no: 3,
    });
    let item = Rtcp::Fir(Fir {
        sender_ssrc: Ssrc::from(1),
        reports,
    });
    both_ways(alloc, &FIR, item)
}

fn transport_feedback(alloc: Global) -> Result<Twcc, AllocError> {
    let mut rows = StatusList::new(alloc);
    for delta in [4, 4, 4, 4, 4, 4, 4, -1] {
        rows.push(PacketStatus::Received(delta))?;
    }
    rows.push(PacketStatus::NotReceived)?;
    rows.push(PacketStatus::Received(255))?;
    Ok(Twcc {
        sender_ssrc: Ssrc::from(1),
        ssrc: Ssrc::from(42),
        base_seq: 10,
        reference_time: -2,
        feedback_count: 5,
        rows,
    })
}

fn writable(twcc: Twcc) -> Rtcp
    requires { length twcc.rows < 65536 }
    ensures { IsWritable result }
{
    items_fit_by_lengths();
    Rtcp::Twcc(twcc)
}

// Whether an item between an empty report and a goodbye is written as the bytes.
#[tactic(auto, unfolding(rtcp_wire::specs::Reports::receiver_report_body, rtcp_wire::specs::Reports::goodbye_body))]
fn is_written_between(alloc: Global, item: Rtcp, bytes: &[u8]) -> Result<bool, AllocError>
    requires { IsWritable item }
{
    let mut items = VecDeque::new(alloc);
    items.push_back(Rtcp::ReceiverReport(ReceiverReport {
        sender_ssrc: Ssrc::from(1),
        reports: Listed::new(alloc),
    }))?;
    items.push_back(item)?;
    let mut reports = ReportList::new();
    reports.push(Ssrc::from(42));
    items.push_back(Rtcp::Goodbye(Goodbye { reports }))?;
    let mut out = [0; 64];
    let len = Rtcp::write_packet(&mut items, &mut out);
    Ok(&out[..len] == bytes)
}

// Whether the bytes are read to three items, of which this is the second.
fn is_read_between(alloc: Global, item: &Rtcp, bytes: &[u8]) -> Result<bool, AllocError> {
    let items = read(alloc, bytes)?;
    Ok(items.len() == 3 && items.get(1) == Some(item))
}

// The transport-wide feedback between an empty report and a goodbye.
fn three_items(alloc: Global) -> Result<Vec<u8>, AllocError> {
    let mut datagram = EMPTY_REPORT.to_vec(alloc)?;
    datagram.extend_from_slice(&TWCC)?;
    datagram.extend_from_slice(&GOODBYE)?;
    Ok(datagram)
}

// Whether feedback is read and written so between an empty report and a goodbye.
fn is_between(alloc: Global, twcc: Twcc, bytes: &[u8]) -> Result<bool, AllocError> {
    if twcc.rows.len() >= 65_536 {
        return Ok(false);
    }
    let item = writable(twcc);
    let read = is_read_between(alloc, &item, bytes)?;
    let written = is_written_between(alloc, item, bytes)?;
    Ok(read && written)
}

fn reads_feedback_between(alloc: Global) -> Result<bool, AllocError> {
    let datagram = three_items(alloc)?;
    let twcc = transport_feedback(alloc)?;
    is_between(alloc, twcc, datagram.as_slice())
}

#[tactic(auto, unfolding(rtcp_wire::specs::Feedback::app_feedback_body))]
fn reads_application(alloc: Global) -> Result<bool, AllocError> {
    let item = Rtcp::AppSpecificFeedback(AppSpecificFeedback {
        sender_ssrc: Ssrc::from(1),
        media_ssrc: Ssrc::from(42),
        payload: Bytes::from_slice(alloc, &[1, 2, 3, 4])?,
    });
    both_ways(alloc, &APPLICATION, item)
}

#[tactic(auto, unfolding(rtcp_wire::specs::Remb::remb_body))]
fn reads_remb(alloc: Global) -> Result<bool, AllocError> {
    let mut ssrcs = Listed::new(alloc);
    ssrcs.push(Ssrc::from(42))?;
    ssrcs.push(Ssrc::from(43))?;
    let item = Rtcp::Remb(Remb {
        sender_ssrc: Ssrc::from(1),
        bitrate: Bitrate::bps(262_144),
        ssrcs,
    });
    both_ways(alloc, &REMB, item)
}

#[tactic(auto, unfolding(rtcp_wire::specs::Extended::extended_report_body, rtcp_wire::specs::Extended::block_text, rtcp_wire::specs::Extended::block_content, rtcp_wire::specs::Extended::dlrr_item_text))]
fn reads_extended_report(alloc: Global) -> Result<bool, AllocError> {
    let mut blocks = Listed::new(alloc);
    let ntp_time = SystemTime::from_unix_nanos(MOMENT);
    blocks.push(ReportBlock::Rrtr(Rrtr { ntp_time }))?;
    let mut items = Listed::new(alloc);
    items.push(DlrrItem {
        ssrc: Ssrc::from(9),
        last_rr_time: 2,
        last_rr_delay: 3,
    })?;
    blocks.push(ReportBlock::Dlrr(Dlrr { items }))?;
    let ssrc = Ssrc::from(1);
    let item = Rtcp::ExtendedReport(ExtendedReport { ssrc, blocks });
    both_ways(alloc, &EXTENDED, item)
}

#[test]
fn packets_of_the_standards(rt: HostRuntime) {
    let lost = NackEntry { pid: 2, blp: 0 };
    let nack = NackEntry { pid: 10, blp: 5 };
    assert!(rt; reads_sender_report(rt.alloc()) == Ok(true));
    assert!(rt; reads_receiver_report(rt.alloc()) == Ok(true));
    assert!(rt; reads_goodbye(rt.alloc()) == Ok(true));
    assert!(rt; reads_descriptions(rt.alloc()) == Ok(true));
    assert!(rt; reads_nack(rt.alloc(), &LOST, 2, lost) == Ok(true));
    assert!(rt; reads_nack(rt.alloc(), &NACK, 1, nack) == Ok(true));
    assert!(rt; reads_pli(rt.alloc()) == Ok(true));
    assert!(rt; reads_fir(rt.alloc()) == Ok(true));
    assert!(rt; reads_feedback_between(rt.alloc()) == Ok(true));
    assert!(rt; reads_application(rt.alloc()) == Ok(true));
    assert!(rt; reads_remb(rt.alloc()) == Ok(true));
    assert!(rt; reads_extended_report(rt.alloc()) == Ok(true));
}

fn feedback_of(alloc: Global, bytes: &[u8]) -> Result<Vec<RtcpFb>, AllocError> {
    let items = read(alloc, bytes)?;
    RtcpFb::from_rtcp(alloc, items)
}

// The feedback of `APPLICATION`.
fn words(alloc: Global) -> Result<AppSpecificFeedback, AllocError> {
    Ok(AppSpecificFeedback {
        sender_ssrc: Ssrc::from(1),
        media_ssrc: Ssrc::from(42),
        payload: Bytes::from_slice(alloc, &[1, 2, 3, 4])?,
    })
}

fn is_copied(alloc: Global) -> Result<bool, AllocError> {
    let feedback = words(alloc)?;
    let copy = feedback.clone(alloc)?;
    Ok(copy == feedback)
}

fn is_said(alloc: Global) -> Result<bool, AllocError> {
    let wanted = RtcpFb::AppSpecificFeedback(words(alloc)?);
    let said = feedback_of(alloc, &APPLICATION)?;
    Ok(said.as_slice() == [wanted].as_slice() && said.iter().all(|it| !it.is_for_rx()))
}

fn are_answered(alloc: Global) -> Result<bool, AllocError> {
    let copied = is_copied(alloc)?;
    let said = is_said(alloc)?;
    Ok(copied && said)
}

#[test]
fn surface_ample(rt: HostRuntime) {
    assert!(rt; are_answered(rt.alloc()) == Ok(true));
}

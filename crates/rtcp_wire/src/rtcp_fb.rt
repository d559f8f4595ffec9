//! What items say of single streams.
ghost use Rattle.std.specs.Prelude.{◌≡◌, ◌++◌, ◌∷◌, [], map, IfOk, OnOk};
ghost use Rattle.std.specs.List.{flat_map};

use crate::feedback::AppSpecificFeedback;
use crate::packet::Rtcp;
use crate::request::{FirEntry, Pli};
use media_units::Bitrate;
use rtcp_items::{Descriptions, DlrrItem, ReportBlock, Rrtr, Sdes, SenderInfo, SenderReport};
use rtp_base::{NackEntry, ReceptionReport, ReportList, Ssrc};
use std::alloc::{AllocError, Global};
use std::collections::VecDeque;
use twcc_core::Twcc;

/// What an item says of one stream.
#[derive(Debug, PartialEq, Eq, Drop)]
pub enum RtcpFb {
    /// What the sender of the stream says of itself.
    SenderInfo(SenderInfo),
    /// How the stream is received.
    ReceptionReport(ReceptionReport),
    /// How the source of the stream describes itself.
    SourceDescription(Sdes),
    /// The source of the stream leaves.
    Goodbye(Ssrc),
    /// When a receiver sent this, and its SSRC.
    Rrtr(Rrtr, Ssrc),
    /// How long ago the moment of a receiver came in.
    DlrrItem(DlrrItem),
    /// Packets of the stream that are missing.
    Nack(Ssrc, ReportList<NackEntry>),
    /// A picture of the stream was lost.
    Pli(Pli),
    /// A picture that stands alone is asked for.
    Fir(FirEntry),
    /// Which packets came and when, whatever their stream.
    Twcc(Twcc),
    /// The greatest rate that the receiver of the stream asks for.
    Remb(Ssrc, Bitrate),
    /// Feedback of an application on the stream.
    AppSpecificFeedback(AppSpecificFeedback),
}

impl RtcpFb {
    ghost use Rattle.rtcp_wire.specs.Streams.{feedback_of, feedback_of_block, stream_of, concerns_received};

    /// What items say of single streams, in order: each report, description, entry and SSRC of a
    /// list by itself. A REMB is feedback for each SSRC that it lists.
    pub fn from_rtcp(alloc: Global, items: VecDeque<Rtcp>) -> Result<Vec<RtcpFb>, AllocError>
        ensures { IfOk result (λ feedback. feedback.items ≡ flat_map feedback_of items.items) }
    {
        let mut feedback = Vec::new(alloc);
        for item in items {
            feedback.append(&mut RtcpFb::from_item(alloc, item)?)?;
        }
        Ok(feedback)
    }

    fn from_item(alloc: Global, item: Rtcp) -> Result<Vec<RtcpFb>, AllocError>
        ensures { IfOk result (λ v. v.items ≡ feedback_of item) }
    {
        match item {
            Rtcp::SenderReport(report) => RtcpFb::from_sender_report(alloc, report),
            Rtcp::ReceiverReport(report) => RtcpFb::from_reports(alloc, report.reports.as_slice()),
            Rtcp::SourceDescription(described) => RtcpFb::from_descriptions(alloc, described),
            Rtcp::Goodbye(goodbye) => {
                let sources = goodbye.reports.as_slice();
                sources.iter().copied().map(RtcpFb::Goodbye).collect(alloc)
            }
            Rtcp::ExtendedReport(report) => RtcpFb::from_blocks(
                alloc,
                report.ssrc,
                report.blocks.as_slice(),
            ),
            Rtcp::Nack(nack) => RtcpFb::alone(alloc, RtcpFb::Nack(nack.ssrc, nack.reports)),
            Rtcp::Pli(pli) => RtcpFb::alone(alloc, RtcpFb::Pli(pli)),
            Rtcp::Fir(fir) => {
                let entries = fir.reports.as_slice();
                entries.iter().copied().map(RtcpFb::Fir).collect(alloc)
            }
            Rtcp::Twcc(twcc) => RtcpFb::alone(alloc, RtcpFb::Twcc(twcc)),
            Rtcp::Remb(remb) => RtcpFb::from_ssrcs(alloc, remb.bitrate, remb.ssrcs.as_slice()),
            Rtcp::AppSpecificFeedback(feedback) => {
                RtcpFb::alone(alloc, RtcpFb::AppSpecificFeedback(feedback))
            }
        }
    }

    // What an item says of one stream, where it says no more.
    fn alone(alloc: Global, feedback: RtcpFb) -> Result<Vec<RtcpFb>, AllocError>
        ensures { IfOk result (λ v. v.items ≡ feedback ∷ []) }
    {
        Ok(vec![in alloc; feedback]?)
    }

    fn from_sender_report(alloc: Global, report: SenderReport) -> Result<Vec<RtcpFb>, AllocError>
        ensures { IfOk result (λ v. v.items ≡ RtcpFb.SenderInfo report.sender_info ∷ map RtcpFb.ReceptionReport report.reports) }
    {
        let mut told = RtcpFb::from_reports(alloc, report.reports.as_slice())?;
        told.insert(0, RtcpFb::SenderInfo(report.sender_info))?;
        Ok(told)
    }

    fn from_descriptions(alloc: Global, described: Descriptions) -> Result<Vec<RtcpFb>, AllocError>
        ensures { IfOk result (λ v. v.items ≡ map RtcpFb.SourceDescription described.reports) }
    {
        let sources = described.reports.into_vec();
        sources
            .into_iter()
            .map(RtcpFb::SourceDescription)
            .collect(alloc)
    }

    fn from_reports(alloc: Global, reports: &[ReceptionReport]) -> Result<Vec<RtcpFb>, AllocError>
        ensures { IfOk result (λ v. v.items ≡ map RtcpFb.ReceptionReport reports.now) }
    {
        reports
            .iter()
            .copied()
            .map(RtcpFb::ReceptionReport)
            .collect(alloc)
    }

    fn from_ssrcs(alloc: Global, rate: Bitrate, ssrcs: &[Ssrc]) -> Result<Vec<RtcpFb>, AllocError>
        ensures { IfOk result (λ v. v.items ≡ map (λ ssrc. RtcpFb.Remb ssrc rate) ssrcs.now) }
    {
        ssrcs
            .iter()
            .copied()
            .map(|ssrc| RtcpFb::Remb(ssrc, rate))
            .collect(alloc)
    }

    fn from_blocks(
        alloc: Global,
        ssrc: Ssrc,
        blocks: &[ReportBlock],
    ) -> Result<Vec<RtcpFb>, AllocError>
        ensures { IfOk result (λ v. v.items ≡ flat_map (feedback_of_block ssrc) blocks.now) }
    {
        let mut feedback = Vec::new(alloc);
        for block in blocks {
            feedback.append(&mut RtcpFb::from_block(alloc, ssrc, block)?)?;
        }
        Ok(feedback)
    }

    fn from_block(alloc: Global, ssrc: Ssrc, block: &ReportBlock) -> Result<Vec<RtcpFb>, AllocError>
        ensures { IfOk result (λ v. v.items ≡ feedback_of_block ssrc block.now) }
    {
        match block {
            ReportBlock::Rrtr(rrtr) => RtcpFb::alone(alloc, RtcpFb::Rrtr(*rrtr, ssrc)),
            ReportBlock::Dlrr(dlrr) => {
                let items = dlrr.items.as_slice();
                items.iter().copied().map(RtcpFb::DlrrItem).collect(alloc)
            }
        }
    }

    /// The SSRC of the stream that it concerns: of a picture or packets that are asked for, of
    /// transport-wide feedback and of what an application says that of the media, of a receiver's
    /// moment that of the receiver.
    pub fn ssrc(&self) -> Ssrc
        ensures { result ≡ stream_of self.now }
    {
        match self {
            RtcpFb::SenderInfo(info) => info.ssrc,
            RtcpFb::ReceptionReport(report) => report.ssrc,
            RtcpFb::SourceDescription(sdes) => sdes.ssrc,
            RtcpFb::Goodbye(ssrc) => *ssrc,
            RtcpFb::Rrtr(_, ssrc) => *ssrc,
            RtcpFb::DlrrItem(item) => item.ssrc,
            RtcpFb::Nack(ssrc, _) => *ssrc,
            RtcpFb::Pli(pli) => pli.ssrc,
            RtcpFb::Fir(entry) => entry.ssrc,
            RtcpFb::Twcc(twcc) => twcc.ssrc,
            RtcpFb::Remb(ssrc, _) => *ssrc,
            RtcpFb::AppSpecificFeedback(feedback) => feedback.media_ssrc,
        }
    }

    /// Whether it concerns a stream that is received: what its sender says of itself, and the
    /// answers to the moments that were sent to it. All else concerns a stream that is sent.
    pub fn is_for_rx(&self) -> bool
        ensures { result ≡ concerns_received self.now }
    {
        match self {
            RtcpFb::SenderInfo(_)
            | RtcpFb::SourceDescription(_)
            | RtcpFb::Goodbye(_)
            | RtcpFb::DlrrItem(_) => true,
            RtcpFb::ReceptionReport(_)
            | RtcpFb::Rrtr(_, _)
            | RtcpFb::Nack(_, _)
            | RtcpFb::Pli(_)
            | RtcpFb::Fir(_)
            | RtcpFb::Twcc(_)
            | RtcpFb::Remb(_, _)
            | RtcpFb::AppSpecificFeedback(_) => false,
        }
    }
}

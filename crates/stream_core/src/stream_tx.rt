ghost use Rattle.std.specs.Prelude.{◌≡◌, ◌↔◌, ◌++◌, ◌≤◌, ◌<◌, true, length, is_some, None, IfOk, IfSome, OnOk, OnErr, IsErrOf};
ghost use Rattle.rtp_wire.specs.Header.{header_bytes};
ghost use Rattle.rtp_wire.specs.HeaderLaws.{IsReadAgain};
ghost use Rattle.std.specs.Option.{option_copied};
ghost use Rattle.stream_core.specs.Queue.{IsSendable, needs_tick, next_of, snapshot_of};
ghost use Rattle.stream_core.specs.Sealing.{sealed_values};

use crate::packet::RtpPacket;
use crate::payload::Payload;
use crate::payload_types::PayloadTypes;
use crate::reports::TxReports;
use crate::send_queue::SendQueue;
use crate::transport::Transport;
use crate::write::{RtpWrite, WriteError};
use media_base::Bytes;
use media_units::{Beginning, Instant};
use pace_units::QueueSnapshot;
use report_core::{LossLog, ReportIntervals, RtpClock, StreamStats, Traffic, sender_info};
use rtcp_wire::{RtcpFb, SenderInfo};
use rtp_base::{Mid, MidRid, NUMBER_LIMIT, ReceptionReport, Rid, SeqNo, Ssrc};
use rtp_wire::{
    ExtensionMap, ExtensionValues, MAX_HEADER_LEN, MAX_SOURCES, ORIGINAL_NUMBER_LEN, RtpHeader,
};
use std::alloc::{AllocError, Global};
use std::marker::Model;
use twcc_core::Share;

/// The most bytes of a payload that is written: a choice.
pub const MAX_PAYLOAD_LEN: usize = 1400;

/// The most bytes of a packet that is to be sealed: a header, the original number in front of the
/// payload of a repair, and a payload.
pub const MAX_PLAIN_LEN: usize = MAX_HEADER_LEN + ORIGINAL_NUMBER_LEN + MAX_PAYLOAD_LEN;

/// A packet that is to be sealed under its number.
#[derive(Debug, Drop)]
pub struct PacketReceipt {
    /// Its header, as it is sealed.
    pub header: RtpHeader,
    /// Its extended sequence number.
    pub seq_no: SeqNo,
    /// The bytes of its header, and its payload behind them.
    pub plain: Bytes,
}

/// A stream that a session sends (RFC 3550 section 3). Contracts see the record of what it says of
/// itself and of the packets that wait.
#[derive(Debug, Drop)]
pub struct StreamTx {
    ssrc: Ssrc,
    rtx: Option<Ssrc>,
    mid: Mid,
    rid: Option<Rid>,
    acknowledged: bool,
    queue: SendQueue,
    reports: TxReports,
    // What its receivers reported as lost, where that is kept.
    losses: Option<LossLog>,
}

impl Model for StreamTx {
    ghost use Rattle.stream_core.specs.TxRecord.{TxRecord};

    ghost Value = { TxRecord };

    ghost view = { λ s. record { ssrc = s.ssrc; rtx = s.rtx; mid = s.mid; rid = s.rid; acknowledged = s.acknowledged; queue = s.queue; reports = s.reports; losses = s.losses } };
}

/// The header and its length, and the header's bytes with bytes behind them, and the payload behind
/// those.
pub(crate) fn receipt(
    alloc: Global,
    header: RtpHeader,
    exts: &ExtensionMap,
    seq_no: SeqNo,
    between: &[u8],
    payload: &Payload,
) -> Result<PacketReceipt, AllocError>
    requires few_sources { header.csrc_count ≤ MAX_SOURCES }
    requires between { length between.now ≤ ORIGINAL_NUMBER_LEN }
    requires payload { length payload.now ≤ MAX_PAYLOAD_LEN }
    ensures header { IfOk result (λ r. r.header ≡ record header { header_len = length (header_bytes exts.now header) }) }
    ensures number { IfOk result (λ r. r.seq_no ≡ seq_no) }
    ensures plain { IfOk result (λ r. r.plain ≡ header_bytes exts.now header ++ (between.now ++ payload.now)) }
    ensures few { IfOk result (λ r. r.header.header_len ≤ MAX_HEADER_LEN) }
    ensures reads { OnOk result (IsReadAgain exts.now header) }
{
    let mut header = header;
    let mut front = [0; MAX_HEADER_LEN];
    header.header_len = header.write_to(&mut front, exts);
    let len = header.header_len + between.len() + payload.len();
    let mut plain = Vec::with_capacity(alloc, len)?;
    plain.extend_from_slice(&front[..header.header_len])?;
    plain.extend_from_slice(between)?;
    plain.extend_from_slice(payload.as_slice())?;
    Ok(PacketReceipt {
        header,
        seq_no,
        plain: Bytes::from_vec(plain),
    })
}

impl StreamTx {
    ghost use Rattle.stream_core.specs.TxRecord.{declared, written, after_timeout, after_reception, anew_under, tx_stats_of, with_stats, lost_by, told_by, after_visit, IsTooBig, IsTooLong, Fits, polled, after_poll, after_resend, transport_after_poll, IsSealable};
    ghost use Rattle.report_core.specs.TxStats.{seen_of};
    ghost use Rattle.stream_core.specs.Arrivals.{with_nack, with_pli, with_fir, stats_of};
    ghost use Rattle.stream_core.specs.Reporting.{rtp_clock_of, sender_info_at, tx_report_at, is_tx_report_due, tx_reported, with_kind};

    /// A stream of an SSRC and of that of its repairs, for a media section or one stream of it, on
    /// which nothing was written.
    pub fn new(alloc: Global, ssrc: Ssrc, rtx: Option<Ssrc>, mid_rid: MidRid) -> Self
        ensures { result ≡ declared ssrc rtx mid_rid.0 mid_rid.1 }
    {
        StreamTx {
            ssrc,
            rtx,
            mid: mid_rid.0,
            rid: mid_rid.1,
            acknowledged: false,
            queue: SendQueue::new(alloc),
            reports: TxReports::new(),
            losses: None,
        }
    }

    /// The SSRC of its packets.
    pub fn ssrc(&self) -> Ssrc
        ensures { result ≡ self.now.ssrc }
    {
        self.ssrc
    }

    /// The SSRC of its repairs (RFC 4588), if it has one.
    pub fn rtx(&self) -> Option<Ssrc>
        ensures { result ≡ self.now.rtx }
    {
        self.rtx
    }

    /// The media section that it belongs to (RFC 9143).
    pub fn mid(&self) -> Mid
        ensures { result ≡ self.now.mid }
    {
        self.mid
    }

    /// Which stream of its media section it is, if that has several (RFC 8852).
    pub fn rid(&self) -> Option<Rid>
        ensures { result ≡ self.now.rid }
    {
        self.rid
    }

    /// Puts a packet behind those that wait. It is sealed after the next tick.
    ///
    /// # Errors
    /// `NumberTooBig` where its number is 2^48 or more; `PayloadTooLong` where its payload has more
    /// than 1,400 bytes; `Memory`. The stream is then as it was.
    pub fn write_rtp(&mut self, write: RtpWrite) -> Result<(), WriteError>
        ensures ok { OnOk result (self.new ≡ written write self.old) }
        ensures fits { OnOk result (Fits write) }
        ensures number { IsErrOf result WriteError.NumberTooBig ↔ IsTooBig write }
        ensures payload { IsErrOf result WriteError.PayloadTooLong ↔ IsTooLong write }
        ensures err { OnErr result (self.new ≡ self.old) }
    {
        if u64::from(write.seq_no()) >= NUMBER_LIMIT {
            return Err(WriteError::NumberTooBig);
        }
        if write.payload_len() > MAX_PAYLOAD_LEN {
            return Err(WriteError::PayloadTooLong);
        }
        let time = write.time();
        let wallclock = write.wallclock();
        self.queue.push(write.into_packet(self.ssrc))?;
        self.reports.wrote(time, wallclock);
        Ok(())
    }

    /// A tick: the packets that were written since the last one may be sealed from then on.
    pub fn handle_timeout(&mut self, now: Instant)
        ensures { self.new ≡ after_timeout now self.old }
    {
        self.queue.handle_timeout(now);
    }

    /// Whether some packet was written since the last tick.
    pub fn need_timeout(&self) -> bool
        ensures { result ≡ needs_tick self.now.queue }
    {
        self.queue.need_timeout()
    }

    /// A reception block (RFC 3550 section 6.4.1): on the stream's SSRC it tells that the peer
    /// knows it, and a stream without repairs then leaves mid and rid out of its headers.
    pub fn handle_reception_report(&mut self, report: &ReceptionReport)
        ensures { self.new ≡ after_reception report.now self.old }
    {
        if self.rtx.is_none() && report.ssrc == self.ssrc {
            self.acknowledged = true;
        }
    }

    /// Keeps what its receivers report as lost from now on, if it did not yet. That grows with each
    /// report until it is looked at.
    pub fn enable_stats(&mut self, alloc: Global)
        ensures { self.new ≡ with_stats self.old }
    {
        if self.losses.is_none() {
            self.losses = Some(LossLog::new(alloc));
        }
    }

    /// Takes in a reception block (RFC 3550 section 6.4.1) on the stream's SSRC, where losses are
    /// kept: its number is widened by that of the packet that was last sealed for the first time.
    /// Without memory nothing changes. The time grows with the blocks since the losses were last
    /// looked at.
    pub fn update_with_rr(&mut self, report: &ReceptionReport) -> Result<(), AllocError>
        ensures ok { OnOk result (self.new ≡ lost_by report.now self.old) }
        ensures err { OnErr result (self.new ≡ self.old) }
        ensures cause { OnErr result (is_some self.old.losses ≡ true) }
    {
        if report.ssrc != self.ssrc {
            return Ok(());
        }
        match &mut self.losses {
            Some(losses) => losses.update_with_rr(self.reports.last_sent, report),
            None => Ok(()),
        }
    }

    /// Takes in an item of feedback that concerns the stream: a reception block (`update_with_rr`,
    /// `handle_reception_report`), or what asks for packets or for a key frame, which counts.
    /// Without memory nothing changes. The time grows with the blocks since the losses were last
    /// looked at.
    pub fn handle_rtcp(&mut self, item: &RtcpFb) -> Result<(), AllocError>
        ensures ok { OnOk result (self.new ≡ told_by item.now self.old) }
        ensures err { OnErr result (self.new ≡ self.old) }
        ensures cause { OnErr result (is_some self.old.losses ≡ true) }
    {
        match item {
            RtcpFb::ReceptionReport(report) => {
                self.update_with_rr(report)?;
                self.handle_reception_report(report);
            }
            RtcpFb::Nack(_, _) => self.increase_nacks(),
            RtcpFb::Pli(_) => self.increase_plis(),
            RtcpFb::Fir(_) => self.increase_firs(),
            _ => {}
        }
        Ok(())
    }

    /// The share that was lost since this was last asked: each report counts by the distance of its
    /// number from that of the report before. None where losses are not kept, no byte was sealed,
    /// or no report came whose number is above another's. The time grows with the reports since
    /// then.
    pub fn visit_loss(&mut self) -> Option<Share>
        ensures share { result ≡ seen_of (tx_stats_of self.old) }
        ensures within { IfSome result (λ s. (s.missing ≤ s.total) × (0 < s.total)) }
        ensures after { self.new ≡ after_visit self.old }
    {
        if self.reports.sent.bytes == 0 {
            return None;
        }
        match &mut self.losses {
            Some(losses) => losses.visit(),
            None => None,
        }
    }

    /// Begins anew under another SSRC, and another one of its repairs, if it has them from then on.
    /// What waits is dropped, its reports begin anew, the peer has not acknowledged the SSRC, and
    /// losses are kept anew, or not any more.
    pub(crate) fn reset_ssrc(
        &mut self,
        alloc: Global,
        ssrc: Ssrc,
        rtx: Option<Ssrc>,
        keeps_losses: bool,
    )
        ensures { self.new ≡ anew_under ssrc rtx keeps_losses self.old }
    {
        self.ssrc = ssrc;
        self.rtx = rtx;
        self.acknowledged = false;
        self.queue.clear();
        self.reports.reset();
        self.losses = if keeps_losses {
            Some(LossLog::new(alloc))
        } else {
            None
        };
    }

    /// Puts what a packet that is sealed at a moment says among its values.
    fn put_sealed_values(&self, values: &mut ExtensionValues, now: Instant, transport: &Transport)
        ensures { values.new ≡ sealed_values transport.now now self.now.acknowledged self.now.mid self.now.rid values.old }
    {
        if !self.acknowledged {
            values.mid = Some(self.mid);
            values.rid = self.rid;
        }
        values.rid_repair = None;
        transport.put_values(values, now);
    }

    /// The packet that is to be sealed next: the one at the front of those that wait, if there was
    /// a tick since it was written.
    pub fn next_packet(&self) -> Option<&RtpPacket>
        ensures next { option_copied result ≡ next_of self.now.queue }
        ensures sendable { IfSome result (λ p. IsSendable p.now) }
    {
        self.queue.peek()
    }

    /// What there is to seal for that packet: its header is made for this moment.
    pub(crate) fn next_receipt(
        &self,
        alloc: Global,
        now: Instant,
        transport: &Transport,
    ) -> Result<Option<PacketReceipt>, AllocError>
        ensures polled { IfOk result (λ receipt. receipt ≡ polled self.now transport.now now) }
        ensures small { IfOk result (λ receipt. IfSome receipt IsSealable) }
        ensures reads { IfOk result (λ receipt. IfSome receipt (λ r. IsReadAgain transport.now.exts r.header)) }
        ensures cause { OnErr result (is_some (next_of self.now.queue) ≡ true) }
    {
        let Some(packet) = self.queue.peek() else {
            return Ok(None);
        };
        let mut header = packet.header;
        self.put_sealed_values(&mut header.ext_vals, now, transport);
        let seq_no = packet.seq_no;
        let receipt = receipt(alloc, header, &transport.exts, seq_no, &[], &packet.payload)?;
        Ok(Some(receipt))
    }

    /// Takes that packet out, if there is one, and counts it as sealed.
    pub(crate) fn pop_packet(&mut self)
        ensures { self.new ≡ after_poll self.old }
    {
        if let Some(packet) = self.queue.peek() {
            self.reports.sealed(packet);
        }
        self.queue.pop();
    }

    /// Counts a packet that is sent again as sealed.
    pub(crate) fn count_resend(&mut self, repair: &PacketReceipt)
        ensures { self.new ≡ after_resend repair.now self.old }
    {
        self.reports.resent(repair);
    }

    /// Counts a NACK item for the stream (RFC 4585 section 6.2.1).
    pub fn increase_nacks(&mut self)
        ensures { self.new ≡ record self.old { reports = with_nack self.old.reports } }
    {
        self.reports.asked_again();
    }

    /// Counts a PLI item for the stream (RFC 4585 section 6.3.1).
    pub fn increase_plis(&mut self)
        ensures { self.new ≡ record self.old { reports = with_pli self.old.reports } }
    {
        self.reports.lost_picture();
    }

    /// Counts a FIR entry for the stream (RFC 5104 section 4.3.1).
    pub fn increase_firs(&mut self)
        ensures { self.new ≡ record self.old { reports = with_fir self.old.reports } }
    {
        self.reports.asked_keyframe();
    }

    /// What was counted since it was declared or began anew: the packets that were sealed, repairs
    /// among them, with the bytes of their payloads, and what its receivers asked for.
    pub fn stats(&self) -> StreamStats
        ensures { result ≡ stats_of self.now.reports }
    {
        self.reports.stats()
    }

    /// The repairs among the packets that were counted.
    pub fn resent(&self) -> Traffic
        ensures { result ≡ self.now.reports.resent }
    {
        self.reports.resent
    }

    /// What tells its RTP time: its last write, and the clock of the type that was last sealed for
    /// the first time. At most one look-up in an array.
    fn rtp_clock(&self, types: &PayloadTypes) -> RtpClock
        ensures { result ≡ rtp_clock_of types.now self.now }
    {
        let clock = match self.reports.sealed_type {
            Some(pt) => types.clock(pt),
            None => None,
        };
        RtpClock {
            written: self.reports.written,
            clock,
        }
    }

    /// What it says of itself at a moment (RFC 3550 section 6.4.1): its packets and bytes are those
    /// that were sealed, repairs among them.
    pub fn sender_info(
        &self,
        types: &PayloadTypes,
        now: Instant,
        beginning: &Beginning,
    ) -> SenderInfo
        ensures { result ≡ sender_info_at types.now now beginning.now self.now }
    {
        let clock = self.rtp_clock(types);
        sender_info(self.ssrc, &clock, &self.reports.sent, now, beginning)
    }

    /// When its next report is due; before its kind was told it is a moment that never comes.
    pub fn sender_report_at(&self, intervals: &ReportIntervals) -> Instant
        ensures { result ≡ tx_report_at intervals.now self.now }
    {
        self.reports.clock.due_at(intervals)
    }

    /// Whether its report is due at a moment: never before its kind was told.
    pub fn needs_report(&self, intervals: &ReportIntervals, now: Instant) -> bool
        ensures { result ≡ is_tx_report_due intervals.now now self.now }
    {
        self.reports.clock.is_due(intervals, now)
    }

    /// It reported at a moment.
    pub fn reported(&mut self, now: Instant)
        ensures { self.new ≡ tx_reported now self.old }
    {
        self.reports.clock.report(now);
    }

    /// Whether it is of sound, None before that was told.
    pub fn is_audio(&self) -> Option<bool>
        ensures { result ≡ self.now.reports.clock.is_audio }
    {
        self.reports.clock.is_audio
    }

    /// Tells whether it is of sound or of pictures.
    pub fn tell_kind(&mut self, is_audio: bool)
        ensures { self.new ≡ with_kind is_audio self.old }
    {
        self.reports.clock.tell(is_audio);
    }

    /// What is to be sealed next of a stream without repairs: the packet at the front of those that
    /// wait, if there was a tick since it was written. Its header is made for this moment. It is
    /// taken out, and the transport counts it. Without memory nothing changes.
    pub fn poll_packet(
        &mut self,
        alloc: Global,
        now: Instant,
        transport: &mut Transport,
    ) -> Result<Option<PacketReceipt>, AllocError>
        ensures polled { IfOk result (λ receipt. receipt ≡ polled self.old transport.old now) }
        ensures after { OnOk result (self.new ≡ after_poll self.old) }
        ensures counted { OnOk result (transport.new ≡ transport_after_poll self.old transport.old) }
        ensures small { IfOk result (λ receipt. IfSome receipt IsSealable) }
        ensures reads { IfOk result (λ receipt. IfSome receipt (λ r. IsReadAgain transport.old.exts r.header)) }
        ensures err { OnErr result ((self.new ≡ self.old) × (transport.new ≡ transport.old)) }
        ensures cause { OnErr result (is_some (next_of self.old.queue) ≡ true) }
    {
        let Some(receipt) = self.next_receipt(alloc, now, transport)? else {
            return Ok(None);
        };
        self.pop_packet();
        transport.count();
        Ok(Some(receipt))
    }

    /// Whether there is a packet to be sealed: there was a tick since the one at the front was
    /// written.
    pub fn is_ready(&self) -> bool
        ensures { result ≡ is_some (next_of self.now.queue) }
    {
        self.queue.peek().is_some()
    }

    /// What a pacer is told at a moment of the packets that waited at the last tick: how many there
    /// are, the bytes of their payloads, how many nanoseconds they waited, all together, and the
    /// earliest of the ticks since which they wait. A number that its type cannot hold is the
    /// type's greatest. When one was sent last is not told yet. The time is the same for any number
    /// of packets, but grows with it where time fell between ticks, or since the last one.
    pub fn queue_snapshot(&self, now: Instant) -> QueueSnapshot
        ensures { result ≡ snapshot_of now None self.now.queue }
    {
        self.queue.snapshot(now, None)
    }
}

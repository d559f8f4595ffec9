//! What streams keep for their reports (RFC 3550 section 6.4): how a packet came, what was counted
//! of packets, and when reports are due. Each call takes constant time.
ghost use Rattle.std.specs.Prelude.{◌≡◌, ◌+◌, ◌<◌, ◌≤◌, length, Some};
ghost use Rattle.stream_core.specs.Arrivals.{
  point_of,
  counted_of,
  asked_of,
  nacked_of,
  no_rx_reports,
  rx_reports_anew,
  with_arrival,
  with_late,
  with_time,
  time_of,
  forgotten,
  no_tx_reports,
  tx_reports_anew,
  with_write,
  with_first_of,
  with_repair,
  with_nack,
  with_pli,
  with_fir,
  stats_of,
};

use crate::packet::RtpPacket;
use crate::stream_tx::PacketReceipt;
use media_units::{Beginning, Instant};
use repair_core::{ReceptionCounts, TimePoint};
use report_core::{
    ReceiverClock, ReportIntervals, SenderClock, SenderNews, StreamStats, TimeLine, Traffic,
    Written,
};
use rtp_base::{Frequency, KeyframeRequestKind, MediaTime, NackEntry, Pt, SeqNo, Ssrc};
use rtp_wire::ORIGINAL_NUMBER_LEN;

/// The most bytes of the name of a source: the length of an item of a description has 8 bits (RFC
/// 3550 section 6.5).
pub const MAX_CNAME_LEN: usize = 255;

/// How a packet came.
#[derive(Clone, Copy, Debug, PartialEq, Eq)]
pub struct Arrival {
    /// When it came.
    pub now: Instant,
    /// Its RTP time.
    pub rtp_time: u32,
    /// The clock of its RTP time.
    pub clock: Frequency,
    /// The bytes of its payload; None of padding alone.
    pub payload_len: Option<usize>,
}

impl Arrival {
    fn point(&self) -> TimePoint
        ensures point { result ≡ point_of self.entry.now }
        ensures rate { 0 < result.clock_rate }
    {
        TimePoint {
            arrival: self.now,
            rtp_time: self.rtp_time,
            clock_rate: self.clock.get(),
        }
    }
}

/// What a tick is for the reports and the asking of streams.
#[derive(Clone, Copy, Debug)]
pub struct Tick {
    /// Its moment.
    pub now: Instant,
    /// The SSRC of the session's feedback.
    pub sender_ssrc: Ssrc,
    /// When moment 0 was.
    pub beginning: Beginning,
    /// How long after a report the next one is due.
    pub intervals: ReportIntervals,
    /// Whether streams ask for what is missing.
    pub is_round: bool,
}

/// What an incoming stream keeps for its reports.
#[derive(Clone, Copy, Debug)]
pub struct RxReports {
    /// What was counted of its packets.
    pub counts: ReceptionCounts,
    /// When its reports are due.
    pub clock: ReceiverClock,
    /// What its sender reported.
    pub news: SenderNews,
    /// The RTP times of its packets.
    pub times: TimeLine,
    /// What opened on it, and what it asked its sender for, since it was made.
    pub stats: StreamStats,
}

impl RxReports {
    /// Nothing came, and nothing was reported.
    pub fn new() -> Self
        ensures { result ≡ no_rx_reports }
    {
        RxReports {
            counts: ReceptionCounts::new(),
            clock: ReceiverClock::new(),
            news: SenderNews::new(),
            times: TimeLine::new(),
            stats: StreamStats::new(),
        }
    }

    /// All begins anew, but the statistics stay.
    pub(crate) fn reset(&mut self)
        ensures { self.new ≡ rx_reports_anew self.old }
    {
        let stats = self.stats;
        *self = RxReports::new();
        self.stats = stats;
    }

    /// What opened counts, but padding alone.
    fn count(&mut self, arrival: &Arrival)
        ensures { self.new ≡ record self.old { stats = counted_of arrival.entry.now.payload_len self.old.stats } }
    {
        if let Some(bytes) = arrival.payload_len {
            self.stats.update_packet_counts(bytes);
        }
    }

    /// A packet came under a fresh number.
    pub(crate) fn arrived(&mut self, number: SeqNo, arrival: &Arrival)
        ensures { self.new ≡ with_arrival arrival.entry.now number self.old }
    {
        self.counts.arrived(number, true, arrival.point());
        self.count(arrival);
    }

    /// Forgets what was counted of packets for reports. The last time stays.
    pub(crate) fn forget(&mut self)
        ensures { self.new ≡ forgotten self.old }
    {
        self.counts = ReceptionCounts::new();
    }

    /// The RTP time of a packet, widened by the last one, where the stream was paused before the
    /// packet or not.
    pub(crate) fn time_of(&self, arrival: &Arrival, was_paused: bool) -> MediaTime
        ensures { result ≡ time_of was_paused arrival.entry.now self.now }
    {
        let numer = self.times.widened(arrival.rtp_time, was_paused);
        MediaTime::new(numer, arrival.clock)
    }

    /// That time, which is the last one from now on.
    pub(crate) fn timed(&mut self, arrival: &Arrival, was_paused: bool) -> MediaTime
        ensures time { result ≡ time_of was_paused arrival.entry.now self.old }
        ensures last { self.new ≡ with_time was_paused arrival.entry.now self.old }
    {
        self.times.take(arrival.rtp_time, was_paused, arrival.clock)
    }

    /// A packet came under a number that is not fresh: of what reports tell it enters the jitter
    /// alone.
    pub(crate) fn came_late(&mut self, arrival: &Arrival)
        ensures { self.new ≡ with_late arrival.entry.now self.old }
    {
        self.counts.entered(arrival.point());
        self.count(arrival);
    }

    /// It asked for a key frame, or for none.
    pub(crate) fn asked_for(&mut self, keyframe: Option<KeyframeRequestKind>)
        ensures { self.new ≡ record self.old { stats = asked_of keyframe self.old.stats } }
    {
        match keyframe {
            Some(KeyframeRequestKind::Pli) => self.stats.increase_plis(),
            Some(KeyframeRequestKind::Fir) => self.stats.increase_firs(),
            None => {}
        }
    }

    /// It asked for the packets that these entries name, if there are some.
    pub(crate) fn asked_again(&mut self, entries: &[NackEntry])
        ensures { self.new ≡ record self.old { stats = nacked_of entries.now self.old.stats } }
    {
        if !entries.is_empty() {
            self.stats.increase_nacks();
        }
    }
}

/// What an outgoing stream keeps for its reports.
#[derive(Clone, Copy, Debug, PartialEq, Eq)]
pub struct TxReports {
    /// When its reports are due, and whether it is of sound.
    pub clock: SenderClock,
    /// What was written last, None before anything was.
    pub written: Option<Written>,
    /// The type of the packet that was last sealed for the first time, None before any was.
    pub sealed_type: Option<Pt>,
    /// The number of that packet, 0 before any was.
    pub last_sent: SeqNo,
    /// The packets that were sealed, repairs among them, and the bytes of their payloads.
    pub sent: Traffic,
    /// The repairs among them.
    pub resent: Traffic,
    /// The NACK items that came (RFC 4585 section 6.2.1), at most 2^64 - 1.
    pub nacks: u64,
    /// The PLI items that came (RFC 4585 section 6.3.1), at most 2^64 - 1.
    pub plis: u64,
    /// The FIR entries that came (RFC 5104 section 4.3.1), at most 2^64 - 1.
    pub firs: u64,
}

impl TxReports {
    /// Nothing was written, and of which kind it is was not told.
    pub fn new() -> Self
        ensures { result ≡ no_tx_reports }
    {
        TxReports {
            clock: SenderClock::new(),
            written: None,
            sealed_type: None,
            last_sent: SeqNo::from(0),
            sent: Traffic::new(),
            resent: Traffic::new(),
            nacks: 0,
            plis: 0,
            firs: 0,
        }
    }

    /// All begins anew, but of which kind it is stays told.
    pub(crate) fn reset(&mut self)
        ensures { self.new ≡ tx_reports_anew self.old }
    {
        let is_audio = self.clock.is_audio;
        *self = TxReports::new();
        self.clock.is_audio = is_audio;
    }

    /// A packet was written with an RTP time, which its media had at a moment.
    pub(crate) fn wrote(&mut self, rtp_time: u32, wallclock: Instant)
        ensures { self.new ≡ with_write rtp_time wallclock self.old }
    {
        self.written = Some(Written {
            rtp_time,
            wallclock,
        });
    }

    /// A packet is sealed for the first time.
    pub(crate) fn sealed(&mut self, packet: &RtpPacket)
        ensures { self.new ≡ with_first_of (Some packet.now) self.old }
    {
        self.sealed_type = Some(packet.header.payload_type);
        self.last_sent = packet.seq_no;
        self.sent.count(packet.payload.len());
    }

    /// A packet is sent again: its payload stands behind the header and the two bytes of the
    /// original number (RFC 4588 section 4).
    pub(crate) fn resent(&mut self, repair: &PacketReceipt)
        ensures { self.new ≡ with_repair repair.now self.old }
    {
        let front = repair.header.header_len.saturating_add(ORIGINAL_NUMBER_LEN);
        let bytes = repair.plain.len().saturating_sub(front);
        self.sent.count(bytes);
        self.resent.count(bytes);
    }

    /// A NACK item came.
    pub(crate) fn asked_again(&mut self)
        ensures { self.new ≡ with_nack self.old }
    {
        self.nacks = self.nacks.saturating_add(1);
    }

    /// A PLI item came.
    pub(crate) fn lost_picture(&mut self)
        ensures { self.new ≡ with_pli self.old }
    {
        self.plis = self.plis.saturating_add(1);
    }

    /// A FIR entry came.
    pub(crate) fn asked_keyframe(&mut self)
        ensures { self.new ≡ with_fir self.old }
    {
        self.firs = self.firs.saturating_add(1);
    }

    /// What was counted.
    pub(crate) fn stats(&self) -> StreamStats
        ensures { result ≡ stats_of self.now }
    {
        StreamStats {
            traffic: self.sent,
            nacks: self.nacks,
            plis: self.plis,
            firs: self.firs,
        }
    }
}

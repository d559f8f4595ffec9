//! What an incoming stream says in a tick, and what it hears of its sender: what it asks for again,
//! its reports and requests, and the reports and the description of its source.
ghost use Rattle.std.specs.Prelude.{◌≡◌, ◌<◌, ◌≤◌, ◌+◌, ◌++◌, None, length, position, IfOk, IfSome, OnOk, OnErr};
ghost use Rattle.std.specs.Option.{option_map};
ghost use Rattle.std.specs.VecDeque.{deque_len};
ghost use Rattle.repair_core.specs.Counts.{counts_report, counts_after};
ghost use Rattle.repair_core.specs.Entries.{packed};
ghost use Rattle.report_core.specs.Receiver.{receiver_report_of};
ghost use Rattle.stream_core.specs.Missing.{is_enabled, due_of, after_round};
ghost use Rattle.stream_core.specs.Names.{is_name, name_in, described_by};
ghost use Rattle.stream_core.specs.Reporting.{report_at, is_report_due, block_at, greatest_in, reported, with_told, front_count, with_news};
ghost use Rattle.stream_core.specs.Requests.{is_request, request_count, request_items, with_keyframe, with_bitrate};
ghost use Rattle.stream_core.specs.RxRecord.{RxRecord, StandsFor};

use super::StreamRx;
use media_base::{Bytes, Listed};
use media_units::{Bitrate, Instant};
use repair_core::{GapWindow, MAX_ROUND_ENTRIES, ReceptionCounts};
use report_core::{LastSenderReport, ReportIntervals, StreamStats, receiver_report};
use rtcp_wire::{ReceiverReport, Rtcp, Sdes, SdesItem, SdesType, SenderInfo};
use rtp_base::{KeyframeRequestKind, NackEntry, ReceptionReport, ReportList, Ssrc};
use std::alloc::{AllocError, Global};
use std::collections::VecDeque;

/// Whether an item of a description is the name of the source.
fn is_name(item: &SdesItem) -> bool
    ensures { result ≡ is_name item.now }
{
    matches!(item.kind, SdesType::CNAME)
}

/// The place of the first name among the items of a description.
fn name_place(items: &[SdesItem]) -> Option<usize>
    ensures place { result ≡ position is_name items.now }
    ensures within { IfSome result (λ i. i < length items.now) }
{
    items.iter().position(|item| is_name(item))
}

/// The first name that a description tells. The time grows with its items.
fn name_in(items: Listed<SdesItem>) -> Option<Bytes>
    ensures { result ≡ name_in items }
{
    let mut items = items.into_vec();
    match name_place(items.as_slice()) {
        Some(place) => Some(items.swap_remove(place).text),
        None => None,
    }
}

impl<W: GapWindow> StreamRx<W> {
    /// Whether it asks for what is missing: it was not told to suppress that, and it is not paused,
    /// or some missing number was asked for fewer than five times.
    pub fn nack_enabled(&self) -> bool
        ensures { (r : RxRecord) → StandsFor W.remembers self.now r → result ≡ is_enabled r }
    {
        if self.suppress_nack {
            return false;
        }
        if self.pause_at.is_some() {
            return true;
        }
        match &self.window {
            Some(window) => window.has_pending_nacks(),
            None => false,
        }
    }

    /// Asks for the missing numbers that are due, rising, in at most six entries (RFC 4585 section
    /// 6.2.1): none where it asks for nothing. A number is asked for at most five times, and again
    /// 5 ms after the round trip; 100 ms stand for one that is not known. Where it asks, that
    /// counts as one item.
    pub fn nack_report(&mut self, now: Instant) -> ReportList<NackEntry>
        ensures entries { (r : RxRecord) → StandsFor W.remembers self.old r → result ≡ packed None (due_of now r) }
        ensures asked { (r : RxRecord) → StandsFor W.remembers self.old r → StandsFor W.remembers self.new (after_round now r) }
        ensures state { self.new.state ≡ record self.old.state { reports = self.new.state.reports } }
        ensures few { length result ≤ MAX_ROUND_ENTRIES }
    {
        let mut reports = ReportList::new();
        if self.nack_enabled() {
            if let Some(window) = &mut self.window {
                window.nack_reports(now, self.trip, &mut reports);
            }
            self.reports.asked_again(reports.as_slice());
        }
        reports
    }

    /// When its next report is due, at the latest at the last moment, 2^64 - 1 ns. Without an SSRC
    /// of repairs it counts as sound.
    pub fn receiver_report_at(&self, intervals: &ReportIntervals) -> Instant
        ensures { result ≡ report_at intervals.now self.now.state }
    {
        self.reports.clock.due_at(intervals, self.rtx.is_some())
    }

    /// Whether its report is due at a moment.
    pub fn needs_report(&self, intervals: &ReportIntervals, now: Instant) -> bool
        ensures { result ≡ is_report_due intervals.now now self.now.state }
    {
        self.reports
            .clock
            .is_due(intervals, self.rtx.is_some(), now)
    }

    /// What is counted of its packets, with the greatest number that was taken.
    fn counted(&self) -> (ReceptionCounts, Option<ReceptionReport>)
        ensures counts { (r : RxRecord) → StandsFor W.remembers self.now r → result.0 ≡ counts_after (greatest_in r.numbers) r.state.reports.counts }
        ensures report { (r : RxRecord) → StandsFor W.remembers self.now r → result.1 ≡ counts_report (greatest_in r.numbers) r.state.reports.counts }
    {
        let greatest = match &self.window {
            Some(window) => window.max_seq(),
            None => None,
        };
        let mut counts = self.reports.counts;
        let report = counts.report(greatest);
        (counts, report)
    }

    /// Its report at a moment (RFC 3550 section 6.4.2): how it is received, or nothing of it where
    /// no packet came on it. The fraction lost is that since the report before.
    pub fn create_report(
        &self,
        alloc: Global,
        sender_ssrc: Ssrc,
        now: Instant,
    ) -> Result<ReceiverReport, AllocError>
        ensures report { IfOk result (λ x. (r : RxRecord) → StandsFor W.remembers self.now r → x ≡ receiver_report_of sender_ssrc (block_at now r)) }
        ensures short { IfOk result (λ x. length x.reports ≤ 1) }
    {
        let block = match self.counted().1 {
            Some(counted) => Some(self.reports.news.block(self.ssrc, &counted, now)),
            None => None,
        };
        receiver_report(alloc, sender_ssrc, block)
    }

    /// It reported at a moment: the next fraction lost is that from now on, and the next report is
    /// due an interval later.
    pub fn reported(&mut self, now: Instant)
        ensures after { (r : RxRecord) → StandsFor W.remembers self.old r → StandsFor W.remembers self.new (reported now r) }
        ensures state { self.new.state ≡ record self.old.state { reports = self.new.state.reports } }
    {
        self.reports.counts = self.counted().0;
        self.reports.clock.report(now);
    }

    /// Asks the sender for a key frame at the next tick. A request that waits is replaced.
    pub fn request_keyframe(&mut self, kind: KeyframeRequestKind)
        ensures { self.new ≡ record self.old { state = record self.old.state { requests = with_keyframe kind self.old.state.requests } } }
    {
        self.requests.keyframe = Some(kind);
    }

    /// Tells the sender at the next tick the greatest rate at which it is to send (REMB). A rate
    /// that waits is replaced.
    pub fn request_remb(&mut self, bitrate: Bitrate)
        ensures { self.new ≡ record self.old { state = record self.old.state { requests = with_bitrate bitrate self.old.state.requests } } }
    {
        self.requests.bitrate = Some(bitrate);
    }

    /// Whether it asks its sender for something at the next tick.
    pub fn has_pending_request(&self) -> bool
        ensures { result ≡ is_request self.now.state.requests }
    {
        self.requests.is_some()
    }

    /// Puts the items that ask its sender behind the others.
    pub(crate) fn push_requests(
        &self,
        alloc: Global,
        sender_ssrc: Ssrc,
        items: &mut VecDeque<Rtcp>,
    ) -> Result<(), AllocError>
        ensures items { OnOk result (items.new.items ≡ items.old.items ++ request_items sender_ssrc self.now.state.ssrc self.now.state.requests) }
        ensures len { OnOk result (deque_len items.new ≡ deque_len items.old + request_count self.now.state.requests) }
        ensures cause { OnErr result (0 < request_count self.now.state.requests) }
    {
        self.requests
            .push_items(alloc, sender_ssrc, self.ssrc, items)
    }

    /// What it asked its sender was told: a request for a key frame counts.
    pub(crate) fn told_requests(&mut self)
        ensures { self.new ≡ record self.old { state = with_told self.old.state } }
    {
        self.reports.asked_for(self.requests.keyframe);
        self.requests.told();
    }

    /// How many items it says in a tick before it asks for packets.
    pub(crate) fn front_len(&self, reports: bool) -> usize
        ensures { result ≡ front_count reports self.now.state }
    {
        self.requests.len() + if reports { 2 } else { 0 }
    }

    /// Its sender reported, and that came at a moment (RFC 3550 section 6.4.1).
    pub fn handle_sender_info(&mut self, info: &SenderInfo, now: Instant)
        ensures { self.new ≡ record self.old { state = with_news info.now now self.old.state } }
    {
        self.reports.news.take(*info, now);
    }

    /// Its source described itself (RFC 3550 section 6.5): the first name that it tells is known
    /// from then on, unless it is empty. The time grows with the items of the description.
    pub fn handle_description(&mut self, description: Sdes)
        ensures { self.new ≡ record self.old { state = described_by description self.old.state } }
    {
        let Some(name) = name_in(description.values) else {
            return;
        };
        if !name.is_empty() {
            self.cname = Some(name);
        }
    }

    /// The name of its source (RFC 3550 section 6.5.1), None before that was told. A change of the
    /// SSRC leaves it.
    pub fn cname(&self) -> Option<&[u8]>
        ensures { option_map (λ name. name.now) result ≡ self.now.state.cname }
    {
        match &self.cname {
            Some(name) => Some(name.as_slice()),
            None => None,
        }
    }

    /// What was counted since it was made: the packets that opened, repairs among them, with the
    /// bytes of their payloads, and what it asked its sender for. Padding alone does not count.
    pub fn stats(&self) -> StreamStats
        ensures { result ≡ self.now.state.reports.stats }
    {
        self.reports.stats
    }

    /// What its sender reported last, None before it did.
    pub fn last_sender_report(&self) -> Option<LastSenderReport>
        ensures { result ≡ self.now.state.reports.news.last }
    {
        self.reports.news.last
    }
}

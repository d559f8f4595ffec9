//! What the streams of a session say in a tick: requests, reports, and what is asked for again.
ghost use Rattle.std.specs.Prelude.{◌≡◌, ◌+◌, ◌<◌, ◌≤◌, ◌++◌, ◌⊎◌, ℕ, List, [], true, if◌then◌else◌, length, take, drop, IfOk, OnOk, OnErr};
ghost use Rattle.std.specs.List.{AllByRecursion};
ghost use Rattle.std.specs.VecDeque.{deque_len, deque_capacity};
ghost use Rattle.rtcp_wire.specs.declared.packet.Rtcp.{Rtcp as Item};
ghost use Rattle.stream_core.specs.Missing.{nack_of, nack_with};
ghost use Rattle.stream_core.specs.Names.{described_by};
ghost use Rattle.stream_core.specs.Pauses.{on_record};
ghost use Rattle.stream_core.specs.Reporting.{
  due_mids,
  due_tx_mids,
  is_among,
  report_before,
  tx_report_before,
  front_items,
  front_count,
  fronts_count,
  fronts_with,
  after_front,
  rx_after,
  items_with,
  after_with,
  incoming_items,
  incoming_after,
  any_request,
  with_news,
  IsBrief,
};
ghost use Rattle.stream_core.specs.RxRecord.{RxRecord, StandsFor as RxStandsFor};
ghost use Rattle.stream_core.specs.StreamsRecord.{StreamsRecord, StandsFor};
ghost use Rattle.stream_core.specs.Tables.{Along, change_at};

use super::Streams;
use crate::repairing::Sent;
use crate::reports::Tick;
use crate::ssrc_table::SsrcTable;
use crate::stream_rx::StreamRx;
use media_units::{Instant, earlier};
use repair_core::{GapWindow, MAX_ROUND_ENTRIES};
use report_core::{ReportIntervals, moment_report};
use resend_core::ResendStore;
use rtcp_wire::{Nack, Rtcp, Sdes, SenderInfo};
use rtp_base::{Mid, NackEntry, ReportList, Ssrc};
use std::alloc::{AllocError, Global};
use std::collections::VecDeque;

/// Puts the item that asks for what these entries name, if there are some, behind the others, which
/// have room for it.
fn push_nack(
    sender_ssrc: Ssrc,
    ssrc: Ssrc,
    reports: ReportList<NackEntry>,
    feedback: &mut VecDeque<Rtcp>,
)
    requires few { length reports ≤ MAX_ROUND_ENTRIES }
    requires room { deque_len feedback.old < deque_capacity feedback.old }
    ensures items { feedback.new.items ≡ feedback.old.items ++ nack_with sender_ssrc ssrc reports }
    ensures brief { AllByRecursion IsBrief (nack_with sender_ssrc ssrc reports) }
    ensures len { deque_len feedback.new ≤ deque_len feedback.old + 1 }
    ensures capacity { deque_capacity feedback.new ≡ deque_capacity feedback.old }
{
    if reports.is_empty() {
        return;
    }
    feedback.push_back_reserved(Rtcp::Nack(Nack {
        sender_ssrc,
        ssrc,
        reports,
    }));
}

/// Puts what an incoming stream says in a tick before it asks for packets behind the other items:
/// what it asks its sender for, then its report, where it makes one, and the moment of the
/// receiver.
fn push_front<W: GapWindow>(
    alloc: Global,
    stream: &StreamRx<W>,
    tick: &Tick,
    reports: bool,
    items: &mut VecDeque<Rtcp>,
) -> Result<(), AllocError>
    ensures items { OnOk result ((r : RxRecord) → RxStandsFor W.remembers stream.now r → items.new.items ≡ items.old.items ++ front_items tick.entry.now reports r) }
    ensures count { OnOk result (length items.new.items ≡ length items.old.items + front_count reports stream.now.state) }
    ensures len { OnOk result (deque_len items.new ≡ deque_len items.old + front_count reports stream.now.state) }
    ensures brief { OnOk result ((more : List Item) × (items.new.items ≡ items.old.items ++ more) × AllByRecursion IsBrief more) }
    ensures cause { OnErr result (0 < front_count reports stream.now.state) }
{
    stream.push_requests(alloc, tick.sender_ssrc, items)?;
    if reports {
        let report = stream.create_report(alloc, tick.sender_ssrc, tick.now)?;
        let moment = moment_report(alloc, tick.sender_ssrc, tick.now, &tick.beginning)?;
        items.push_back(Rtcp::ReceiverReport(report))?;
        items.push_back(Rtcp::ExtendedReport(moment))?;
    }
    Ok(())
}

/// What all incoming streams say so in a tick, in order: of these media sections the report of some
/// stream is due.
fn fronts<W: GapWindow>(
    alloc: Global,
    streams: &SsrcTable<StreamRx<W>>,
    tick: &Tick,
    mids: &[Mid],
) -> Result<VecDeque<Rtcp>, AllocError>
    ensures items { IfOk result (λ made. (rs : List (ℕ × RxRecord)) → Along (RxStandsFor W.remembers) streams.now rs → made.items ≡ fronts_with tick.entry.now mids.now rs) }
    ensures count { IfOk result (λ made. length made.items ≡ fronts_count mids.now streams.now) }
    ensures len { IfOk result (λ made. deque_len made ≡ fronts_count mids.now streams.now) }
    ensures brief { IfOk result (λ made. AllByRecursion IsBrief made.items) }
    ensures cause { OnErr result (0 < fronts_count mids.now streams.now) }
{
    let mut made = VecDeque::new(alloc);
    for place in 0..streams.len() {
        let stream = streams.at(place);
        let reports = is_among(stream.mid(), mids);
        push_front(alloc, stream, tick, reports, &mut made)?;
    }
    Ok(made)
}

/// Moves so many items from the front of one queue behind those of another, which has room for
/// them.
fn move_front(count: usize, from: &mut VecDeque<Rtcp>, to: &mut VecDeque<Rtcp>)
    requires some { count ≤ length from.old.items }
    requires room { deque_len to.old + count ≤ deque_capacity to.old }
    ensures to { to.new.items ≡ to.old.items ++ take count from.old.items }
    ensures from { from.new.items ≡ drop count from.old.items }
    ensures len { deque_len to.new ≡ deque_len to.old + count }
    ensures capacity { deque_capacity to.new ≡ deque_capacity to.old }
{
    for _moved in 0..count {
        if let Some(item) = from.pop_front() {
            to.push_back_reserved(item);
        }
    }
}

/// What an incoming stream says in a tick before it asks for packets was said.
fn front_said<W: GapWindow>(stream: &mut StreamRx<W>, tick: &Tick, reports: bool)
    ensures { (r : RxRecord) → RxStandsFor W.remembers stream.old r → RxStandsFor W.remembers stream.new (after_front tick.entry.now reports r) }
{
    stream.told_requests();
    if reports {
        stream.reported(tick.now);
    }
}

/// An incoming stream says what it says in a tick, behind the other items: what was made for it,
/// which stands in front, and what it asks for again, where the tick is a round.
fn say<W: GapWindow>(
    stream: &mut StreamRx<W>,
    tick: &Tick,
    reports: bool,
    made: &mut VecDeque<Rtcp>,
    feedback: &mut VecDeque<Rtcp>,
)
    requires made { front_count reports stream.old.state ≤ length made.old.items }
    requires room { deque_len feedback.old + front_count reports stream.old.state + (if tick.now.is_round then 1 else 0) ≤ deque_capacity feedback.old }
    requires brief { AllByRecursion IsBrief made.old.items }
    ensures after { (r : RxRecord) → RxStandsFor W.remembers stream.old r → RxStandsFor W.remembers stream.new (rx_after tick.entry.now reports r) }
    ensures said { (key : ℕ) (r : RxRecord) → RxStandsFor W.remembers stream.old r → feedback.new.items ≡ feedback.old.items
        ++ (take (front_count reports stream.old.state) made.old.items
        ++ (if tick.entry.now.is_round then nack_of tick.entry.now.sender_ssrc tick.entry.now.now (key, after_front tick.entry.now reports r) else [])) }
    ensures made { made.new.items ≡ drop (front_count reports stream.old.state) made.old.items }
    ensures brief { (more : List Item) × (feedback.new.items ≡ feedback.old.items ++ more) × AllByRecursion IsBrief more }
    ensures len { deque_len feedback.new ≤ deque_len feedback.old + front_count reports stream.old.state + (if tick.entry.now.is_round then 1 else 0) }
    ensures capacity { deque_capacity feedback.new ≡ deque_capacity feedback.old }
{
    move_front(stream.front_len(reports), made, feedback);
    front_said(stream, tick, reports);
    if tick.is_round {
        let entries = stream.nack_report(tick.now);
        push_nack(tick.sender_ssrc, stream.ssrc(), entries, feedback);
    }
}

/// Each incoming stream says what it says in a tick, in order, behind the other items, which have
/// room for it: of these media sections the report of some stream is due, and what was made for the
/// streams is what they say before they ask for packets.
fn say_all<W: GapWindow>(
    streams: &mut SsrcTable<StreamRx<W>>,
    tick: &Tick,
    mids: &[Mid],
    made: VecDeque<Rtcp>,
    feedback: &mut VecDeque<Rtcp>,
)
    requires count { length made.items ≡ fronts_count mids.now streams.old }
    requires brief { AllByRecursion IsBrief made.items }
    requires room { deque_len feedback.old + (length made.items + (if tick.now.is_round then length streams.old else 0)) ≤ deque_capacity feedback.old }
    ensures said { (rs : List (ℕ × RxRecord)) → Along (RxStandsFor W.remembers) streams.old rs → made.items ≡ fronts_with tick.entry.now mids.now rs
        → Along (RxStandsFor W.remembers) streams.new (after_with tick.entry.now mids.now rs)
        × (feedback.new.items ≡ feedback.old.items ++ items_with tick.entry.now mids.now rs) }
    ensures brief { (more : List Item) × (feedback.new.items ≡ feedback.old.items ++ more) × AllByRecursion IsBrief more }
    ensures len { deque_len feedback.new ≤ deque_len feedback.old + (length made.items + (if tick.entry.now.is_round then length streams.old else 0)) }
    ensures capacity { deque_capacity feedback.new ≡ deque_capacity feedback.old }
{
    let mut rest = made;
    for place in 0..streams.len() {
        let stream = streams.at_mut(place);
        let reports = is_among(stream.mid(), mids);
        say(stream, tick, reports, &mut rest, feedback);
    }
}

/// Makes room for so many more items, in three parts.
fn make_room(
    made: usize,
    streams: usize,
    behind: usize,
    feedback: &mut VecDeque<Rtcp>,
) -> Result<(), AllocError>
    ensures items { feedback.new.items ≡ feedback.old.items }
    ensures len { deque_len feedback.new ≡ deque_len feedback.old }
    ensures room { OnOk result (deque_len feedback.old + (made + streams + behind) ≤ deque_capacity feedback.new) }
    ensures cause { OnErr result (0 < made + streams + behind) }
{
    let Some(both) = made.checked_add(streams) else {
        return Err(AllocError);
    };
    let Some(all) = both.checked_add(behind) else {
        return Err(AllocError);
    };
    feedback.reserve(all)
}

/// Whether a media section is among these.
pub fn is_among(mid: Mid, mids: &[Mid]) -> bool
    ensures { result ≡ is_among mid mids.now }
{
    mids.iter().any(|other| *other == mid)
}

/// The media sections of the incoming streams whose reports are due at a moment, in order.
fn due_mids<W: GapWindow>(
    alloc: Global,
    streams: &SsrcTable<StreamRx<W>>,
    intervals: &ReportIntervals,
    now: Instant,
) -> Result<Vec<Mid>, AllocError>
    ensures mids { IfOk result (λ v. (rs : List (ℕ × RxRecord)) → Along (RxStandsFor W.remembers) streams.now rs → v.items ≡ due_mids intervals.now now rs) }
    ensures cause { OnErr result ((rs : List (ℕ × RxRecord)) → Along (RxStandsFor W.remembers) streams.now rs → due_mids intervals.now now rs ≡ [] → ⊥) }
{
    let mut mids = Vec::new(alloc);
    for place in 0..streams.len() {
        let stream = streams.at(place);
        if stream.needs_report(intervals, now) {
            mids.push(stream.mid())?;
        }
    }
    Ok(mids)
}

impl<W: GapWindow, S: ResendStore<Sent>> Streams<W, S> {
    /// What each incoming stream says in a tick, in order, behind the items that wait: a request
    /// for a key frame (RFC 4585 section 6.3.1, RFC 5104 section 4.3.1) and the greatest rate that
    /// it is to be sent at (draft-alvestrand-rmcat-remb), where these wait; where the report of
    /// some stream of its media section is due, its own (RFC 3550 section 6.4.2) and the moment of
    /// the receiver (RFC 3611 section 4.4); where the tick is a round and it asks for what is
    /// missing, an item that asks for what is due (RFC 4585 section 6.2.1). There is room for so
    /// many items `behind` them then. Without memory nothing changes. The time grows with the
    /// number of streams, and with its square where reports are due.
    pub fn create_feedback(
        &mut self,
        tick: &Tick,
        behind: usize,
        feedback: &mut VecDeque<Rtcp>,
    ) -> Result<(), AllocError>
        ensures said { OnOk result ((r : StreamsRecord) → StandsFor W.remembers S.stands_for self.old r
            → StandsFor W.remembers S.stands_for self.new (record r { rx = incoming_after tick.entry.now r.rx })
            × (feedback.new.items ≡ feedback.old.items ++ incoming_items tick.entry.now r.rx)) }
        ensures brief { (more : List Item) × (feedback.new.items ≡ feedback.old.items ++ more) × AllByRecursion IsBrief more }
        ensures room { OnOk result (deque_len feedback.new + behind ≤ deque_capacity feedback.new) }
        ensures err { OnErr result ((self.new ≡ self.old) × (feedback.new.items ≡ feedback.old.items)) }
        ensures cause { OnErr result ((r : StreamsRecord) → StandsFor W.remembers S.stands_for self.old r
            → (0 < behind) ⊎ ((tick.entry.now.is_round ≡ true) ⊎ ((due_mids tick.entry.now.intervals tick.entry.now.now r.rx ≡ [] → ⊥) ⊎ (any_request r.rx ≡ true)))) }
        ensures tx { self.new.tx ≡ self.old.tx }
        ensures repairs { self.new.repairs ≡ self.old.repairs }
        ensures threshold { self.new.threshold ≡ self.old.threshold }
        ensures known { self.new.known ≡ self.old.known }
    {
        let mids = due_mids(self.alloc, &self.rx, &tick.intervals, tick.now)?;
        let made = fronts(self.alloc, &self.rx, tick, mids.as_slice())?;
        let asking = if tick.is_round { self.rx.len() } else { 0 };
        make_room(made.len(), asking, behind, feedback)?;
        self.next_untold = 0;
        say_all(&mut self.rx, tick, mids.as_slice(), made, feedback);
        Ok(())
    }

    /// Whether some incoming stream asks its sender for something at the next tick. The time grows
    /// with the number of streams.
    pub fn any_request(&self) -> bool
        ensures { (r : StreamsRecord) → StandsFor W.remembers S.stands_for self.now r → result ≡ any_request r.rx }
    {
        for place in 0..self.rx.len() {
            if self.rx.at(place).has_pending_request() {
                return true;
            }
        }
        false
    }

    /// The first moment at which the report of an incoming stream is due, None where there is none.
    /// The time grows with the number of streams.
    pub fn receiver_reports_at(&self, intervals: &ReportIntervals) -> Option<Instant>
        ensures { (r : StreamsRecord) → StandsFor W.remembers S.stands_for self.now r → result ≡ report_before intervals.now None r.rx }
    {
        let mut first = None;
        for place in 0..self.rx.len() {
            let at = self.rx.at(place).receiver_report_at(intervals);
            first = earlier(first, Some(at));
        }
        first
    }

    /// The same of outgoing streams: before the kind of one was told its moment is one that never
    /// comes.
    pub fn sender_reports_at(&self, intervals: &ReportIntervals) -> Option<Instant>
        ensures { result ≡ tx_report_before intervals.now None self.now.tx }
    {
        let mut first = None;
        for place in 0..self.tx.len() {
            let at = self.tx.at(place).sender_report_at(intervals);
            first = earlier(first, Some(at));
        }
        first
    }

    /// The media sections of the outgoing streams whose reports are due at a moment, in order. The
    /// time grows with the number of streams.
    pub fn due_sender_mids(
        &self,
        intervals: &ReportIntervals,
        now: Instant,
    ) -> Result<Vec<Mid>, AllocError>
        ensures mids { IfOk result (λ v. v.items ≡ due_tx_mids intervals.now now self.now.tx) }
        ensures cause { OnErr result (due_tx_mids intervals.now now self.now.tx ≡ [] → ⊥) }
    {
        let mut mids = Vec::new(self.alloc);
        for place in 0..self.tx.len() {
            let stream = self.tx.at(place);
            if stream.needs_report(intervals, now) {
                mids.push(stream.mid())?;
            }
        }
        Ok(mids)
    }

    /// The sender of an incoming stream reported, and that came at a moment: one look-up in a hash
    /// table.
    #[tactic(auto, using(crate::proofs::Alongside::set_same))]
    pub fn handle_sender_info(&mut self, info: &SenderInfo, now: Instant)
        ensures heard { (r : StreamsRecord) → StandsFor W.remembers S.stands_for self.old r
            → StandsFor W.remembers S.stands_for self.new (record r { rx = change_at info.now.ssrc (on_record (with_news info.now now)) r.rx }) }
        ensures tx { self.new.tx ≡ self.old.tx }
        ensures repairs { self.new.repairs ≡ self.old.repairs }
        ensures threshold { self.new.threshold ≡ self.old.threshold }
        ensures known { self.new.known ≡ self.old.known }
    {
        if let Some(place) = self.rx.place(info.ssrc) {
            self.rx.at_mut(place).handle_sender_info(info, now);
        }
    }

    /// The source of an incoming stream described itself (RFC 3550 section 6.5): one look-up in a
    /// hash table, and the time grows with the items of the description.
    #[tactic(auto, using(crate::proofs::Alongside::set_same))]
    pub fn handle_description(&mut self, description: Sdes)
        ensures heard { (r : StreamsRecord) → StandsFor W.remembers S.stands_for self.old r
            → StandsFor W.remembers S.stands_for self.new (record r { rx = change_at description.ssrc (on_record (described_by description)) r.rx }) }
        ensures tx { self.new.tx ≡ self.old.tx }
        ensures repairs { self.new.repairs ≡ self.old.repairs }
        ensures threshold { self.new.threshold ≡ self.old.threshold }
        ensures known { self.new.known ≡ self.old.known }
    {
        if let Some(place) = self.rx.place(description.ssrc) {
            self.rx.at_mut(place).handle_description(description);
        }
    }
}

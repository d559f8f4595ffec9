//! What a session reports of the streams that it sends (RFC 3550 section 6.4.1), and what it hears
//! of reports.
ghost use Rattle.std.specs.Prelude.{◌≡◌, ◌++◌, ◌<◌, ℕ, List, [], is_some, if◌then◌else◌, length, slice_get, take, Some, IfOk, OnOk, OnErr};
ghost use Rattle.std.specs.List.{AllByRecursion};
ghost use Rattle.std.specs.Map.{values_of};
ghost use Rattle.std.specs.Option.{option_copied, option_map};
ghost use Rattle.report_core.specs.Moments.{unanswered};
ghost use Rattle.rtcp_wire.specs.declared.packet.Rtcp.{Rtcp as Item};
ghost use Rattle.stream_core.specs.StreamsRecord.{StreamsRecord, StandsFor};
ghost use Rattle.stream_core.specs.Tables.{each, change_place};
ghost use Rattle.stream_core.specs.TxRecord.{TxRecord};
ghost use Rattle.session_core.specs.Feedback.{FitsAlone};
ghost use Rattle.session_core.specs.Reports.{
  description_items,
  sender_report_items,
  reports_in,
  sender_items_with,
  items_under,
  sender_after,
  some_reports,
  told_kind,
  moments_heard_by,
  moments_heard,
  TickItemsFit,
};

use crate::media::{Media, media_of};
use media_units::{Beginning, Instant};
use repair_core::GapWindow;
use report_core::{ReceiverMoments, description, sender_report};
use resend_core::ResendStore;
use rtcp_wire::{Rtcp, RtcpFb, SenderInfo, items_fit_by_lengths};
use rtp_base::{Mid, Ssrc};
use std::alloc::{AllocError, Global};
use std::collections::VecDeque;
use stream_core::{MAX_CNAME_LEN, PayloadTypes, Sent, Streams, is_among};

/// What the reports of senders are made by: the clocks of the payload types, the calendar, and the
/// moment.
#[derive(Clone, Copy)]
pub struct ReportTime<'a> {
    /// The payload types.
    pub types: &'a PayloadTypes,
    /// When moment 0 is by the calendar.
    pub beginning: &'a Beginning,
    /// The moment of the reports.
    pub moment: Instant,
}

/// The media section in which an outgoing stream reports in a tick: its own, where the report of
/// some stream of that is due.
fn reports_in<'a>(mids: &[Mid], medias: &'a [Media], mid: Mid) -> Option<&'a Media>
    ensures { (x : TxRecord) → x.mid ≡ mid → option_copied result ≡ reports_in mids.now medias.now x }
{
    if is_among(mid, mids) {
        media_of(medias, mid)
    } else {
        None
    }
}

/// Puts the description of a source by its name behind the other items, where that has 1 to 255
/// bytes.
fn push_description(
    alloc: Global,
    ssrc: Ssrc,
    cname: &[u8],
    feedback: &mut VecDeque<Rtcp>,
) -> Result<(), AllocError>
    ensures said { OnOk result (feedback.new.items ≡ feedback.old.items ++ description_items ssrc cname.now) }
    ensures fit { (more : List Item) × (feedback.new.items ≡ feedback.old.items ++ more) × AllByRecursion FitsAlone more }
{
    if cname.is_empty() || cname.len() > MAX_CNAME_LEN {
        return Ok(());
    }
    items_fit_by_lengths();
    let names = description(alloc, ssrc, cname)?;
    feedback.push_back(Rtcp::SourceDescription(names))?;
    Ok(())
}

/// Puts the report of an outgoing stream behind the other items, and the description of its source
/// behind that.
fn push_sender_report(
    alloc: Global,
    info: SenderInfo,
    cname: &[u8],
    feedback: &mut VecDeque<Rtcp>,
) -> Result<(), AllocError>
    ensures said { OnOk result (feedback.new.items ≡ feedback.old.items ++ sender_report_items info cname.now) }
    ensures fit { (more : List Item) × (feedback.new.items ≡ feedback.old.items ++ more) × AllByRecursion FitsAlone more }
{
    items_fit_by_lengths();
    let ssrc = info.ssrc;
    let report = sender_report(alloc, info);
    feedback.push_back(Rtcp::SenderReport(report))?;
    push_description(alloc, ssrc, cname, feedback)
}

/// What outgoing streams report in a tick.
#[derive(Debug, Drop)]
pub struct SenderItems {
    /// The items, in order.
    pub items: VecDeque<Rtcp>,
    /// Whether some stream reports.
    pub some: bool,
}

/// Puts what the outgoing stream at a place reports in a tick behind the other items, where the
/// report of some stream of its media section is due, and tells whether it reports.
fn push_items_of<W: GapWindow, S: ResendStore<Sent>>(
    alloc: Global,
    streams: &Streams<W, S>,
    place: usize,
    medias: &[Media],
    mids: &[Mid],
    time: &ReportTime<'_>,
    items: &mut VecDeque<Rtcp>,
) -> Result<bool, AllocError>
    requires { place < length streams.now.tx }
    ensures some { IfOk result (λ some. option_map (λ x. is_some (reports_in mids.now medias.now x)) (slice_get (values_of streams.now.tx) place) ≡ Some some) }
    ensures said { OnOk result ((x : TxRecord) → slice_get (values_of streams.now.tx) place ≡ Some x
        → items.new.items ≡ items.old.items ++ items_under time.now.types.now time.now.beginning.now time.now.moment x (reports_in mids.now medias.now x)) }
    ensures cause { OnErr result (mids.now ≡ [] → ⊥) }
    ensures fit { (more : List Item) × (items.new.items ≡ items.old.items ++ more) × AllByRecursion FitsAlone more }
{
    let stream = streams.tx(place);
    let Some(media) = reports_in(mids, medias, stream.mid()) else {
        return Ok(false);
    };
    let info = stream.sender_info(time.types, time.moment, time.beginning);
    push_sender_report(alloc, info, media.cname(), items)?;
    Ok(true)
}

/// What outgoing streams report in a tick, in order: of each of these media sections the report of
/// some stream is due. Tells whether some stream reports. The time grows with the number of
/// streams, and with that of the media sections and of those named for each.
pub fn sender_items<W: GapWindow, S: ResendStore<Sent>>(
    alloc: Global,
    streams: &Streams<W, S>,
    medias: &[Media],
    mids: &[Mid],
    time: &ReportTime<'_>,
) -> Result<SenderItems, AllocError>
    ensures some { IfOk result (λ made. made.some ≡ some_reports medias.now mids.now streams.now.tx) }
    ensures said { IfOk result (λ made. made.items.items ≡ sender_items_with time.now.types.now time.now.beginning.now medias.now time.now.moment mids.now streams.now.tx) }
    ensures fit { IfOk result (λ made. AllByRecursion FitsAlone made.items.items) }
    ensures cause { OnErr result (mids.now ≡ [] → ⊥) }
{
    let mut items = VecDeque::new(alloc);
    let mut some = false;
    for place in 0..streams.tx_len() {
        let said = push_items_of(alloc, streams, place, medias, mids, time, &mut items)?;
        some |= said;
    }
    Ok(SenderItems { items, some })
}

/// The outgoing stream at a place reported, where the report of some stream of its media section
/// was due.
fn report_at<W: GapWindow, S: ResendStore<Sent>>(
    streams: &mut Streams<W, S>,
    place: usize,
    medias: &[Media],
    mids: &[Mid],
    moment: Instant,
)
    requires { place < length streams.old.tx }
    ensures { streams.new ≡ record streams.old { tx = change_place (sender_after medias.now moment mids.now) streams.old.tx place } }
{
    if reports_in(mids, medias, streams.tx(place).mid()).is_none() {
        return;
    }
    streams.tx_at(place).reported(moment);
}

/// The outgoing streams reported of whose media section the report of some stream was due. The time
/// grows as that of `sender_items`.
pub fn report_all<W: GapWindow, S: ResendStore<Sent>>(
    streams: &mut Streams<W, S>,
    medias: &[Media],
    mids: &[Mid],
    moment: Instant,
)
    ensures { streams.new ≡ record streams.old { tx = each (sender_after medias.now moment mids.now) streams.old.tx } }
{
    for place in 0..streams.tx_len() {
        report_at(streams, place, medias, mids, moment);
    }
}

/// The moments of receivers that waited first were answered, where some outgoing stream reported.
pub fn answered_where(some: bool, moments: &mut ReceiverMoments)
    ensures { moments.new ≡ (if some then unanswered moments.old else moments.old) }
{
    if some {
        moments.answered();
    }
}

/// Tells the outgoing stream at a place its kind, where it was not told and has a media section.
fn tell_kind<W: GapWindow, S: ResendStore<Sent>>(
    streams: &mut Streams<W, S>,
    place: usize,
    medias: &[Media],
)
    requires { place < length streams.old.tx }
    ensures { streams.new ≡ record streams.old { tx = change_place (told_kind medias.now) streams.old.tx place } }
{
    let stream = streams.tx(place);
    if stream.is_audio().is_some() {
        return;
    }
    let Some(media) = media_of(medias, stream.mid()) else {
        return;
    };
    let is_audio = media.kind().is_audio();
    streams.tx_at(place).tell_kind(is_audio);
}

/// Tells each outgoing stream its kind that was not told it and has a media section. The time grows
/// with the number of streams.
pub fn tell_kinds<W: GapWindow, S: ResendStore<Sent>>(streams: &mut Streams<W, S>, medias: &[Media])
    ensures { streams.new ≡ record streams.old { tx = each (told_kind medias.now) streams.old.tx } }
{
    for place in 0..streams.tx_len() {
        tell_kind(streams, place, medias);
    }
}

/// Has the moment of a receiver wait for an answer, where feedback tells one (RFC 3611 section
/// 4.4). Without memory nothing changes.
fn take_moment(item: &RtcpFb, now: Instant, moments: &mut ReceiverMoments) -> Result<(), AllocError>
    ensures ok { OnOk result (moments.new ≡ moments_heard_by now item.now moments.old) }
    ensures err { OnErr result (moments.new ≡ moments.old) }
{
    if let RtcpFb::Rrtr(moment, ssrc) = item {
        moments.take(*ssrc, moment, now)?;
    }
    Ok(())
}

/// Has the moments of receivers wait for an answer that feedback tells, in order. Without memory
/// some items in front are taken in.
pub fn take_moments(
    feedback: &[RtcpFb],
    now: Instant,
    moments: &mut ReceiverMoments,
) -> Result<(), AllocError>
    ensures ok { OnOk result (moments.new ≡ moments_heard now feedback.now moments.old) }
    ensures err { OnErr result ((count : ℕ) × (moments.new ≡ moments_heard now (take count feedback.now) moments.old)) }
{
    for item in feedback {
        take_moment(item, now, moments)?;
    }
    Ok(())
}

/// Each item that a tick queues fits a compound of its own.
pub fn tick_items_fit()
    ensures { TickItemsFit }
{
    items_fit_by_lengths();
}

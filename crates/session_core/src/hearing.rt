ghost use Rattle.std.specs.Prelude.{◌≡◌, ◌≤◌, ℕ, List, None, length, take, IfOk, IfSome, IfNone, OnOk, OnErr};
ghost use Rattle.std.specs.Option.{option_or};
ghost use Rattle.stream_core.specs.Repairing.{RepairsRecord};
ghost use Rattle.stream_core.specs.StreamsRecord.{StreamsRecord, StandsFor};
ghost use Rattle.stream_core.specs.Tables.{change_at};
ghost use Rattle.stream_core.specs.TxRecord.{told_by};
ghost use Rattle.session_core.specs.Hearing.{RtcpOpensIn, stated, feedback_in, tx_heard_by, tx_heard, application_in, last_application, AskedBy, AskedByAll, is_own, last_delay, trip_of, measured, GoodbyesChangeNothing};
ghost use Rattle.session_core.specs.Reports.{rx_heard_by, rx_heard};

use media_units::{Duration, Instant, calculate_rtt};
use repair_core::GapWindow;
use resend_core::ResendStore;
use rtcp_wire::{AppSpecificFeedback, DlrrItem, Rtcp, RtcpFb};
use rtp_base::Ssrc;
use srtp_core::laws::rtcp_seal_keeps_header;
use srtp_core::{HEADER_LEN, SrtpCipher, SrtpContext};
use std::alloc::{AllocError, Global};
use std::collections::VecDeque;
use stream_core::{Payload, Sent, Streams};

/// What bytes opened to as RTCP.
#[derive(Drop)]
pub struct RtcpOpening {
    /// The packet, of at least 8 bytes.
    pub plain: Payload,
    /// The index that the datagram states, below 2^31.
    pub index: u32,
}

fn open_with<C: SrtpCipher>(
    context: &mut SrtpContext<C>,
    bytes: &[u8],
) -> Result<Option<RtcpOpening>, AllocError>
    ensures opened { IfOk result (λ r. IfSome r (λ o. RtcpOpensIn C.meaning (Some context.old) bytes.now o.plain)) }
    ensures index { IfOk result (λ r. IfSome r (λ o. o.index ≡ stated (Some context.old) bytes.now)) }
    ensures long { IfOk result (λ r. IfSome r (λ o. HEADER_LEN ≤ length o.plain)) }
    ensures none { IfOk result (λ r. IfNone r ((p : List ℕ) → RtcpOpensIn C.meaning (Some context.old) bytes.now p → ⊥)) }
    ensures same { context.new ≡ context.old }
{
    rtcp_seal_keeps_header::<C>();
    let Some(index) = context.profile().stated_index(bytes) else {
        return Ok(None);
    };
    match context.unprotect_rtcp(bytes)? {
        Some(plain) => Ok(Some(RtcpOpening {
            plain: Payload::from_vec(plain)?,
            index,
        })),
        None => Ok(None),
    }
}

/// Opens bytes that come as RTCP, where there are keys.
pub fn open_rtcp<C: SrtpCipher>(
    opening: &mut Option<SrtpContext<C>>,
    bytes: &[u8],
) -> Result<Option<RtcpOpening>, AllocError>
    ensures opened { IfOk result (λ r. IfSome r (λ o. RtcpOpensIn C.meaning opening.old bytes.now o.plain)) }
    ensures index { IfOk result (λ r. IfSome r (λ o. o.index ≡ stated opening.old bytes.now)) }
    ensures long { IfOk result (λ r. IfSome r (λ o. HEADER_LEN ≤ length o.plain)) }
    ensures none { IfOk result (λ r. IfNone r ((p : List ℕ) → RtcpOpensIn C.meaning opening.old bytes.now p → ⊥)) }
    ensures same { opening.new ≡ opening.old }
{
    match opening {
        Some(context) => open_with(context, bytes),
        None => Ok(None),
    }
}

/// The feedback that a packet holds, in order.
pub fn feedback_in(alloc: Global, plain: &[u8]) -> Result<Vec<RtcpFb>, AllocError>
    ensures { IfOk result (λ v. v.items ≡ feedback_in plain.now) }
{
    let mut items = VecDeque::new(alloc);
    Rtcp::read_packet(alloc, plain, &mut items)?;
    RtcpFb::from_rtcp(alloc, items)
}

/// Has the stream of an SSRC know an item that concerns it. Without memory nothing changes.
fn tell_stream<W: GapWindow, S: ResendStore<Sent>>(
    ssrc: Ssrc,
    item: &RtcpFb,
    streams: &mut Streams<W, S>,
) -> Result<(), AllocError>
    ensures ok { OnOk result (streams.new ≡ record streams.old { tx = change_at ssrc (told_by item.now) streams.old.tx }) }
    ensures err { OnErr result (streams.new ≡ streams.old) }
{
    if let Some(place) = streams.tx_place(ssrc) {
        streams.tx_at(place).handle_rtcp(item)?;
    }
    Ok(())
}

/// Has an item tell the stream that it concerns, of those that send: a reception block what was
/// lost, where that is kept, and that the peer knows its SSRC; what asks for packets or a key frame
/// counts. Without memory nothing changes.
fn tell<W: GapWindow, S: ResendStore<Sent>>(
    item: &RtcpFb,
    streams: &mut Streams<W, S>,
) -> Result<(), AllocError>
    ensures ok { OnOk result (streams.new ≡ record streams.old { tx = tx_heard_by item.now streams.old.tx }) }
    ensures err { OnErr result (streams.new ≡ streams.old) }
{
    match item {
        RtcpFb::ReceptionReport(report) => tell_stream(report.ssrc, item, streams),
        RtcpFb::Nack(ssrc, _) => tell_stream(*ssrc, item, streams),
        RtcpFb::Pli(pli) => tell_stream(pli.ssrc, item, streams),
        RtcpFb::Fir(entry) => tell_stream(entry.ssrc, item, streams),
        _ => Ok(()),
    }
}

/// Has feedback tell the streams that send, in order. Without memory some items in front are told.
pub fn tell_all<W: GapWindow, S: ResendStore<Sent>>(
    feedback: &[RtcpFb],
    streams: &mut Streams<W, S>,
) -> Result<(), AllocError>
    ensures ok { OnOk result (streams.new ≡ record streams.old { tx = tx_heard feedback.now streams.old.tx }) }
    ensures err { OnErr result ((count : ℕ) × (streams.new ≡ record streams.old { tx = tx_heard (take count feedback.now) streams.old.tx })) }
{
    for item in feedback {
        tell(item, streams)?;
    }
    Ok(())
}

/// Has an item change what it concerns: the report of a sender and the description of a source the
/// stream that comes from it, feedback of an application what is told next.
fn hear_item<W: GapWindow, S: ResendStore<Sent>>(
    item: RtcpFb,
    now: Instant,
    streams: &mut Streams<W, S>,
    application: &mut Option<AppSpecificFeedback>,
)
    ensures streams { (r : StreamsRecord) → StandsFor W.remembers S.stands_for streams.old r
        → StandsFor W.remembers S.stands_for streams.new (record r { rx = rx_heard_by now item r.rx }) }
    ensures tx { streams.new.tx ≡ streams.old.tx }
    ensures repairs { streams.new.repairs ≡ streams.old.repairs }
    ensures threshold { streams.new.threshold ≡ streams.old.threshold }
    ensures known { streams.new.known ≡ streams.old.known }
    ensures application { application.new ≡ option_or (application_in item) application.old }
{
    match item {
        RtcpFb::SenderInfo(info) => streams.handle_sender_info(&info, now),
        RtcpFb::SourceDescription(description) => streams.handle_description(description),
        RtcpFb::AppSpecificFeedback(told) => *application = Some(told),
        _ => {}
    }
}

/// Has feedback change what it concerns, in order: reports of senders (RFC 3550 section 6.4.1) and
/// descriptions of sources (section 6.5) the streams that come from them, feedback of an
/// application what is told next.
pub fn hear<W: GapWindow, S: ResendStore<Sent>>(
    feedback: Vec<RtcpFb>,
    now: Instant,
    streams: &mut Streams<W, S>,
    application: &mut Option<AppSpecificFeedback>,
)
    ensures streams { (r : StreamsRecord) → StandsFor W.remembers S.stands_for streams.old r
        → StandsFor W.remembers S.stands_for streams.new (record r { rx = rx_heard now feedback.items r.rx }) }
    ensures tx { streams.new.tx ≡ streams.old.tx }
    ensures repairs { streams.new.repairs ≡ streams.old.repairs }
    ensures threshold { streams.new.threshold ≡ streams.old.threshold }
    ensures known { streams.new.known ≡ streams.old.known }
    ensures application { application.new ≡ last_application feedback.items application.old }
{
    for item in feedback {
        hear_item(item, now, streams, application);
    }
}

/// Has a NACK ask a stream for packets. Without memory nothing changes.
fn ask<W: GapWindow, S: ResendStore<Sent>>(
    item: &RtcpFb,
    streams: &mut Streams<W, S>,
    now: Instant,
) -> Result<(), AllocError>
    ensures ok { OnOk result ((r : StreamsRecord) → StandsFor W.remembers S.stands_for streams.old r
        → (after : List (ℕ × RepairsRecord)) × AskedBy now item.now r.repairs after
        × StandsFor W.remembers S.stands_for streams.new (record r { repairs = after })) }
    ensures others { streams.new ≡ record streams.old { repairs = streams.new.repairs } }
    ensures err { OnErr result (streams.new ≡ streams.old) }
{
    if let RtcpFb::Nack(ssrc, entries) = item {
        streams.handle_nack(*ssrc, entries.as_slice(), now)?;
    }
    Ok(())
}

/// Has the NACKs of feedback ask streams for packets, in order. Without memory those in front have
/// asked.
pub fn ask_all<W: GapWindow, S: ResendStore<Sent>>(
    feedback: &[RtcpFb],
    streams: &mut Streams<W, S>,
    now: Instant,
) -> Result<(), AllocError>
    ensures ok { OnOk result ((r : StreamsRecord) → StandsFor W.remembers S.stands_for streams.old r
        → (after : List (ℕ × RepairsRecord)) × AskedByAll now feedback.now r.repairs after
        × StandsFor W.remembers S.stands_for streams.new (record r { repairs = after })) }
    ensures others { streams.new ≡ record streams.old { repairs = streams.new.repairs } }
    ensures err { OnErr result ((r : StreamsRecord) → StandsFor W.remembers S.stands_for streams.old r
        → (count : ℕ) × ((after : List (ℕ × RepairsRecord)) × AskedByAll now (take count feedback.now) r.repairs after
        × StandsFor W.remembers S.stands_for streams.new (record r { repairs = after }))) }
{
    for item in feedback {
        ask(item, streams, now)?;
    }
    Ok(())
}

/// Whether an SSRC is the session's own, or that of a stream that it sends.
fn is_own<W: GapWindow, S: ResendStore<Sent>>(
    local_ssrc: Ssrc,
    streams: &Streams<W, S>,
    ssrc: Ssrc,
) -> bool
    ensures { result ≡ is_own local_ssrc streams.now.tx ssrc }
{
    ssrc == local_ssrc || streams.tx_place(ssrc).is_some()
}

/// The last item that tells how long ago a moment of the session came in (RFC 3611 section 4.5).
pub fn last_delay<W: GapWindow, S: ResendStore<Sent>>(
    local_ssrc: Ssrc,
    streams: &Streams<W, S>,
    feedback: &[RtcpFb],
) -> Option<DlrrItem>
    ensures { result ≡ last_delay local_ssrc streams.now.tx feedback.now None }
{
    let mut last = None;
    for item in feedback {
        if let RtcpFb::DlrrItem(delay) = item {
            if is_own(local_ssrc, streams, delay.ssrc) {
                last = Some(*delay);
            }
        }
    }
    last
}

/// The round trip that an item tells at a moment, given from 1900.
fn trip(ntp: Duration, delay: &DlrrItem) -> Option<Duration>
    ensures { result ≡ trip_of ntp delay.now }
{
    calculate_rtt(ntp, delay.last_rr_delay, delay.last_rr_time)
}

/// Has the incoming streams know the round trip that an item tells, if there is one, at a moment,
/// given from 1900.
pub fn measure<W: GapWindow, S: ResendStore<Sent>>(
    ntp: Duration,
    delay: &Option<DlrrItem>,
    streams: &mut Streams<W, S>,
)
    ensures streams { (r : StreamsRecord) → StandsFor W.remembers S.stands_for streams.old r
        → StandsFor W.remembers S.stands_for streams.new (record r { rx = measured ntp delay.now r.rx }) }
    ensures tx { streams.new.tx ≡ streams.old.tx }
    ensures repairs { streams.new.repairs ≡ streams.old.repairs }
    ensures threshold { streams.new.threshold ≡ streams.old.threshold }
    ensures known { streams.new.known ≡ streams.old.known }
{
    if let Some(delay) = delay {
        streams.set_trip(trip(ntp, delay));
    }
}

/// A packet of goodbyes alone (RFC 3550 section 6.6) changes nothing of a session: neither streams
/// that send nor streams that receive end by it.
pub fn goodbyes_change_nothing()
    ensures { GoodbyesChangeNothing }
{}

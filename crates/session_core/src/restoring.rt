//! Repairs that come (RFC 4588): of which stream they are, under which number they may open, and
//! the packets that they restore.
ghost use Rattle.std.specs.Prelude.{◌≡◌, ◌<◌, ◌%◌, ℕ, List, Some, length, option_and_then, IfSome};
ghost use Rattle.std.specs.Option.{option_map};
ghost use Rattle.stream_core.specs.Seen.{SeenStandsFor};
ghost use Rattle.stream_core.specs.StreamsRecord.{StreamsRecord, StandsFor as StreamsStand};
ghost use Rattle.stream_core.specs.Tables.{place_of, value_under};
ghost use Rattle.session_core.specs.Receiving.{arrival_of, packet_restored};
ghost use Rattle.session_core.specs.Repairs.{is_known, original_under, repaired_by, repair_accepted, restored_header};

use crate::receiving::{arrival, packet_from};
use media_units::Instant;
use repair_core::GapWindow;
use resend_core::ResendStore;
use rtp_base::{MediaTime, NUMBER_LIMIT, Pt, SeqNo, Ssrc};
use rtp_wire::RtpHeader;
use stream_core::{Arrival, Payload, PayloadTypes, RtpPacket, Seen, Sent, Streams};

/// Whether both ends know a type, as one of packets or of repairs.
pub fn is_known(types: &PayloadTypes, pt: Pt) -> bool
    ensures { result ≡ is_known types.now pt }
{
    types.has(pt) || types.primary(pt).is_some()
}

/// The SSRC of the stream whose repairs come under the SSRC of a datagram, and where it stands,
/// where both ends know the type of the datagram.
fn original_under<W: GapWindow, S: ResendStore<Sent>>(
    types: &PayloadTypes,
    streams: &Streams<W, S>,
    header: &RtpHeader,
) -> Option<(Ssrc, usize)>
    ensures original { (r : StreamsRecord) → StreamsStand W.remembers S.stands_for streams.now r
        → option_map (λ f. f.0) result ≡ original_under types.now r.rx r.known.originals header.now }
    ensures place { IfSome result (λ f. place_of f.0 streams.now.rx ≡ Some f.1) }
    ensures within { IfSome result (λ f. f.1 < length streams.now.rx) }
{
    if !is_known(types, header.payload_type) {
        return None;
    }
    let Some(original) = streams.original(header.ssrc) else {
        return None;
    };
    match streams.rx_place(original) {
        Some(place) => Some((original, place)),
        None => None,
    }
}

/// The SSRC of the stream that a datagram repairs, and where that stands, where the datagram is a
/// repair: it comes under the SSRC of the stream's repairs, of a type that both ends know, or under
/// the stream's own, of a type of repairs. At most three look-ups in hash tables.
pub fn repaired_by<W: GapWindow, S: ResendStore<Sent>>(
    types: &PayloadTypes,
    streams: &Streams<W, S>,
    header: &RtpHeader,
) -> Option<(Ssrc, usize)>
    ensures original { (r : StreamsRecord) → StreamsStand W.remembers S.stands_for streams.now r
        → option_map (λ f. f.0) result ≡ repaired_by types.now r.rx r.known.originals header.now }
    ensures place { IfSome result (λ f. place_of f.0 streams.now.rx ≡ Some f.1) }
    ensures within { IfSome result (λ f. f.1 < length streams.now.rx) }
{
    if header.ssrc.is_probe() {
        return None;
    }
    let Some(place) = streams.rx_place(header.ssrc) else {
        return original_under(types, streams, header);
    };
    match types.primary(header.payload_type) {
        Some(_) => Some((header.ssrc, place)),
        None => None,
    }
}

/// The own number under which a repair of the stream at a place may open: where it is fresh among
/// the repairs of the stream; with padding where no datagram under its SSRC opened under that
/// number.
pub fn accepts_repair<W: GapWindow, S: ResendStore<Sent>>(
    header: &RtpHeader,
    place: usize,
    seen: &Seen,
    streams: &Streams<W, S>,
) -> Option<SeqNo>
    requires { place < length streams.now.rx }
    ensures number { (r : StreamsRecord) (numbers : List (ℕ × List ℕ)) (original : ℕ) → StreamsStand W.remembers S.stands_for streams.now r
        → SeenStandsFor seen.now numbers → place_of original streams.now.rx ≡ Some place
        → result ≡ option_and_then (repair_accepted numbers header.now) (value_under original r.rx) }
    ensures small { IfSome result (λ n. n < NUMBER_LIMIT) }
    ensures low { IfSome result (λ n. n % 65536 ≡ header.now.sequence_number) }
{
    let greatest = seen.get(header.ssrc);
    let low = header.sequence_number;
    if !header.has_padding {
        return streams.accepts_repair(place, low, greatest);
    }
    let number = streams.repair_number_at(place, low, greatest);
    if seen.accepts(header.ssrc, number) {
        Some(number)
    } else {
        None
    }
}

/// The header of a packet that was restored.
fn restored_header(
    types: &PayloadTypes,
    original: Ssrc,
    number: SeqNo,
    header: &RtpHeader,
) -> RtpHeader
    ensures { result ≡ restored_header types.now original number header.now }
{
    let mut restored = *header;
    restored.ssrc = original;
    restored.sequence_number = (u64::from(number) % 65536) as u16;
    if let Some(pt) = types.primary(header.payload_type) {
        restored.payload_type = pt;
    }
    restored
}

/// How the packet that a repair restores came at a moment, by the clock of its type, with so many
/// bytes of payload.
pub fn restored_arrival(
    types: &PayloadTypes,
    now: Instant,
    header: &RtpHeader,
    bytes: usize,
) -> Arrival
    ensures { (original low : ℕ) → result ≡ arrival_of types.now now (restored_header types.now original low header.now) bytes }
{
    let mut restored = *header;
    let repaired = types.primary(header.payload_type);
    restored.payload_type = repaired.unwrap_or(header.payload_type);
    arrival(types, now, &restored, bytes)
}

/// Has the packet that a repair restored, of this RTP time, wait to be told, where its number is
/// fresh.
pub fn put_restored(
    time: MediaTime,
    now: Instant,
    types: &PayloadTypes,
    header: &RtpHeader,
    original: Ssrc,
    fresh: Option<SeqNo>,
    payload: Payload,
    packet: &mut Option<RtpPacket>,
)
    ensures { packet.new ≡ packet_restored time types.now now header.now original payload fresh packet.old }
{
    if let Some(number) = fresh {
        let restored = restored_header(types, original, number, header);
        *packet = Some(packet_from(time, now, &restored, number, payload));
    }
}

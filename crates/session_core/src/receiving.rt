ghost use Rattle.std.specs.Prelude.{◌≡◌, ◌==◌, ◌+◌, ◌<◌, ◌≤◌, ◌%◌, ℕ, List, ◌++◌, Some, None, take, drop, length, is_none, if◌then◌else◌, IfOk, IfSome, IfNone, OnOk, OnErr};
ghost use Rattle.std.specs.Option.{ForSome, option_map};
ghost use Rattle.srtp_core.specs.Seals.{OpensTo};
ghost use Rattle.stream_core.specs.RxRecord.{RxRecord, StandsFor};
ghost use Rattle.stream_core.specs.StreamsRecord.{StreamsRecord, StandsFor as StreamsStand};
ghost use Rattle.stream_core.specs.Tables.{place_of};
ghost use Rattle.session_core.specs.Receiving.{Unpads, OpensIn, IsOpening, cut, number_of, rx_opened, probes_opened, is_claimed, time_taken, packet_from, packet_after, arrival_of, original_in, carried_in, HeaderNumbersFit};
ghost use Rattle.rtp_wire.specs.Repairs.{original_number};

use media_units::Instant;
use repair_core::GapWindow;
use resend_core::ResendStore;
use rtp_base::wire::half;
use rtp_base::{Frequency, MediaTime, NUMBER_LIMIT, SeqNo, Ssrc};
use rtp_wire::{ORIGINAL_NUMBER_LEN, RtpHeader};
use srtp_core::laws::rtp_opens_once;
use srtp_core::{SrtpCipher, SrtpContext};
use std::alloc::{AllocError, Global};
use stream_core::{Arrival, Payload, PayloadTypes, RtpPacket, Sent, StreamRx, Streams};

/// What bytes opened to.
#[derive(Debug, Drop)]
pub struct Opening {
    /// The header's bytes, and the payload with its padding.
    pub plain: Payload,
    /// Of a repair, the low 16 bits of the number of the packet that it repairs (RFC 4588 section
    /// 4), if its payload has so many.
    pub original: Option<u16>,
    /// The payload without its padding; of a repair what stands behind that number. It shares the
    /// bytes of the plain datagram.
    pub payload: Payload,
}

/// The number that the header of a datagram states has 16 bits.
pub fn header_numbers_fit()
    ensures { HeaderNumbersFit }
{}

/// Whether a datagram with this header may be taken: on SSRC 0 each, on another one those of the
/// types that both ends know.
pub fn is_claimed(types: &PayloadTypes, header: &RtpHeader) -> bool
    ensures { result ≡ is_claimed types.now header.now }
{
    header.ssrc.is_probe() || types.has(header.payload_type)
}

/// The payload without its padding, None where it does not end in padding though it should.
fn cut_payload<'a>(header: &RtpHeader, payload: &'a [u8]) -> Option<&'a [u8]>
    ensures some { IfSome result (λ p. (p.now ≡ cut header.now payload.now) × Unpads header.now payload.now) }
    ensures none { IfNone result (Unpads header.now payload.now → ⊥) }
{
    if header.has_padding {
        RtpHeader::unpad_payload(payload)
    } else {
        Some(payload)
    }
}

/// The number in front of what a repair carries, if there are two bytes, and what stands behind it.
fn split_original(carried: &[u8]) -> (Option<u16>, &[u8])
    ensures number { result.0 ≡ original_number carried.now }
    ensures rest { result.1.now ≡ drop ORIGINAL_NUMBER_LEN carried.now }
{
    if carried.len() < ORIGINAL_NUMBER_LEN {
        return (None, &carried[carried.len()..]);
    }
    (Some(half(carried, 0)), &carried[ORIGINAL_NUMBER_LEN..])
}

/// What a datagram carries, split where it is a repair.
fn split_carried(repair: bool, carried: &[u8]) -> (Option<u16>, &[u8])
    ensures number { result.0 ≡ (if repair then original_number carried.now else None) }
    ensures rest { result.1.now ≡ (if repair then drop ORIGINAL_NUMBER_LEN carried.now else carried.now) }
{
    if repair {
        split_original(carried)
    } else {
        (None, carried)
    }
}

/// Of a payload the number that stands in front of what a repair carries, if it is one, and where
/// what it carries stands: behind so many bytes, and so many. None where it does not end in padding
/// though it should.
#[tactic(auto, using(crate::proofs::Carried::carried_run))]
fn carried_run(
    header: &RtpHeader,
    payload: &[u8],
    repair: bool,
) -> Option<(Option<u16>, usize, usize)>
    ensures unpads { IfSome result (λ r. Unpads header.now payload.now) }
    ensures number { IfSome result (λ r. r.0 ≡ original_in repair header.now payload.now) }
    ensures within { IfSome result (λ r. r.1 + r.2 ≤ length payload.now) }
    ensures run { IfSome result (λ r. take r.2 (drop r.1 payload.now) ≡ carried_in repair header.now payload.now) }
    ensures none { IfNone result (Unpads header.now payload.now → ⊥) }
{
    let cut = cut_payload(header, payload)?;
    let (original, carried) = split_carried(repair, cut);
    Some((original, cut.len() - carried.len(), carried.len()))
}

/// The plain datagram of its header's bytes and its payload, and a run of the payload, which shares
/// its bytes.
#[tactic(auto, using(crate::proofs::Carried::run_behind))]
fn joined(
    alloc: Global,
    front: &[u8],
    payload: &[u8],
    start: usize,
    count: usize,
) -> Result<(Payload, Payload), AllocError>
    requires { start + count ≤ length payload.now }
    ensures plain { IfOk result (λ r. r.0 ≡ front.now ++ payload.now) }
    ensures run { IfOk result (λ r. r.1 ≡ take count (drop start payload.now)) }
{
    let behind = front.len();
    let mut bytes = Vec::with_capacity(alloc, behind + payload.len())?;
    bytes.extend_from_slice(front)?;
    bytes.extend_from_slice(payload)?;
    let plain = Payload::from_vec(bytes)?;
    let run = plain.part(behind + start, count)?;
    Ok((plain, run))
}

/// Opens bytes under a number.
fn open_with<C: SrtpCipher>(
    alloc: Global,
    context: &mut SrtpContext<C>,
    bytes: &[u8],
    header: &RtpHeader,
    number: SeqNo,
    repair: bool,
) -> Result<Option<Opening>, AllocError>
    requires index { number < NUMBER_LIMIT }
    requires low { number % 65536 ≡ header.now.sequence_number }
    ensures opened { IfOk result (λ r. IfSome r (λ o. IsOpening C.meaning (Some context.old) header.now number repair bytes.now o.plain o.original o.payload)) }
    ensures none { IfOk result (λ r. IfNone r ((p : List ℕ) → OpensIn C.meaning (Some context.old) header.now number bytes.now p → Unpads header.now p → ⊥)) }
    ensures same { context.new ≡ context.old }
{
    rtp_opens_once::<C>();
    let front = header.header_len;
    let Some(payload) = context.unprotect_rtp(bytes, header, u64::from(number)) else {
        return Ok(None);
    };
    let Some((original, start, count)) = carried_run(header, payload, repair) else {
        return Ok(None);
    };
    let (plain, payload) = joined(alloc, &bytes[..front], payload, start, count)?;
    Ok(Some(Opening {
        plain,
        original,
        payload,
    }))
}

/// Opens bytes under a number, where there are keys.
pub fn open<C: SrtpCipher>(
    alloc: Global,
    opening: &mut Option<SrtpContext<C>>,
    bytes: &[u8],
    header: &RtpHeader,
    number: SeqNo,
    repair: bool,
) -> Result<Option<Opening>, AllocError>
    requires index { number < NUMBER_LIMIT }
    requires low { number % 65536 ≡ header.now.sequence_number }
    ensures opened { IfOk result (λ r. IfSome r (λ o. IsOpening C.meaning opening.old header.now number repair bytes.now o.plain o.original o.payload)) }
    ensures none { IfOk result (λ r. IfNone r ((p : List ℕ) → OpensIn C.meaning opening.old header.now number bytes.now p → Unpads header.now p → ⊥)) }
    ensures same { opening.new ≡ opening.old }
{
    match opening {
        Some(context) => open_with(alloc, context, bytes, header, number, repair),
        None => Ok(None),
    }
}

/// Where the stream of an SSRC stands, None on SSRC 0, and the number under which its datagram with
/// these low 16 bits may open.
pub fn accepts<W: GapWindow, S: ResendStore<Sent>>(
    ssrc: Ssrc,
    low: u16,
    remembered: &Option<SeqNo>,
    streams: &Streams<W, S>,
    probes: &StreamRx<W>,
) -> Option<(Option<usize>, SeqNo)>
    requires { ForSome remembered.now (λ n. n < NUMBER_LIMIT) }
    ensures number { (r : StreamsRecord) (p : RxRecord) → StreamsStand W.remembers S.stands_for streams.now r → StandsFor W.remembers probes.now p
        → option_map (λ f. f.1) result ≡ number_of remembered.now r.rx p ssrc low }
    ensures probe { IfSome result (λ f. is_none f.0 ≡ (ssrc == 0)) }
    ensures place { IfSome result (λ f. IfSome f.0 (λ i. place_of ssrc streams.now.rx ≡ Some i)) }
    ensures within { IfSome result (λ f. IfSome f.0 (λ i. i < length streams.now.rx)) }
    ensures small { IfSome result (λ f. f.1 < NUMBER_LIMIT) }
    ensures low { IfSome result (λ f. f.1 % 65536 ≡ low) }
{
    if ssrc.is_probe() {
        return match probes.accepts(low, *remembered) {
            Some(number) => Some((None, number)),
            None => None,
        };
    }
    match streams.accepts(ssrc, low, *remembered) {
        Some(found) => Some((Some(found.0), found.1)),
        None => None,
    }
}

/// How a packet of this header came at a moment, with so many bytes of payload: the clock of a type
/// that is not known has one tick in a second.
pub fn arrival(types: &PayloadTypes, now: Instant, header: &RtpHeader, bytes: usize) -> Arrival
    ensures { result ≡ arrival_of types.now now header.now bytes }
{
    Arrival {
        now,
        rtp_time: header.timestamp,
        clock: types
            .clock(header.payload_type)
            .unwrap_or(Frequency::SECONDS),
        payload_len: if header.has_padding && bytes == 0 {
            None
        } else {
            Some(bytes)
        },
    }
}

/// Has the stream at a place, or with none that of SSRC 0, take a number under which a datagram
/// opened.
pub fn take<W: GapWindow, S: ResendStore<Sent>>(
    place: Option<usize>,
    arrival: &Arrival,
    number: SeqNo,
    remembered: &Option<SeqNo>,
    streams: &mut Streams<W, S>,
    probes: &mut StreamRx<W>,
) -> Result<(), AllocError>
    requires place { IfSome place (λ i. i < length streams.old.rx) }
    requires number { number < NUMBER_LIMIT }
    requires remembered { ForSome remembered.now (λ n. n < NUMBER_LIMIT) }
    ensures rx { OnOk result ((r : StreamsRecord) (ssrc : ℕ) → StreamsStand W.remembers S.stands_for streams.old r
        → is_none place ≡ (ssrc == 0) → IfSome place (λ i. place_of ssrc streams.old.rx ≡ Some i)
        → StreamsStand W.remembers S.stands_for streams.new (record r { rx = rx_opened remembered.now arrival.entry.now ssrc number r.rx })) }
    ensures probes { OnOk result ((p : RxRecord) (ssrc : ℕ) → StandsFor W.remembers probes.old p → is_none place ≡ (ssrc == 0)
        → StandsFor W.remembers probes.new (probes_opened remembered.now arrival.entry.now ssrc number p)) }
    ensures tx { streams.new.tx ≡ streams.old.tx }
    ensures repairs { streams.new.repairs ≡ streams.old.repairs }
    ensures threshold { streams.new.threshold ≡ streams.old.threshold }
    ensures known { streams.new.known ≡ streams.old.known }
    ensures err { OnErr result ((streams.new ≡ streams.old) × (probes.new ≡ probes.old)) }
{
    match place {
        Some(place) => streams.take_at(place, arrival, number, *remembered)?,
        None => probes.take(arrival, number, *remembered)?,
    }
    Ok(())
}

/// The RTP time of a packet that so comes on the stream at a place, as that widens it; with none,
/// on SSRC 0, no packet is told.
pub fn taken_time<W: GapWindow, S: ResendStore<Sent>>(
    place: Option<usize>,
    arrival: &Arrival,
    streams: &Streams<W, S>,
) -> MediaTime
    requires { IfSome place (λ i. i < length streams.now.rx) }
    ensures { (r : StreamsRecord) (ssrc : ℕ) → StreamsStand W.remembers S.stands_for streams.now r
        → IfSome place (λ i. place_of ssrc streams.now.rx ≡ Some i → result ≡ time_taken arrival.entry.now r.rx ssrc) }
{
    match place {
        Some(place) => streams.taken_time_at(place, arrival),
        None => MediaTime::new(0, Frequency::SECONDS),
    }
}

/// The packet of a datagram that came, of this RTP time.
pub fn packet_from(
    time: MediaTime,
    now: Instant,
    header: &RtpHeader,
    number: SeqNo,
    payload: Payload,
) -> RtpPacket
    ensures { result ≡ packet_from time now header.now number payload }
{
    RtpPacket {
        seq_no: number,
        time,
        header: *header,
        payload,
        timestamp: Some(now),
        nackable: false,
    }
}

/// Has the packet of a datagram that opened wait to be told, but on SSRC 0, where the one before
/// stays.
pub fn put_packet(
    time: MediaTime,
    now: Instant,
    header: &RtpHeader,
    number: SeqNo,
    payload: Payload,
    packet: &mut Option<RtpPacket>,
)
    ensures { packet.new ≡ packet_after time now header.now number payload packet.old }
{
    if !header.ssrc.is_probe() {
        *packet = Some(packet_from(time, now, header, number, payload));
    }
}

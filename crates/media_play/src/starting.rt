// The session of a side before any step.
ghost use Rattle.std.specs.Prelude.{◌≡◌, ◌<◌, ◌^◌, ℕ, ◌++◌, List, [], Some, None, true, is_none, length, map, filter_map, option_to_list, IfOk, OnOk};
ghost use Rattle.std.specs.List.{AllZip};
ghost use Rattle.std.specs.Option.{option_map};
ghost use Rattle.srtp_core.specs.Cipher.{CipherMeaning};
ghost use Rattle.srtp_core.specs.Keys.{material_len};
ghost use Rattle.rtx_core.specs.Resends.{recached};
ghost use Rattle.stream_core.specs.StreamsRecord.{StreamsRecord, with_stream_rx, with_stream_tx};
ghost use Rattle.stream_core.specs.Tables.{change_at};
ghost use Rattle.session_core.specs.Sending.{has_mid};
ghost use Rattle.media_model.specs.declared.entry.Side.{Side as Party};
ghost use Rattle.media_model.specs.declared.setup.Cache.{Cache as Kept};
ghost use Rattle.media_model.specs.declared.setup.Setup.{Setup as Given};
ghost use Rattle.media_model.specs.Setup.{material_of, streams_of, types_of};
ghost use Rattle.media_model.specs.Sides.{peer_of};
ghost use Rattle.run_model.specs.Events.{Outgoing};
ghost use Rattle.run_model.specs.Listing.{NoRepeat};
ghost use Rattle.run_model.specs.Transcripts.{outgoing_in};
ghost use Rattle.media_laws.specs.Keys.{is_left};
ghost use Rattle.media_play.specs.Knowing.{UsedAs};
ghost use Rattle.setup_rules.specs.SetupRules.{is_mtu, setup_fault};
ghost use Rattle.media_play.specs.Starting.{codec_of, section_kind, identification, IsParams, AreOnce, outgoing_at, StreamsChange, Starts, IsStarted};

use crate::numbers::Numbers;
use mapping_core::Rids;
use mask_register::MaskRegister;
use media_base::{Bytes, Listed};
use media_model::{Cache, Codec, FirstNumber, Media, MediaKind, PayloadType, Setup, Side, Stream};
use payload_core::{Codec as CarriedCodec, CodecConfig, CodecSpec, FormatParams, PayloadParams};
use queue_store::QueueStore;
use rtp_wire::{Frequency, Mid, MidRid, Pt, SeqNo, Ssrc};
use session_core::{
    Media as Section, MediaKind as SectionKind, Mtu, ReportIntervals, Session, SessionConfig,
};
use srtp_core::{KeyingMaterial, SrtpCipher};
use std::alloc::{AllocError, Global};
use stream_core::Sent;

fn codec_of(codec: Codec) -> CarriedCodec
    ensures { result ≡ codec_of codec }
{
    match codec {
        Codec::Opus => CarriedCodec::Opus,
        Codec::Pcmu => CarriedCodec::Pcmu,
        Codec::Pcma => CarriedCodec::Pcma,
        Codec::Telephone => CarriedCodec::Telephone,
        Codec::Vp8 => CarriedCodec::Vp8,
        Codec::Vp9 => CarriedCodec::Vp9,
        Codec::H264 => CarriedCodec::H264,
        Codec::H265 => CarriedCodec::H265,
        Codec::H266 => CarriedCodec::H266,
        Codec::Av1 => CarriedCodec::Av1,
    }
}

/// What a session is told of a payload type. The clock of one without a rate has ticks of 1 s.
fn params_of(row: &PayloadType) -> PayloadParams
    ensures { IsParams result row.now }
{
    PayloadParams {
        pt: row.pt,
        resend: row.rtx,
        red: row.red,
        spec: CodecSpec {
            codec: codec_of(row.codec),
            clock_rate: Frequency::new(row.rate).unwrap_or(Frequency::SECONDS),
            channels: None,
            format: FormatParams::default(),
        },
        fb_transport_cc: false,
        fb_pli: row.pli,
        fb_fir: row.fir,
    }
}

/// The codecs of a setup, in the order of its types.
fn codecs(alloc: Global, setup: &Setup) -> Result<CodecConfig, AllocError>
    ensures { IfOk result (λ codecs. AllZip IsParams codecs.params setup.now.types) }
{
    let mut params = Vec::new(alloc);
    for row in setup.types.as_slice() {
        params.push(params_of(row))?;
    }
    CodecConfig::new(alloc, params)
}

/// The payload types of a setup, in order, without those of repairs and of redundant data.
fn primary_types(alloc: Global, setup: &Setup) -> Result<Listed<Pt>, AllocError>
    ensures { IfOk result (λ types. types ≡ map (λ t. t.pt) setup.now.types) }
{
    let mut types = Listed::new(alloc);
    for row in setup.types.as_slice() {
        types.push(row.pt)?;
    }
    Ok(types)
}

fn section_kind(kind: MediaKind) -> SectionKind
    ensures { result ≡ section_kind kind }
{
    match kind {
        MediaKind::Audio => SectionKind::Audio,
        MediaKind::Video => SectionKind::Video,
    }
}

/// Whether a side is the left one of the key material, which side A is.
fn is_left(side: Side) -> bool
    ensures { result ≡ is_left side }
{
    match side {
        Side::A => true,
        Side::B => false,
    }
}

/// A side's own SSRC, by which its session is told apart.
fn identification(side: Side) -> u64
    ensures { result ≡ identification side }
{
    match side {
        Side::A => 1,
        Side::B => 2,
    }
}

/// A session with the keys of a side, without streams, in a box.
fn with_keys<C: SrtpCipher>(
    alloc: Global,
    cipher: C,
    setup: &Setup,
    side: Side,
) -> Result<Box<Session<C, MaskRegister, QueueStore<Sent>>>, AllocError>
    requires key { length (material_of setup.now) ≡ material_len setup.now.profile }
    requires mtu { is_mtu setup.now.mtu ≡ true }
    requires types { NoRepeat (types_of setup.now) }
    ensures { IfOk result (λ session. Starts C.meaning setup.now side [] [] session.value) }
{
    let material = KeyingMaterial::new(alloc, &setup.material(alloc)?)?;
    let mut session = Session::boxed(
        alloc,
        SessionConfig {
            id: identification(side),
            beginning: setup.beginning,
            mtu: Mtu {
                target: setup.mtu.target as usize,
                warn: setup.mtu.warn as usize,
            },
            local_ssrc: setup.local(side).ssrc,
            pause_threshold: setup.pause_threshold,
            intervals: ReportIntervals {
                audio: setup.intervals.audio,
                video: setup.intervals.video,
            },
            srtcp_index: setup.local(side).srtcp_index.get(),
            exts: setup.extension_map(),
            codecs: codecs(alloc, setup)?,
        },
    )?;
    match session.set_keying_material(cipher, setup.profile, &material, is_left(side)) {
        Ok(()) => Ok(session),
        Err(_) => Err(AllocError),
    }
}

/// Has a session send a stream of a media section. Its repairs, if it has them, begin with a
/// number.
fn declare<C: SrtpCipher>(
    session: &mut Session<C, MaskRegister, QueueStore<Sent>>,
    mid: Mid,
    stream: &Stream,
    first: FirstNumber,
) -> Result<(), AllocError>
    ensures stands { OnOk result (StreamsChange
        (with_stream_tx stream.now.ssrc (option_map (λ ssrc. (ssrc, first)) stream.now.rtx) mid stream.now.rid)
        session.old session.new) }
    ensures medias { session.new.state.medias ≡ session.old.state.medias }
{
    let rtx = match stream.rtx {
        Some(ssrc) => Some((ssrc, SeqNo::from(first.get()))),
        None => None,
    };
    let place = MidRid(mid, stream.rid);
    session.streams().declare_stream_tx(stream.ssrc, rtx, place)
}

/// Has a session keep what it sends on a stream, to send it again.
fn keep<C: SrtpCipher>(
    session: &mut Session<C, MaskRegister, QueueStore<Sent>>,
    ssrc: Ssrc,
    cache: Cache,
) -> Result<(), AllocError>
    ensures stands { OnOk result (StreamsChange
        (λ s. record s { repairs = change_at ssrc (recached cache.packets cache.age cache.cap) s.repairs })
        session.old session.new) }
    ensures medias { session.new.state.medias ≡ session.old.state.medias }
{
    session
        .streams()
        .set_rtx_cache(ssrc, cache.packets as usize, cache.age, cache.cap)
}

/// Has a session receive a stream of a media section. Without repairs (RFC 4588) it asks for
/// nothing that is missing.
fn expect<C: SrtpCipher>(
    session: &mut Session<C, MaskRegister, QueueStore<Sent>>,
    mid: Mid,
    stream: &Stream,
) -> Result<(), AllocError>
    ensures stands { OnOk result (StreamsChange
        (with_stream_rx stream.now.ssrc stream.now.rtx mid stream.now.rid (is_none stream.now.rtx))
        session.old session.new) }
    ensures medias { session.new.state.medias ≡ session.old.state.medias }
{
    let place = MidRid(mid, stream.rid);
    session
        .streams()
        .expect_stream_rx(stream.ssrc, stream.rtx, place, stream.rtx.is_none())
}

/// An SSRC has 32 bits, as its type says.
fn is_word(ssrc: Ssrc)
    ensures { ssrc < 2 ^ 32 }
{
    let _number = u32::from(ssrc);
}

/// The same of both SSRCs of a stream.
fn has_words(stream: &Stream)
    ensures ssrc { stream.now.ssrc < 2 ^ 32 }
    ensures rtx { (x : ℕ) → stream.now.rtx ≡ Some x → x < 2 ^ 32 }
{
    is_word(stream.ssrc);
    if let Some(rtx) = stream.rtx {
        is_word(rtx);
    }
}

/// Has a session of a side of a setup send or receive a stream of a media section.
fn add_stream<C: SrtpCipher>(
    session: &mut Session<C, MaskRegister, QueueStore<Sent>>,
    setup: &Setup,
    side: Side,
    mid: Mid,
    stream: &Stream,
) -> Result<(), AllocError>
    ensures starts { OnOk result ((cipher : CipherMeaning) (sent received : List Outgoing)
        → has_mid mid session.old.state.medias ≡ true
        → AreOnce (sent ++ option_to_list (outgoing_in setup.now side stream.now))
        → AreOnce (received ++ option_to_list (outgoing_in setup.now (peer_of side) stream.now))
        → Starts cipher setup.now side sent received session.old
        → Starts cipher setup.now side (sent ++ option_to_list (outgoing_in setup.now side stream.now))
        (received ++ option_to_list (outgoing_in setup.now (peer_of side) stream.now)) session.new) }
    ensures medias { session.new.state.medias ≡ session.old.state.medias }
{
    has_words(stream);
    if stream.side == side {
        declare(session, mid, stream, setup.start(stream.ssrc))?;
        keep(session, stream.ssrc, setup.cache(stream.ssrc))
    } else {
        expect(session, mid, stream)
    }
}

/// The same with all of these, in order.
fn add_streams<C: SrtpCipher>(
    session: &mut Session<C, MaskRegister, QueueStore<Sent>>,
    setup: &Setup,
    side: Side,
    mid: Mid,
    streams: &[Stream],
) -> Result<(), AllocError>
    ensures { OnOk result ((cipher : CipherMeaning) (sent received : List Outgoing)
        → has_mid mid session.old.state.medias ≡ true
        → AreOnce (sent ++ filter_map (outgoing_in setup.now side) streams.now)
        → AreOnce (received ++ filter_map (outgoing_in setup.now (peer_of side)) streams.now)
        → Starts cipher setup.now side sent received session.old
        → Starts cipher setup.now side (sent ++ filter_map (outgoing_in setup.now side) streams.now)
        (received ++ filter_map (outgoing_in setup.now (peer_of side)) streams.now) session.new) }
{
    for stream in streams {
        add_stream(session, setup, side, mid, stream)?;
    }
    Ok(())
}

/// Adds a media section of a setup to a session of a side, with its streams. The peer takes all
/// types of the setup, and it expects no stream but these.
fn add_media<C: SrtpCipher>(
    alloc: Global,
    session: &mut Session<C, MaskRegister, QueueStore<Sent>>,
    setup: &Setup,
    side: Side,
    media: &Media,
) -> Result<(), AllocError>
    ensures { OnOk result ((cipher : CipherMeaning) (sent received : List Outgoing)
        → AreOnce (sent ++ outgoing_at setup.now side media.now)
        → AreOnce (received ++ outgoing_at setup.now (peer_of side) media.now)
        → Starts cipher setup.now side sent received session.old
        → Starts cipher setup.now side (sent ++ outgoing_at setup.now side media.now)
        (received ++ outgoing_at setup.now (peer_of side) media.now) session.new) }
{
    let cname = Bytes::from_slice(alloc, media.cname.as_slice())?;
    let types = primary_types(alloc, setup)?;
    let mut section = Section::new(media.mid, section_kind(media.kind), cname, types);
    section.set_rid_rx(Rids::Specific(Listed::new(alloc)));
    match session.add_media(section) {
        Ok(()) => add_streams(session, setup, side, media.mid, media.streams.as_slice()),
        Err(_) => Err(AllocError),
    }
}

/// The session of a side of a setup that breaks no rule, before any step. It is in a box, which is
/// handed on quickly.
pub fn start<C: SrtpCipher>(
    alloc: Global,
    cipher: C,
    setup: &Setup,
    side: Side,
) -> Result<Box<Session<C, MaskRegister, QueueStore<Sent>>>, AllocError>
    requires { setup_fault setup.now ≡ None }
    ensures { IfOk result (λ session. IsStarted C.meaning setup.now side session.value) }
{
    let mut session = with_keys(alloc, cipher, setup, side)?;
    for media in setup.media.as_slice() {
        add_media(alloc, &mut session, setup, side, media)?;
    }
    Ok(session)
}

/// No numbers for each of the streams that a side sends.
pub fn no_numbers(alloc: Global, setup: &Setup, side: Side) -> Result<Vec<Numbers>, AllocError>
    ensures { IfOk result (λ v. (of : Party)
        → AllZip (UsedAs of []) (streams_of side setup.now) v.items) }
{
    let mut all = Vec::new(alloc);
    for _ in setup.streams(alloc, side)? {
        all.push(Numbers::new(alloc))?;
    }
    Ok(all)
}

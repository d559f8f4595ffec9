//! Two sessions that exchange a packet.
ghost use Rattle.std.specs.Prelude.{◌≡◌, ◌<◌, ◌∷◌, [], length, IfErr, IfOk, IfSome, OnOk};
ghost use Rattle.mask_register.specs.MaskRegister.{Remembers};
ghost use Rattle.queue_store.specs.Queue.{StandsFor as Holds};
ghost use Rattle.stream_core.specs.Tables.{change_place};
ghost use Rattle.stream_core.specs.TxRecord.{written};
ghost use Rattle.session_core.specs.SessionRecord.{StandsFor};
ghost use Rattle.uses.specs.Exchange.{vp8, end_of, payload_told};

use mask_register::MaskRegister;
use media_base::{Bytes, Listed};
use media_units::{Beginning, Duration, Instant};
use payload_core::{Codec, CodecConfig, CodecSpec, FormatParams, PayloadParams};
use queue_store::QueueStore;
use rtp_base::{Frequency, Mid, MidRid, Pt, SeqNo, Ssrc};
use rtp_wire::{ExtensionMap, written_header_is_read_again};
use session_core::{
    DATAGRAM_MTU, DATAGRAM_MTU_WARN, Event, Media, MediaKind, Mtu, ReportIntervals, RtcError,
    Session, SessionConfig,
};
use srtp_core::laws::{rtp_seal_keeps_header, rtp_seals_apart};
use srtp_core::{KeyingMaterial, SrtpProfile, ToyCipher};
use std::alloc::{AllocError, Global};
use stream_core::{Payload, RtpWrite, Sent};

/// One end, under the toy cipher.
pub type End = Session<ToyCipher, MaskRegister, QueueStore<Sent>>;

/// VP8 as payload type 96, without repairs.
fn codecs(alloc: Global) -> Result<CodecConfig, AllocError>
    ensures { IfOk result (λ c. c ≡ vp8) }
{
    let spec = CodecSpec {
        codec: Codec::Vp8,
        clock_rate: Frequency::NINETY_KHZ,
        channels: None,
        format: FormatParams::default(),
    };
    let params = PayloadParams::new(Pt::from(96), None, spec);
    CodecConfig::new(alloc, vec![in alloc; params]?)
}

/// The payload types that the peer takes: VP8.
fn peer_types(alloc: Global) -> Result<Listed<Pt>, AllocError>
    ensures { IfOk result (λ types. types ≡ 96 ∷ []) }
{
    Ok(Listed::from_vec(vec![in alloc; Pt::from(96)]?))
}

/// An end with the keys of one side of the material, which knows payload type 96 and has one media
/// section.
pub fn end(
    alloc: Global,
    material: &KeyingMaterial,
    mid: Mid,
    left: bool,
) -> Result<Box<End>, RtcError>
    ensures made { IfOk result (λ s. StandsFor Remembers Holds s.value (end_of material.now mid left)) }
{
    let (target, warn) = (DATAGRAM_MTU, DATAGRAM_MTU_WARN);
    let config = SessionConfig {
        id: 1,
        beginning: Beginning { unix_secs: 0 },
        mtu: Mtu { target, warn },
        local_ssrc: Ssrc::from(1),
        pause_threshold: Duration::from_millis(1_500),
        intervals: ReportIntervals {
            audio: Duration::from_secs(5),
            video: Duration::from_secs(1),
        },
        srtcp_index: 0,
        exts: ExtensionMap::empty(),
        codecs: codecs(alloc)?,
    };
    let mut session = End::boxed(alloc, config)?;
    let cname = Bytes::from_slice(alloc, b"cam")?;
    let remote_pts = peer_types(alloc)?;
    session.add_media(Media::new(mid, MediaKind::Video, cname, remote_pts))?;
    session.set_keying_material(ToyCipher, SrtpProfile::AeadAes128Gcm, material, left)?;
    Ok(session)
}

/// Writes a packet on the first stream of an end.
///
/// # Errors
/// `Memory`, also for a packet that is not written for its number or its payload.
pub fn write(end: &mut End, packet: RtpWrite) -> Result<(), RtcError>
    requires { 0 < length end.old.state.tx }
    ensures ok { OnOk result (end.new ≡ record end.old {
      state = record end.old.state { tx = change_place (written packet) end.old.state.tx 0 };
    }) }
    ensures cause { IfErr result (λ e. e ≡ RtcError.Memory) }
{
    match end.streams().tx_at(0).write_rtp(packet) {
        Ok(()) => Ok(()),
        Err(_) => Err(RtcError::Memory),
    }
}

/// Has one end write a packet, takes the datagram that it sends to the other one, and gives what
/// that one tells after that the stream is unpaused: if anything, a packet of that payload.
pub fn exchange(
    alloc: Global,
    material: &KeyingMaterial,
    mid: Mid,
    payload: &[u8],
) -> Result<Option<Event>, RtcError>
    ensures { IfOk result (λ told. IfSome told (λ e. payload_told e ≡ payload.now)) }
{
    written_header_is_read_again();
    rtp_seal_keeps_header::<ToyCipher>();
    rtp_seals_apart::<ToyCipher>();
    let (ssrc, now) = (Ssrc::from(42), Instant::from_nanos(1));
    let mut sending = end(alloc, material, mid, true)?;
    let mut receiving = end(alloc, material, mid, false)?;
    let a = &mut *sending;
    let b = &mut *receiving;
    a.streams()
        .declare_stream_tx(ssrc, None, MidRid(mid, None))?;
    b.streams()
        .expect_stream_rx(ssrc, None, MidRid(mid, None), false)?;
    let payload = Payload::from_slice(alloc, payload)?;
    let packet = RtpWrite::new(Pt::from(96), SeqNo::from(1), 0, now, payload);
    write(a, packet)?;
    a.handle_timeout(now)?;
    let Some(sent) = a.poll_datagram(now)? else {
        return Ok(None);
    };
    b.handle_rtp_receive(now, sent.bytes.as_slice())?;
    let _unpaused = b.poll_event();
    Ok(b.poll_event())
}

//! Ends, and what the tests of all subjects do with one.
ghost use Rattle.std.specs.Prelude.{◌≤◌, IfSome};
ghost use Rattle.std.specs.Option.{ForSome};

use crate::calls::streams;
use mask_register::MaskRegister;
use media_base::{Bytes, Listed};
use media_units::{Beginning, Duration, Instant};
use payload_core::{Codec, CodecConfig, CodecSpec, FormatParams, PayloadParams};
use queue_store::QueueStore;
use rtp_base::{Frequency, KeyframeRequestKind, Mid, MidRid, NUMBER_LIMIT, Pt, Rid, SeqNo, Ssrc};
use rtp_wire::ExtensionMap;
use session_core::{
    GREATEST_WARN, LEAST_TARGET, Media, MediaKind, Mtu, ReportIntervals, RtcError, Session,
    SessionConfig,
};
use srtp_core::{KeyingMaterial, SRTCP_INDEX_LIMIT, SrtpProfile, ToyCipher};
use std::alloc::Global;
use stream_core::{RtpWrite, Sent};

/// One end with the toy cipher.
pub type End = Session<ToyCipher, MaskRegister, QueueStore<Sent>>;

/// A moment in nanoseconds.
pub fn at(moment: u64) -> Instant {
    Instant::from_nanos(moment)
}

/// The moment of calls whose moment does not matter: one second and a half after the beginning.
pub fn moment() -> Instant {
    Instant::from_nanos(1_500_000_000)
}

/// When the first report is due of a stream that receives, or of one that sends whose kind was
/// told: 10,000,000 s after moment 0, in nanoseconds.
pub const FIRST_REPORT: u64 = 10_000_000_000_000_000;

/// The media section v.
pub fn mid() -> Mid {
    match Mid::from_slice(b"v") {
        Some(mid) => mid,
        None => unreachable!(),
    }
}

/// Which stream of its media section it is.
pub fn rid() -> Rid {
    match Rid::from_slice(b"hi") {
        Some(rid) => rid,
        None => unreachable!(),
    }
}

/// The SSRC of these low 8 bits.
pub fn ssrc(low: u8) -> Ssrc {
    Ssrc::from(u32::from(low))
}

// A type of video.
fn video(pt: u8, resend: Option<Pt>, red: Option<Pt>) -> PayloadParams {
    let spec = CodecSpec {
        codec: Codec::Vp8,
        clock_rate: Frequency::NINETY_KHZ,
        channels: None,
        format: FormatParams::default(),
    };
    PayloadParams {
        red,
        ..PayloadParams::new(Pt::from(pt), resend, spec)
    }
}

// Type 97 repairs type 96, which is sent under type 98 with older frames; type 100 has no repairs.
fn codecs(alloc: Global) -> Option<CodecConfig> {
    let first = video(96, Some(Pt::from(97)), Some(Pt::from(98)));
    let Ok(params) = vec![in alloc; first, video(100, None, None)] else {
        return None;
    };
    CodecConfig::new(alloc, params).ok()
}

/// What both ends are made with: the types that they know, and header extensions. Their own SSRC is
/// 2. Their reports are so far apart that none is due.
pub fn config(alloc: Global, exts: ExtensionMap) -> Option<SessionConfig>
    ensures target { IfSome result (λ c. LEAST_TARGET ≤ c.mtu.target) }
    ensures order { IfSome result (λ c. c.mtu.target ≤ c.mtu.warn) }
    ensures warn { IfSome result (λ c. c.mtu.warn ≤ GREATEST_WARN) }
    ensures index { IfSome result (λ c. c.srtcp_index ≤ SRTCP_INDEX_LIMIT) }
{
    let codecs = codecs(alloc)?;
    Some(SessionConfig {
        id: 1,
        beginning: Beginning {
            unix_secs: 1_700_000_000,
        },
        mtu: Mtu {
            target: 1_150usize.clamp(LEAST_TARGET, GREATEST_WARN),
            warn: GREATEST_WARN,
        },
        local_ssrc: Ssrc::from(2),
        pause_threshold: Duration::from_millis(1_500),
        intervals: ReportIntervals {
            audio: Duration::from_secs(10_000_000),
            video: Duration::from_secs(10_000_000),
        },
        srtcp_index: 0,
        exts,
        codecs,
    })
}

/// Gives an end keys of zeros.
pub fn give_keys(alloc: Global, end: &mut End, left: bool) -> bool {
    let Ok(material) = KeyingMaterial::new(alloc, &[0; 56]) else {
        return false;
    };
    let profile = SrtpProfile::AeadAes128Gcm;
    end.set_keying_material(ToyCipher, profile, &material, left)
        .is_ok()
}

/// A new end.
pub fn new_end(alloc: Global, config: SessionConfig) -> Option<Box<End>>
    requires target { LEAST_TARGET ≤ config.mtu.target }
    requires order { config.mtu.target ≤ config.mtu.warn }
    requires warn { config.mtu.warn ≤ GREATEST_WARN }
    requires index { config.srtcp_index ≤ SRTCP_INDEX_LIMIT }
{
    End::boxed(alloc, config).ok()
}

/// A media section, whose peer takes type 96.
pub fn section(alloc: Global, mid: Mid, kind: MediaKind, cname: &[u8]) -> Option<Media> {
    let Ok(cname) = Bytes::from_slice(alloc, cname) else {
        return None;
    };
    let Ok(remote_pts) = vec![in alloc; Pt::from(96)] else {
        return None;
    };
    Some(Media::new(mid, kind, cname, Listed::from_vec(remote_pts)))
}

/// Adds a media section, whose peer takes type 96.
pub fn add_section(alloc: Global, end: &mut End, mid: Mid, kind: MediaKind, cname: &[u8]) -> bool {
    match section(alloc, mid, kind, cname) {
        Some(media) => !media.disabled() && end.add_media(media).is_ok(),
        None => false,
    }
}

/// Has an end receive on an SSRC, with repairs on another. It asks for what is missing, or does
/// not.
pub fn expect(end: &mut End, low: u8, rtx: Option<Ssrc>, mid_rid: MidRid, suppress: bool) -> bool {
    streams(end)
        .expect_stream_rx(ssrc(low), rtx, mid_rid, suppress)
        .is_ok()
}

// The SSRC of repairs and the number of the first, at most 2^48.
fn repairs_of(repairs: Option<(u8, u64)>) -> Option<(Ssrc, SeqNo)>
    ensures { ForSome result (λ x. x.1 ≤ NUMBER_LIMIT) }
{
    match repairs {
        Some((low, first)) => {
            let first = first.min(NUMBER_LIMIT);
            Some((ssrc(low), SeqNo::from(first)))
        }
        None => None,
    }
}

/// Has an end send on an SSRC, with repairs on another from a number on, or without repairs.
pub fn declare(end: &mut End, low: u8, repairs: Option<(u8, u64)>, mid_rid: MidRid) -> bool {
    let repairs = repairs_of(repairs);
    streams(end)
        .declare_stream_tx(ssrc(low), repairs, mid_rid)
        .is_ok()
}

/// Has an end send what it sends on an SSRC under another one, which it does not use yet, with
/// repairs on a third from a number on, or without repairs.
pub fn reset(end: &mut End, low: u8, other: u8, repairs: Option<(u8, u64)>) -> bool {
    let repairs = repairs_of(repairs);
    let streams = streams(end);
    let other = ssrc(other);
    if streams.tx_place(other).is_some() {
        return false;
    }
    streams.reset_ssrc(ssrc(low), other, repairs).is_ok()
}

/// Has an end keep so many packets of SSRC 42, for so long, with so many hundredths of repairs, or
/// any number.
pub fn keeps(end: &mut End, packets: usize, age: u64, cap: Option<u32>) -> bool {
    let age = Duration::from_nanos(age);
    streams(end)
        .set_rtx_cache(ssrc(42), packets, age, cap)
        .is_ok()
}

/// Writes a packet on the stream of this SSRC; whether there is one.
pub fn put(end: &mut End, low: u8, write: RtpWrite) -> bool {
    let streams = streams(end);
    match streams.tx_place(ssrc(low)) {
        Some(place) => streams.tx_at(place).write_rtp(write).is_ok(),
        None => false,
    }
}

/// Has the stream that receives on an SSRC ask for a key frame; whether there is one.
pub fn ask_frame(end: &mut End, low: u8, kind: KeyframeRequestKind) -> bool {
    let streams = streams(end);
    let Some(place) = streams.rx_place(ssrc(low)) else {
        return false;
    };
    streams.rx_at(place).request_keyframe(kind);
    true
}

/// Has a fresh end send on SSRC 42.
pub fn prepare_sender(alloc: Global, end: &mut End) -> bool {
    let added = add_section(alloc, end, mid(), MediaKind::Video, b"cam");
    let declared = declare(end, 42, None, MidRid(mid(), Some(rid())));
    added && declared
}

/// Has an end receive on SSRC 42.
pub fn expect_stream(end: &mut End) -> bool {
    expect(end, 42, None, MidRid(mid(), Some(rid())), false)
}

/// Whether a call ended with this error.
pub fn ended_with<T>(answer: &Result<T, RtcError>, error: &RtcError) -> bool {
    match answer {
        Err(found) => found == error,
        Ok(_) => false,
    }
}

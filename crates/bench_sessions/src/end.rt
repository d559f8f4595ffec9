// A session as an end: one stream, the toy cipher under AEAD_AES_128_GCM, and the register with a
// mask.
ghost use Rattle.std.specs.Prelude.{◌<◌, ◌≤◌, length};

use crate::peer::{Given, Peer, Role, moment};
use bench_rounds::answer;
use mask_register::MaskRegister;
use media_base::{Bytes, Listed};
use media_units::{Beginning, Duration, Instant};
use payload_core::{Codec, CodecConfig, CodecSpec, FormatParams, PayloadParams};
use queue_store::QueueStore;
use rtp_base::{Frequency, MidRid, NackEntry, Pt, SeqNo, Ssrc};
use rtp_wire::ExtensionMap;
use session_core::{
    DATAGRAM_MTU, DATAGRAM_MTU_WARN, Drained, GREATEST_WARN, LEAST_TARGET, Media, MediaKind, Mtu,
    ReportIntervals, Session, SessionConfig,
};
use srtp_core::{KeyingMaterial, SRTCP_INDEX_LIMIT, SrtpProfile, ToyCipher};
use std::alloc::{AllocError, Global};
use stream_core::{Payload, RtpWrite, Sent, Streams};

/// A session of the benchmark.
pub type End = Session<ToyCipher, MaskRegister, QueueStore<Sent>>;

type Tables = Streams<MaskRegister, QueueStore<Sent>>;

// VP8 as type 96, whose repairs have type 97.
fn codecs(alloc: Global) -> Result<CodecConfig, AllocError> {
    let spec = CodecSpec {
        codec: Codec::Vp8,
        clock_rate: Frequency::NINETY_KHZ,
        channels: None,
        format: FormatParams::default(),
    };
    let params = PayloadParams::new(Pt::from(96), Some(Pt::from(97)), spec);
    CodecConfig::new(alloc, vec![in alloc; params]?)
}

// What a session is made with.
fn config(codecs: CodecConfig) -> SessionConfig
    ensures target { LEAST_TARGET ≤ result.mtu.target }
    ensures order { result.mtu.target ≤ result.mtu.warn }
    ensures warn { result.mtu.warn ≤ GREATEST_WARN }
    ensures index { result.srtcp_index ≤ SRTCP_INDEX_LIMIT }
{
    SessionConfig {
        id: 1,
        beginning: Beginning {
            unix_secs: 1_700_000_000,
        },
        mtu: Mtu {
            target: DATAGRAM_MTU,
            warn: DATAGRAM_MTU_WARN,
        },
        local_ssrc: Ssrc::from(1),
        pause_threshold: Duration::from_millis(1_500),
        intervals: ReportIntervals {
            audio: Duration::from_secs(5),
            video: Duration::from_secs(1),
        },
        srtcp_index: 0,
        exts: ExtensionMap::empty(),
        codecs,
    }
}

fn declare(streams: &mut Tables, at: &MidRid) -> Result<(), AllocError> {
    streams.declare_stream_tx(Ssrc::from(42), None, *at)
}

fn declare_repaired(streams: &mut Tables, at: &MidRid) -> Result<(), AllocError> {
    let (ssrc, rtx) = (Ssrc::from(42), Ssrc::from(43));
    streams.declare_stream_tx(ssrc, Some((rtx, SeqNo::from(1))), *at)?;
    streams.set_rtx_cache(ssrc, 2_000, Duration::from_secs(3), None)
}

fn expect(streams: &mut Tables, at: &MidRid) -> Result<(), AllocError> {
    streams.expect_stream_rx(Ssrc::from(42), None, *at, false)
}

fn add_to(streams: &mut Tables, role: Role, at: &MidRid) -> Result<(), AllocError> {
    match role {
        Role::Sender => declare(streams, at),
        Role::Repairer => declare_repaired(streams, at),
        Role::Receiver => expect(streams, at),
    }
}

// A packet of type 96, which may be sent again.
fn packet(number: u64, payload: Payload) -> RtpWrite {
    let seq = SeqNo::from(number % 0x1_0000_0000_0000);
    RtpWrite::new(Pt::from(96), seq, 0, moment(number), payload).nackable(true)
}

// Writes a packet on the first stream.
fn write_first(streams: &mut Tables, write: RtpWrite) -> Result<(), AllocError> {
    if streams.tx_len() == 0 {
        return Ok(());
    }
    answer(streams.tx_at(0).write_rtp(write))
}

fn ask_of(streams: &mut Tables, now: Instant) -> Result<(), AllocError> {
    let entry = NackEntry { pid: 0, blp: 0 };
    streams.handle_nack(Ssrc::from(42), &[entry], now)
}

fn given(drained: Drained) -> Given {
    Given {
        events: drained.events.len(),
        datagrams: drained.datagrams,
    }
}

impl Peer for End {
    fn fresh(alloc: Global) -> Result<Box<Self>, AllocError> {
        let codecs = codecs(alloc)?;
        End::boxed(alloc, config(codecs))
    }

    fn add_media(&mut self, alloc: Global, at: &MidRid) -> Result<(), AllocError> {
        let cname = Bytes::from_slice(alloc, b"cam")?;
        let remote_pts = Listed::from_vec(vec![in alloc; Pt::from(96)]?);
        answer(self.add_media(Media::new(at.0, MediaKind::Video, cname, remote_pts)))
    }

    fn give_keys(&mut self, alloc: Global, left: bool) -> Result<(), AllocError> {
        let material = KeyingMaterial::new(alloc, &[0; 56])?;
        let profile = SrtpProfile::AeadAes128Gcm;
        answer(self.set_keying_material(ToyCipher, profile, &material, left))
    }

    fn add_stream(&mut self, role: Role, at: &MidRid) -> Result<(), AllocError> {
        add_to(self.streams(), role, at)
    }

    fn write(&mut self, alloc: Global, number: u64, bytes: &[u8]) -> Result<(), AllocError> {
        let payload = Payload::from_slice(alloc, bytes)?;
        write_first(self.streams(), packet(number, payload))
    }

    fn ask(&mut self, now: Instant) -> Result<(), AllocError> {
        ask_of(self.streams(), now)
    }

    fn tick(&mut self, now: Instant) -> Result<(), AllocError> {
        answer(self.handle_timeout(now))
    }

    fn open(&mut self, bytes: &[u8]) -> Result<bool, AllocError> {
        let opened = answer(self.handle_rtp_receive(moment(0), bytes))?;
        Ok(opened.is_some())
    }

    fn take(&mut self, now: Instant) -> Result<Given, AllocError> {
        match self.drain(now) {
            Ok(drained) => Ok(given(drained)),
            Err(_) => Err(AllocError),
        }
    }
}

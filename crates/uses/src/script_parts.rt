//! The parts of a script, made in code, with what most of them have alike filled in.
ghost use Rattle.std.specs.Prelude.{◌≡◌, [], None, false};
ghost use Rattle.media_model.specs.Steps.{step_at};

use media_base::{Bytes, Listed};
use media_model::{
    Act, CipherName, Codec, DEFAULT_AUDIO_NANOS, DEFAULT_MTU_TARGET, DEFAULT_MTU_WARN,
    DEFAULT_PAUSE_THRESHOLD_NANOS, DEFAULT_VIDEO_NANOS, Key, Local, Media, MediaKind, Mtu,
    PayloadType, ReportTimes, Setup, Side, Sources, SrtcpIndex, Step, Stream, Write,
};
use media_script::DEFAULT_UNIX_SECS;
use media_units::{Beginning, Duration, Instant};
use rtp_wire::{Mid, Pt, SeqNo, Ssrc};
use srtp_core::SrtpProfile;
use std::alloc::Global;

/// A payload type that both sides know, with its clock in ticks a second, without repairs.
pub fn payload_type(pt: u8, codec: Codec, rate: u32) -> PayloadType
    ensures { result ≡ record { pt = pt; codec = codec; rate = rate; rtx = None; red = None; pli = false; fir = false } }
{
    PayloadType {
        pt: Pt::from(pt),
        codec,
        rate,
        rtx: None,
        red: None,
        pli: false,
        fir: false,
    }
}

/// A stream that a side sends, without repairs and without a name of its layer.
pub fn stream(side: Side, ssrc: u32) -> Stream
    ensures { result ≡ record { side = side; ssrc = ssrc; rtx = None; rid = None } }
{
    Stream {
        side,
        ssrc: Ssrc::from(ssrc),
        rtx: None,
        rid: None,
    }
}

/// A media section of pictures with its streams.
pub fn video(mid: Mid, cname: Bytes, streams: Vec<Stream>) -> Media
    ensures { result ≡ record {
      mid = mid;
      kind = MediaKind.Video;
      cname = cname;
      streams = streams.items;
    } }
{
    Media {
        mid,
        kind: MediaKind::Video,
        cname,
        streams: Listed::from_vec(streams),
    }
}

/// What a side alone brings, of this SSRC, whose first SRTCP datagram has the index 0.
pub fn local(ssrc: u32) -> Local
    ensures { result ≡ record { ssrc = ssrc; srtcp_index = 0 } }
{
    Local {
        ssrc: Ssrc::from(ssrc),
        srtcp_index: SrtcpIndex::FIRST,
    }
}

/// A setup with the toy cipher, the profile of 128 bits and keys of zeros, without header
/// extensions. The beginning, the MTU, the threshold of pauses, the intervals of reports and what
/// each side alone brings are those of a script without a line for them.
pub fn setup(alloc: Global, types: Vec<PayloadType>, media: Vec<Media>) -> Setup
    ensures { result ≡ record {
      cipher = CipherName.Toy;
      profile = SrtpProfile.AeadAes128Gcm;
      key = Key.Zero;
      beginning = record { unix_secs = DEFAULT_UNIX_SECS };
      mtu = record { target = DEFAULT_MTU_TARGET; warn = DEFAULT_MTU_WARN };
      pause_threshold = DEFAULT_PAUSE_THRESHOLD_NANOS;
      intervals = record { audio = DEFAULT_AUDIO_NANOS; video = DEFAULT_VIDEO_NANOS };
      a = record { ssrc = 1; srtcp_index = 0 };
      b = record { ssrc = 2; srtcp_index = 0 };
      exts = [];
      types = types.items;
      media = media.items;
      starts = [];
      caches = [];
    } }
{
    Setup {
        cipher: CipherName::Toy,
        profile: SrtpProfile::AeadAes128Gcm,
        key: Key::Zero,
        beginning: Beginning {
            unix_secs: DEFAULT_UNIX_SECS,
        },
        mtu: Mtu::default(),
        pause_threshold: Duration::from_nanos(DEFAULT_PAUSE_THRESHOLD_NANOS),
        intervals: ReportTimes::default(),
        a: local(1),
        b: local(2),
        exts: Listed::new(alloc),
        types: Listed::from_vec(types),
        media: Listed::from_vec(media),
        starts: Listed::new(alloc),
        caches: Listed::new(alloc),
    }
}

/// A packet at RTP time 0, without marker and contributing sources, that is not sent again.
pub fn packet(ssrc: u32, number: u64, pt: u8, payload: Bytes) -> Write
    ensures { result ≡ record {
      ssrc = ssrc;
      number = number;
      pt = pt;
      rtp_time = 0;
      marker = false;
      nackable = false;
      csrc = [];
      payload = payload;
    } }
{
    Write {
        ssrc: Ssrc::from(ssrc),
        number: SeqNo::from(number),
        pt: Pt::from(pt),
        rtp_time: 0,
        marker: false,
        nackable: false,
        csrc: Sources::none(),
        payload,
    }
}

/// The step in which a side's application writes a packet.
pub fn write(side: Side, time: Instant, write: Write) -> Step
    ensures { result ≡ step_at side time (Act.Write write) }
{
    Step {
        side,
        time,
        act: Act::Write(write),
    }
}

/// The step in which a side's time goes on.
pub fn tick(side: Side, time: Instant) -> Step
    ensures { result ≡ step_at side time Act.Tick }
{
    Step {
        side,
        time,
        act: Act::Tick,
    }
}

/// The step in which a side gets the datagram that the other one sealed under this number, counted
/// from 1.
pub fn deliver(side: Side, time: Instant, datagram: u64) -> Step
    ensures { result ≡ step_at side time (Act.Deliver datagram) }
{
    Step {
        side,
        time,
        act: Act::Deliver { datagram },
    }
}

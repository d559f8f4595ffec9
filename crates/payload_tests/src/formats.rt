ghost use Rattle.std.specs.Prelude.{◌≡◌, ◌∷◌, ◌++◌, []};

use media_base::{Bytes, Listed};
use media_units::Instant;
use payload_core::{
    Codec, CodecConfig, CodecSpec, FormatParams, MediaKind, MediaPacket, PacketError, PacketSink,
    PayloadParams, Payloader, RedBlock, RedEncoder, RedSender, RedSink,
};
use rtp_base::{Frequency, MediaTime, Pt};
use rtp_wire::ExtensionValues;
use std::alloc::{AllocError, Global};

fn spec(codec: Codec, clock_rate: Frequency) -> CodecSpec {
    CodecSpec {
        codec,
        clock_rate,
        channels: None,
        format: FormatParams::default(),
    }
}

#[derive(Drop)]
struct Kept {
    packets: Listed<MediaPacket>,
}

impl PacketSink for Kept {
    ghost takes = { λ s p t. t.packets ≡ s.packets ++ p ∷ [] };

    fn write_packet(&mut self, packet: MediaPacket) -> Result<(), AllocError> {
        self.packets.push(packet)
    }
}

fn packet(alloc: Global, payload: &[u8]) -> Result<MediaPacket, AllocError> {
    Ok(MediaPacket {
        pt: Pt::from(111),
        rtp_time: MediaTime::new(0, Frequency::FORTY_EIGHT_KHZ),
        wallclock: Instant::from_nanos(0),
        start_of_talk_spurt: false,
        ext_vals: ExtensionValues::none(),
        payload: Bytes::from_slice(alloc, payload)?,
    })
}

fn is_payload(packet: &MediaPacket, payload: &[u8]) -> bool {
    packet.payload.as_slice() == payload
}

/// Frames of a format, the greatest length, and why one is refused.
type Row = (Codec, usize, Option<PacketError>);

static FRAMES: [Row; 5] = [
    (Codec::Opus, 3, None),
    (Codec::Pcmu, 2, Some(PacketError::TooBig)),
    (Codec::Vp8, 2, Some(PacketError::Unsupported)),
    (Codec::Telephone, 2, Some(PacketError::TooBig)),
    (Codec::Telephone, 3, Some(PacketError::ShortTelephone)),
];

// Whether a frame of three bytes goes so.
fn goes(alloc: Global, kept: &mut Kept, row: &Row) -> Result<bool, AllocError> {
    let frame = packet(alloc, &[1, 2, 3])?;
    let mut payloader = Payloader::new(spec(row.0, Frequency::EIGHT_KHZ));
    let sent = payloader.push_sample(frame, row.1, kept);
    Ok(sent.err() == row.2)
}

fn all_go(alloc: Global, kept: &mut Kept) -> Result<bool, AllocError> {
    for row in &FRAMES {
        if !goes(alloc, kept, row)? {
            return Ok(false);
        }
    }
    Ok(true)
}

// Whether the first frame alone went out.
fn has_first(kept: &Kept) -> bool {
    match kept.packets.as_slice() {
        [only] => is_payload(only, &[1, 2, 3]),
        _ => false,
    }
}

#[test]
fn frames_go_out_as_in(rt: HostRuntime) {
    let mut kept = Kept {
        packets: Listed::new(rt.alloc()),
    };
    let gone = all_go(rt.alloc(), &mut kept);
    assert!(rt; gone == Ok(true) && has_first(&kept));
}

// Whether a frame of this byte goes out through a sender of RED.
fn goes_by_red(
    alloc: Global,
    payloader: &mut Payloader,
    kept: &mut Kept,
    sender: &mut RedSender,
    frame: u8,
) -> Result<bool, AllocError> {
    let packet = packet(alloc, &[frame])?;
    let mut sink = RedSink::new(alloc, kept, sender, 1_200);
    let sent = payloader.push_sample(packet, 1_199, &mut sink);
    Ok(sent.is_ok())
}

fn both_go_by_red(alloc: Global, kept: &mut Kept) -> Result<bool, AllocError> {
    let mut sender = RedSender::new(alloc, Pt::from(63), Pt::from(111), &[1])?;
    let mut payloader = Payloader::new(spec(Codec::Opus, Frequency::FORTY_EIGHT_KHZ));
    let first = goes_by_red(alloc, &mut payloader, kept, &mut sender, 1)?;
    let second = goes_by_red(alloc, &mut payloader, kept, &mut sender, 2)?;
    Ok(first && second)
}

// Whether two went out, the second behind the first.
fn has_second_behind_first(kept: &Kept) -> bool {
    match kept.packets.as_slice() {
        [_, second] => {
            second.pt == Pt::from(63) && is_payload(second, &[0xef, 0, 0, 1, 0x6f, 1, 2])
        }
        _ => false,
    }
}

// Two frames of one time on their way through a sender of RED: the second goes out behind the
// first.
#[test]
fn frames_go_out_behind_older_ones(rt: HostRuntime) {
    let mut kept = Kept {
        packets: Listed::new(rt.alloc()),
    };
    let gone = both_go_by_red(rt.alloc(), &mut kept);
    assert!(rt; gone == Ok(true) && has_second_behind_first(&kept));
}

fn params_of(pt: u8, codec: Codec) -> PayloadParams {
    let spec = spec(codec, Frequency::FORTY_EIGHT_KHZ);
    PayloadParams::new(Pt::from(pt), None, spec)
}

fn config(alloc: Global) -> Result<CodecConfig, AllocError> {
    let mut params = Vec::new(alloc);
    params.push(PayloadParams::new(
        Pt::from(96),
        Some(Pt::from(97)),
        spec(Codec::Vp8, Frequency::NINETY_KHZ),
    ))?;
    params.push(params_of(111, Codec::Opus))?;
    params.push(params_of(110, Codec::Telephone))?;
    CodecConfig::new(alloc, params)
}

fn hears_opus(config: &CodecConfig) -> bool {
    match config.all_for_kind(MediaKind::Audio).next() {
        Some(heard) => heard.pt == Pt::from(111),
        None => false,
    }
}

// Which of the types carries the same as a type of this codec.
fn matched(config: &CodecConfig, codec: Codec) -> Option<Pt> {
    let known = config.match_params(params_of(1, codec))?;
    Some(known.pt)
}

// A type of media is known, one of its repairs is none of media; and the number is no part of what
// types carry.
fn knows_types(config: &CodecConfig) -> bool {
    let known = config.has_pt(Pt::from(96)) && !config.has_pt(Pt::from(97));
    let opus = matched(config, Codec::Opus) == Some(Pt::from(111));
    known && opus && matched(config, Codec::Pcmu).is_none()
}

#[test]
fn types_are_found(rt: HostRuntime) {
    let found = match config(rt.alloc()) {
        Ok(config) => knows_types(&config),
        Err(_) => false,
    };
    assert!(rt; found);
}

// Whether RED repeats other frames once that is set.
fn goes_farther(config: &mut CodecConfig, distances: Vec<u32>) -> bool {
    let near = config.red_distances() == [1].as_slice();
    config.set_red_distances(distances);
    near && config.red_distances() == [1, 2].as_slice()
}

// Probes are of no codec, in the clock of video.
fn is_probe(probe: PayloadParams) -> bool {
    let spec = spec(Codec::Null, Frequency::NINETY_KHZ);
    probe.pt == Pt::from(99) && probe.spec == spec && probe.fb_transport_cc && !probe.fb_pli
}

fn has_three(config: &CodecConfig) -> bool {
    config.len() == 3 && !config.is_empty() && config.iter().all(|params| params.red.is_none())
}

fn is_configured(alloc: Global) -> Result<bool, AllocError> {
    let distances = vec![in alloc; 1, 2]?;
    let mut config = config(alloc)?;
    let far = goes_farther(&mut config, distances);
    let events = config.tele_event_max(Pt::from(110)) == Some(15);
    let probe = is_probe(PayloadParams::new_probe(Pt::from(99)));
    Ok(far && events && probe && has_three(&config) && hears_opus(&config))
}

fn is_encoded(alloc: Global) -> Result<bool, AllocError> {
    let primary = RedBlock {
        pt: Pt::from(111),
        timestamp_offset: 0,
        payload: &[1, 2],
        is_primary: true,
    };
    let bytes = RedEncoder::encode(alloc, &[primary])?;
    Ok(bytes.as_slice() == [0x6f, 1, 2].as_slice())
}

// Each call that takes memory, and that no other test makes, answers with ample memory.
#[test]
fn surface_ample(rt: HostRuntime) {
    assert!(rt; is_configured(rt.alloc()) == Ok(true));
    assert!(rt; is_encoded(rt.alloc()) == Ok(true));
}

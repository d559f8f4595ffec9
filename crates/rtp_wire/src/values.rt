ghost use Rattle.std.specs.Prelude.{◌≡◌, ◌%◌, ◌<◌, ◌≤◌, ◌^◌, length};
ghost use Rattle.rtp_wire.specs.Reading.{transport_in, send_time_in, level_in, voice_in, turn_in, capture_in, least_delay_in, greatest_delay_in};

use crate::extension::{Extension, ExtensionMap, RESERVED_ID};
use crate::{AbsCaptureTime, AbsSendTime};
use rtp_base::wire::{double, half, triple};
use rtp_base::{Frequency, MediaTime, Mid, Rid};

/// The profile of an extension in the one-byte form (RFC 8285 section 4.2).
pub const ONE_BYTE_PROFILE: u16 = 0xbede;

/// The upper 12 bits of the profile of one in the two-byte form (RFC 8285 section 4.3).
pub const TWO_BYTE_PROFILE: u16 = 0x100;

/// The greatest number that tells how far below 0 dB a level is: it has 7 bits (RFC 6464 section
/// 3).
pub const MAX_MINUS_LEVEL: u8 = 127;

/// The most steps of 10 ms of a playout delay: it has 12 bits.
pub const MAX_DELAY_STEPS: u64 = 4_095;

/// How the picture has to be turned to be shown upright, in degrees clockwise.
#[derive(Clone, Copy, Debug, PartialEq, Eq)]
pub enum VideoOrientation {
    /// It is upright.
    Deg0,
    /// By 90 degrees.
    Deg90,
    /// By 180 degrees.
    Deg180,
    /// By 270 degrees.
    Deg270,
}

/// The values that a header extension may carry.
#[derive(Clone, Copy, Debug, PartialEq, Eq)]
pub struct ExtensionValues {
    /// The level of the audio in dB, from -127 to 0.
    pub audio_level: Option<i8>,
    /// Whether the audio is voice. It is written together with `audio_level`.
    pub voice_activity: Option<bool>,
    /// How the picture has to be turned.
    pub video_orientation: Option<VideoOrientation>,
    /// When the packet was sent.
    pub abs_send_time: Option<AbsSendTime>,
    /// The low 16 bits of the packet's number on its transport.
    pub transport_cc: Option<u16>,
    /// The least delay until the media is played, in steps of 10 ms up to 40,950 ms.
    pub play_delay_min: Option<MediaTime>,
    /// The greatest delay. It is written together with `play_delay_min`.
    pub play_delay_max: Option<MediaTime>,
    /// The stream of the packet.
    pub rid: Option<Rid>,
    /// The stream that the packet repairs.
    pub rid_repair: Option<Rid>,
    /// The media section of the packet.
    pub mid: Option<Mid>,
    /// When the media was captured.
    pub abs_capture_time: Option<AbsCaptureTime>,
}

impl ExtensionValues {
    ghost use Rattle.rtp_wire.specs.Extensions.{no_values, with_value, with_elements, one_byte_elements, two_byte_elements, values_of};

    /// No values.
    pub fn none() -> Self
        ensures { result ≡ no_values }
    {
        ExtensionValues {
            audio_level: None,
            voice_activity: None,
            video_orientation: None,
            abs_send_time: None,
            transport_cc: None,
            play_delay_min: None,
            play_delay_max: None,
            rid: None,
            rid_repair: None,
            mid: None,
            abs_capture_time: None,
        }
    }

    // Takes in an element of an extension.
    fn take_in(&mut self, extension: Option<Extension>, bytes: &[u8])
        ensures { self.new ≡ with_value self.old extension bytes.now }
    {
        let Some(extension) = extension else {
            return;
        };
        match extension {
            Extension::AudioLevel => {
                self.audio_level = level_in(bytes).or(self.audio_level);
                self.voice_activity = voice_in(bytes).or(self.voice_activity);
            }
            Extension::AbsoluteSendTime => {
                self.abs_send_time = send_time_in(bytes).or(self.abs_send_time);
            }
            Extension::TransportSequenceNumber => {
                self.transport_cc = transport_in(bytes).or(self.transport_cc);
            }
            Extension::RtpMid => {
                if let Some(mid) = Mid::from_slice(bytes) {
                    self.mid = Some(mid);
                }
            }
            Extension::RtpStreamId => {
                if let Some(rid) = Rid::from_slice(bytes) {
                    self.rid = Some(rid);
                }
            }
            Extension::RepairedRtpStreamId => {
                if let Some(rid) = Rid::from_slice(bytes) {
                    self.rid_repair = Some(rid);
                }
            }
            Extension::VideoOrientation => {
                self.video_orientation = turn_in(bytes).or(self.video_orientation);
            }
            Extension::AbsoluteCaptureTime => {
                self.abs_capture_time = capture_in(bytes).or(self.abs_capture_time);
            }
            Extension::PlayoutDelay => {
                self.play_delay_min = least_delay_in(bytes).or(self.play_delay_min);
                self.play_delay_max = greatest_delay_in(bytes).or(self.play_delay_max);
            }
        }
    }

    // Takes in the elements of the one-byte form.
    fn read_one_byte(&mut self, exts: &ExtensionMap, bytes: &[u8])
        ensures { self.new ≡ with_elements exts.now self.old (one_byte_elements 0 bytes.now) }
    {
        let mut at = 0;
        while at < bytes.len() {
            let head = bytes[at];
            let (_, tail) = bytes.split_at(at + 1);
            if head == 0 {
                at += 1;
                continue;
            }
            let id = head / 16;
            let len = usize::from(head % 16) + 1;
            if id == RESERVED_ID {
                return;
            }
            if tail.len() < len {
                return;
            }
            let (data, _) = tail.split_at(len);
            self.take_in(exts.named_by(id), data);
            at += 1 + len;
        }
    }

    // Takes in the elements of the two-byte form.
    fn read_two_byte(&mut self, exts: &ExtensionMap, bytes: &[u8])
        ensures { self.new ≡ with_elements exts.now self.old (two_byte_elements 0 bytes.now) }
    {
        let mut at = 0;
        while at < bytes.len() {
            let id = bytes[at];
            if id == 0 {
                at += 1;
                continue;
            }
            if at + 1 == bytes.len() {
                return;
            }
            let len = usize::from(bytes[at + 1]);
            let (_, tail) = bytes.split_at(at + 2);
            if tail.len() < len {
                return;
            }
            let (data, _) = tail.split_at(len);
            self.take_in(exts.named_by(id), data);
            at += 2 + len;
        }
    }

    /// Takes in the values of an extension of this profile, where there are none yet.
    #[tactic(auto, unfolding(crate::specs::Extensions::values_of, crate::specs::Extensions::with_elements))]
    pub(crate) fn fill(&mut self, exts: &ExtensionMap, profile: u16, bytes: &[u8])
        requires { self.old ≡ no_values }
        ensures { self.new ≡ values_of exts.now profile bytes.now }
    {
        if profile == ONE_BYTE_PROFILE {
            self.read_one_byte(exts, bytes);
        } else if profile / 16 == TWO_BYTE_PROFILE {
            self.read_two_byte(exts, bytes);
        }
    }

    /// The values that an extension of this profile has under a map (RFC 8285 sections 4.2 and
    /// 4.3): none where the profile is neither 0xBEDE nor one from 0x1000 to 0x100F.
    pub fn read(exts: &ExtensionMap, profile: u16, bytes: &[u8]) -> Self
        ensures { result ≡ values_of exts.now profile bytes.now }
    {
        let mut values = ExtensionValues::none();
        values.fill(exts, profile, bytes);
        values
    }
}

fn transport_in(bytes: &[u8]) -> Option<u16>
    ensures { result ≡ transport_in bytes.now }
{
    if bytes.len() == 2 {
        Some(half(bytes, 0))
    } else {
        None
    }
}

fn send_time_in(bytes: &[u8]) -> Option<AbsSendTime>
    ensures { result ≡ send_time_in bytes.now }
{
    if bytes.len() == 3 {
        Some(AbsSendTime::from_units(u64::from(triple(bytes, 0))))
    } else {
        None
    }
}

fn level_in(bytes: &[u8]) -> Option<i8>
    ensures { result ≡ level_in bytes.now }
{
    if bytes.len() == 1 {
        Some(0 - (bytes[0] % 128) as i8)
    } else {
        None
    }
}

fn voice_in(bytes: &[u8]) -> Option<bool>
    ensures { result ≡ voice_in bytes.now }
{
    if bytes.len() == 1 {
        Some(bytes[0] / 128 % 2 == 1)
    } else {
        None
    }
}

fn turn_in(bytes: &[u8]) -> Option<VideoOrientation>
    ensures { result ≡ turn_in bytes.now }
{
    if bytes.len() != 1 {
        return None;
    }
    Some(match bytes[0] % 4 {
        0 => VideoOrientation::Deg0,
        1 => VideoOrientation::Deg270,
        2 => VideoOrientation::Deg180,
        _ => VideoOrientation::Deg90,
    })
}

fn capture_in(bytes: &[u8]) -> Option<AbsCaptureTime>
    ensures { result ≡ capture_in bytes.now }
{
    if bytes.len() != 8 && bytes.len() != 16 {
        return None;
    }
    Some(AbsCaptureTime::from_ntp_64(double(bytes, 0)))
}

fn least_delay_in(bytes: &[u8]) -> Option<MediaTime>
    ensures { result ≡ least_delay_in bytes.now }
{
    if bytes.len() == 3 {
        Some(MediaTime {
            numer: u64::from(triple(bytes, 0) / 4096),
            frequency: Frequency::HUNDREDTHS,
        })
    } else {
        None
    }
}

fn greatest_delay_in(bytes: &[u8]) -> Option<MediaTime>
    ensures { result ≡ greatest_delay_in bytes.now }
{
    if bytes.len() == 3 {
        Some(MediaTime {
            numer: u64::from(triple(bytes, 0) % 4096),
            frequency: Frequency::HUNDREDTHS,
        })
    } else {
        None
    }
}

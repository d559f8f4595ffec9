use crate::arriving::{Wanted, tells};
use crate::ends::{End, mid, moment, rid};
use crate::feedback::acknowledge;
use crate::leaving::{next, write};
use rtp_base::{Frequency, MediaTime, Rid};
use rtp_wire::{
    AbsCaptureTime, AbsSendTime, Extension, ExtensionMap, ExtensionValues, VideoOrientation,
};
use std::alloc::Global;

// All header extensions.
static EXTENSIONS: [Extension; 9] = [
    Extension::AudioLevel,
    Extension::AbsoluteSendTime,
    Extension::TransportSequenceNumber,
    Extension::RtpMid,
    Extension::RtpStreamId,
    Extension::RepairedRtpStreamId,
    Extension::VideoOrientation,
    Extension::AbsoluteCaptureTime,
    Extension::PlayoutDelay,
];

/// The ids of a pair of ends.
#[derive(Clone, Copy)]
pub enum Ids {
    /// No extension has one.
    Nothing,
    /// This extension alone has one.
    Only(Extension),
    /// All extensions have one.
    All,
}

/// The map of these ids.
pub fn map_of(ids: Ids) -> ExtensionMap {
    let mut exts = ExtensionMap::empty();
    match ids {
        Ids::Nothing => {}
        Ids::Only(extension) => exts.set(1, extension),
        Ids::All => {
            for id in 1..10 {
                exts.set(id, EXTENSIONS[usize::from(id) - 1]);
            }
        }
    }
    exts
}

fn delay(hundredths: u64) -> Option<MediaTime> {
    Some(MediaTime::new(hundredths, Frequency::HUNDREDTHS))
}

// What a packet is written with: a value of each extension, those of the sender too.
fn written() -> ExtensionValues {
    ExtensionValues {
        audio_level: Some(-30),
        voice_activity: Some(true),
        video_orientation: Some(VideoOrientation::Deg90),
        abs_send_time: Some(AbsSendTime::from_units(7)),
        transport_cc: Some(7),
        play_delay_min: delay(1),
        play_delay_max: delay(4095),
        rid: Rid::from_slice(b"lo"),
        rid_repair: Some(rid()),
        mid: None,
        abs_capture_time: Some(AbsCaptureTime::from_ntp_64(0x0102_0304_0506_0708)),
    }
}

// What is told of the packet so many packets behind the first, where all extensions have ids:
// the sender's own values, the moment in units of 2^-18 s, and the others as they were written.
fn told_of_all(before: u16) -> ExtensionValues {
    ExtensionValues {
        abs_send_time: Some(AbsSendTime::from_units(393_216)),
        transport_cc: Some(before),
        rid: Some(rid()),
        rid_repair: None,
        mid: Some(mid()),
        ..written()
    }
}

// What is told once the peer has acknowledged the SSRC: mid and rid as they were written.
fn told_after(before: u16) -> ExtensionValues {
    ExtensionValues {
        mid: None,
        rid: written().rid,
        ..told_of_all(before)
    }
}

// Whether a packet of this number is told with these values.
fn carries_one(
    alloc: Global,
    a: &mut End,
    b: &mut End,
    number: u64,
    values: ExtensionValues,
) -> bool {
    let written = write(alloc, a, number, written());
    let Some(sent) = next(a, moment()) else {
        return false;
    };
    let wanted = Wanted {
        number,
        payload: &[1, 2],
        values,
        unpauses: number == 1,
    };
    written & tells(b, sent.bytes.as_slice(), &wanted)
}

/// Whether packets are told with the values of all extensions: two before the peer acknowledges the
/// SSRC, and one after it.
pub fn carries(alloc: Global, a: &mut End, b: &mut End) -> bool {
    let first = carries_one(alloc, a, b, 1, told_of_all(0));
    let second = carries_one(alloc, a, b, 2, told_of_all(1));
    let known = acknowledge(alloc, a);
    let third = carries_one(alloc, a, b, 3, told_after(2));
    first & second & known & third
}

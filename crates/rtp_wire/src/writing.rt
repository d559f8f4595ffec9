ghost use Rattle.std.specs.Prelude.{◌≡◌, ◌≤◌, ◌++◌, length, drop, unwrap_or};
ghost use Rattle.std.specs.Option.{option_map};
ghost use Rattle.rtp_wire.specs.Writing.{level_byte, quarter_turns, delay_steps};

use crate::extension::{Extension, ExtensionMap, MAX_ID_ONE_BYTE_FORM, RESERVED_ID};
use crate::values::{ExtensionValues, MAX_DELAY_STEPS, MAX_MINUS_LEVEL, VideoOrientation};
use rtp_base::wire::triple_bytes;
use rtp_base::{Frequency, MediaTime};

/// The most bytes of the elements in which values are written: of each of the nine extensions its
/// longest value and a byte.
pub const MAX_ELEMENTS_LEN: usize = 75;

/// How many bytes of room the elements are written into: a choice.
pub const ELEMENTS_ROOM: usize = 76;

/// How many bytes of room an extension is written into: a choice.
pub const EXTENSION_ROOM: usize = 88;

// Writes a piece to the front of the bytes, and gives its length.
fn put(bytes: &mut [u8], piece: &[u8]) -> usize
    requires { length piece.now ≤ length bytes.old }
    ensures bytes { bytes.new ≡ piece.now ++ drop result bytes.old }
    ensures len { result ≡ length piece.now }
{
    let (front, _) = bytes.split_at_mut(piece.len());
    front.copy_from_slice(piece);
    piece.len()
}

fn level_byte(level: i8, voice: bool) -> u8
    ensures { result ≡ level_byte level voice }
{
    let minus = if level < 0 {
        level.unsigned_abs().min(MAX_MINUS_LEVEL)
    } else {
        0
    };
    if voice { 128 + minus } else { minus }
}

fn quarter_turns(turn: VideoOrientation) -> u8
    ensures { result ≡ quarter_turns turn }
{
    match turn {
        VideoOrientation::Deg0 => 0,
        VideoOrientation::Deg270 => 1,
        VideoOrientation::Deg180 => 2,
        VideoOrientation::Deg90 => 3,
    }
}

fn delay_steps(delay: MediaTime) -> u32
    ensures { result ≡ delay_steps delay }
{
    delay
        .rebase(Frequency::HUNDREDTHS)
        .numer()
        .min(MAX_DELAY_STEPS) as u32
}

impl ExtensionValues {
    ghost use Rattle.rtp_wire.specs.Writing.{value_bytes, bytes_or_none, without};
    ghost use Rattle.rtp_wire.specs.Extensions.{element_at, element_bytes, written_data, extension_bytes};
    ghost use Rattle.std.specs.List.{flat_map};

    // Writes the value of an extension to the front of the bytes, and gives its length: None where
    // it is not there.
    fn put_value(&self, extension: Extension, bytes: &mut [u8]) -> Option<usize>
        requires { length (bytes_or_none (value_bytes extension self.now)) ≤ length bytes.old }
        ensures bytes { bytes.new ≡ bytes_or_none (value_bytes extension self.now) ++ drop (unwrap_or result 0) bytes.old }
        ensures len { result ≡ option_map length (value_bytes extension self.now) }
    {
        match extension {
            Extension::AudioLevel => {
                let level = self.audio_level?;
                let voice = self.voice_activity?;
                Some(put(bytes, &[level_byte(level, voice)]))
            }
            Extension::AbsoluteSendTime => {
                let time = self.abs_send_time?;
                Some(put(bytes, &triple_bytes(time.units())))
            }
            Extension::TransportSequenceNumber => {
                let number = self.transport_cc?;
                Some(put(bytes, &number.to_be_bytes()))
            }
            Extension::RtpMid => {
                let mid = self.mid?;
                Some(put(bytes, mid.as_slice()))
            }
            Extension::RtpStreamId => {
                let rid = self.rid?;
                Some(put(bytes, rid.as_slice()))
            }
            Extension::RepairedRtpStreamId => {
                let rid = self.rid_repair?;
                Some(put(bytes, rid.as_slice()))
            }
            Extension::VideoOrientation => {
                let turn = self.video_orientation?;
                Some(put(bytes, &[quarter_turns(turn)]))
            }
            Extension::AbsoluteCaptureTime => {
                let time = self.abs_capture_time?;
                Some(put(bytes, &time.as_ntp_64().to_be_bytes()))
            }
            Extension::PlayoutDelay => {
                let least = delay_steps(self.play_delay_min?);
                let greatest = delay_steps(self.play_delay_max?);
                Some(put(bytes, &triple_bytes(least * 4096 + greatest)))
            }
        }
    }

    // Writes an element of the one-byte form, if the value of the extension is there, and gives its
    // length.
    fn put_element(&self, id: u8, extension: Extension, bytes: &mut [u8]) -> usize
        requires low { 1 ≤ id }
        requires high { id ≤ MAX_ID_ONE_BYTE_FORM }
        requires some { 1 ≤ length bytes.old }
        requires room { length (flat_map element_bytes (element_at id (value_bytes extension self.now))) ≤ length bytes.old }
        ensures bytes { bytes.new ≡ flat_map element_bytes (element_at id (value_bytes extension self.now)) ++ drop result bytes.old }
        ensures len { result ≡ length (flat_map element_bytes (element_at id (value_bytes extension self.now))) }
    {
        let (head, rest) = bytes.split_at_mut(1);
        match self.put_value(extension, rest) {
            None => 0,
            Some(len) => put(head, &[id * 16 + (len - 1) as u8]) + len,
        }
    }

    // Takes out the value of an extension.
    fn take_out(&mut self, extension: Extension)
        ensures { self.new ≡ without extension self.old }
    {
        match extension {
            Extension::AudioLevel => {
                self.audio_level = None;
                self.voice_activity = None;
            }
            Extension::AbsoluteSendTime => self.abs_send_time = None,
            Extension::TransportSequenceNumber => self.transport_cc = None,
            Extension::RtpMid => self.mid = None,
            Extension::RtpStreamId => self.rid = None,
            Extension::RepairedRtpStreamId => self.rid_repair = None,
            Extension::VideoOrientation => self.video_orientation = None,
            Extension::AbsoluteCaptureTime => self.abs_capture_time = None,
            Extension::PlayoutDelay => {
                self.play_delay_min = None;
                self.play_delay_max = None;
            }
        }
    }

    // Writes the elements of these values, ids ascending, and gives their length. A value is
    // written once.
    fn put_elements(&self, bytes: &mut [u8], exts: &ExtensionMap) -> usize
        requires { ELEMENTS_ROOM ≤ length bytes.old }
        ensures bytes { bytes.new ≡ written_data exts.now self.now ++ drop result bytes.old }
        ensures len { result ≡ length (written_data exts.now self.now) }
        ensures bound { result ≤ MAX_ELEMENTS_LEN }
    {
        let mut left = *self;
        let mut at = 0;
        for id in 1..RESERVED_ID {
            if let Some(extension) = exts.named_by(id) {
                let (_, rest) = bytes.split_at_mut(at);
                at += left.put_element(id, extension, rest);
                left.take_out(extension);
            }
        }
        at
    }

    /// Writes the extension of these values under a map to the front of the bytes, and gives its
    /// length: the one-byte form (RFC 8285 section 4.2) with its own header, ids ascending, of the
    /// values that are there and whose extension has an id, and zeros to a whole word. It is 0
    /// where nothing is written.
    #[tactic(auto, unfolding(crate::specs::Extensions::extension_bytes))]
    pub fn write(&self, bytes: &mut [u8], exts: &ExtensionMap) -> usize
        requires { EXTENSION_ROOM ≤ length bytes.old }
        ensures bytes { bytes.new ≡ extension_bytes exts.now self.now ++ drop result bytes.old }
        ensures len { result ≡ length (extension_bytes exts.now self.now) }
    {
        let (head, rest) = bytes.split_at_mut(4);
        let len = self.put_elements(rest, exts);
        if len == 0 {
            return 0;
        }
        let words = len.div_ceil(4);
        let (_, behind) = rest.split_at_mut(len);
        let (zeros, _) = behind.split_at_mut(4 * words - len);
        zeros.fill(0);
        head.copy_from_slice(&[0xbe, 0xde, 0, words as u8]);
        4 + 4 * words
    }
}

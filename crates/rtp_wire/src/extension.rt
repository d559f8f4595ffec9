ghost use Rattle.std.specs.Prelude.{◌≡◌, ◌≤◌, map, position, length, IfSome, ◌<◌};
ghost use Rattle.rtp_wire.specs.Extensions.{is_at, cleared};

use std::marker::Model;

/// A header extension that has an id in a map (RFC 8285).
#[derive(Clone, Copy, Debug, PartialEq, Eq, PartialOrd, Ord, Hash)]
pub enum Extension {
    /// The level of the audio and whether it is voice (RFC 6464).
    AudioLevel,
    /// When the packet was sent, 24 bits of its NTP time.
    AbsoluteSendTime,
    /// The number of the packet on its transport.
    TransportSequenceNumber,
    /// The media section of the packet (RFC 9143 section 14).
    RtpMid,
    /// The stream of the packet (RFC 8852).
    RtpStreamId,
    /// The stream that the packet repairs (RFC 8852).
    RepairedRtpStreamId,
    /// How the picture is turned (3GPP TS 26.114 section 7.4.5).
    VideoOrientation,
    /// When the media was captured, its NTP time.
    AbsoluteCaptureTime,
    /// Between which delays the media may be played.
    PlayoutDelay,
}

/// The greatest id of an element in the one-byte form (RFC 8285 section 4.2).
pub const MAX_ID_ONE_BYTE_FORM: u8 = 14;

/// The id behind the greatest of the one-byte form: it is reserved, and ends the reading (RFC 8285
/// section 4.2).
pub const RESERVED_ID: u8 = 15;

/// How many places a map has, one for each id below the reserved one. The first, that of padding,
/// names nothing.
pub const MAP_PLACES: usize = 15;

/// Which id, from 1 to 14, names which extension. Contracts see the list of 15 places: place i is
/// what the id i names.
#[derive(Clone, Copy, Debug, PartialEq, Eq)]
pub struct ExtensionMap {
    places: [Option<Extension>; MAP_PLACES],
}

impl Model for ExtensionMap {
    ghost use Rattle.std.specs.Prelude.{List};
    ghost use Rattle.std.specs.declared.option.Option.{Option};
    ghost use Rattle.rtp_wire.specs.declared.extension.Extension.{Extension};

    ghost Value = { List (Option Extension) };

    ghost view = { λ m. m.places };

    ghost inverse = { λ l. record { places = l } };
}

fn is_at(extension: Extension, place: &Option<Extension>) -> bool
    ensures { result ≡ is_at extension place.now }
{
    match place {
        None => false,
        Some(other) => extension as u8 == *other as u8,
    }
}

fn cleared(extension: Extension, place: Option<Extension>) -> Option<Extension>
    ensures { result ≡ cleared extension place }
{
    if is_at(extension, &place) {
        None
    } else {
        place
    }
}

fn clear(places: &mut [Option<Extension>; MAP_PLACES], extension: Extension)
    ensures { places.new ≡ map (cleared extension) places.old }
{
    for i in 0..MAP_PLACES {
        places[i] = cleared(extension, places[i]);
    }
}

// The first place of an extension.
fn place_of(places: &[Option<Extension>], extension: Extension) -> Option<usize>
    ensures place { result ≡ position (is_at extension) places.now }
    ensures within { IfSome result (λ i. i < length places.now) }
{
    places.iter().position(|place| is_at(extension, place))
}

impl ExtensionMap {
    ghost use Rattle.rtp_wire.specs.Extensions.{no_extensions, standard_extensions, with_extension, id_of, named_by};

    /// The map without ids.
    pub fn empty() -> Self
        ensures { result ≡ no_extensions }
    {
        ExtensionMap {
            places: [None; MAP_PLACES],
        }
    }

    /// The ids of this library: 1 audio level, 2 absolute send time, 3 transport sequence number, 4
    /// mid, 10 rid, 11 repaired rid, 13 video orientation.
    pub fn standard() -> Self
        ensures { result ≡ standard_extensions }
    {
        let mut places = [None; MAP_PLACES];
        places[1] = Some(Extension::AudioLevel);
        places[2] = Some(Extension::AbsoluteSendTime);
        places[3] = Some(Extension::TransportSequenceNumber);
        places[4] = Some(Extension::RtpMid);
        places[10] = Some(Extension::RtpStreamId);
        places[11] = Some(Extension::RepairedRtpStreamId);
        places[13] = Some(Extension::VideoOrientation);
        ExtensionMap { places }
    }

    /// Names an extension by an id. An id that named it before names nothing then.
    pub fn set(&mut self, id: u8, extension: Extension)
        requires low { 1 ≤ id }
        requires high { id ≤ MAX_ID_ONE_BYTE_FORM }
        ensures { self.new ≡ with_extension self.old id extension }
    {
        let mut places = self.places;
        clear(&mut places, extension);
        places[usize::from(id)] = Some(extension);
        self.places = places;
    }

    /// The id that names an extension, if one does.
    pub fn id_of(&self, extension: Extension) -> Option<u8>
        ensures { result ≡ id_of self.now extension }
    {
        match place_of(&self.places, extension) {
            Some(place) => Some(place as u8),
            None => None,
        }
    }

    /// The extension that an id names, if it names one.
    pub fn named_by(&self, id: u8) -> Option<Extension>
        ensures { result ≡ named_by self.now id }
    {
        if id < RESERVED_ID {
            self.places[usize::from(id)]
        } else {
            None
        }
    }
}

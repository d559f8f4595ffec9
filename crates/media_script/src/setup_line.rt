ghost use Rattle.std.specs.Prelude.{◌≡◌};
ghost use Rattle.media_script.specs.Order.{word, per, slot, needs, gives};

use media_base::Bytes;
use media_model::{
    CipherName, Key, MediaKind, Mtu, NamedCache, NamedExtension, NamedStart, PayloadType,
    ReportTimes, Side, SrtcpIndex, Stream,
};
use media_units::{Beginning, Duration};
use rtp_wire::{Mid, Ssrc};
use srtp_core::SrtpProfile;
use std::marker::Model;

/// What one setup line says.
#[derive(Drop)]
pub enum SetupLine {
    Cipher(CipherName),
    Profile(SrtpProfile),
    Key(Key),
    Unix(Beginning),
    Mtu(Mtu),
    /// After how long without packets a stream that comes counts as paused.
    Pause(Duration),
    /// After how long the next report of a stream is due.
    Reports(ReportTimes),
    /// The index of the side's first SRTCP datagram.
    Rtcp(Side, SrtcpIndex),
    /// The SSRC under which the side speaks of what it receives.
    Local(Side, Ssrc),
    Ext(NamedExtension),
    Type(PayloadType),
    Media {
        mid: Mid,
        kind: MediaKind,
        cname: Bytes,
    },
    Stream {
        mid: Mid,
        stream: Stream,
    },
    /// The number of the first repair of a stream.
    Start(NamedStart),
    /// What a stream keeps to send it again.
    Cache(NamedCache),
}

/// For what a line may stand once.
#[derive(Clone, Copy)]
pub enum Per {
    Script,
    Side(Side),
    Ssrc(Ssrc),
}

/// What two lines may not share: a first word, and what the line stands for once. Contracts see
/// the two.
#[derive(Drop)]
pub struct Slot {
    pub word: &'static [u8],
    pub per: Per,
}

impl Model for Slot {
    ghost use Rattle.std.specs.Prelude.{ℕ, List};
    ghost use Rattle.media_script.specs.declared.setup_line.Per.{Per};

    ghost Value = { List ℕ × Per };

    ghost view = { λ s. (s.word.now, s.per) };
}

/// What a line brings, and later lines may need.
#[derive(Clone, Copy)]
pub enum Name {
    /// A media section.
    Media(Mid),
    /// A stream, by its main SSRC.
    Stream(Ssrc),
}

impl SetupLine {
    // Its first word.
    fn word(&self) -> &'static [u8]
        ensures { result.now ≡ word self.now }
    {
        match self {
            SetupLine::Cipher(_) => b"cipher",
            SetupLine::Profile(_) => b"profile",
            SetupLine::Key(_) => b"key",
            SetupLine::Unix(_) => b"unix",
            SetupLine::Mtu(_) => b"mtu",
            SetupLine::Pause(_) => b"pause",
            SetupLine::Reports(_) => b"reports",
            SetupLine::Rtcp(_, _) => b"rtcp",
            SetupLine::Local(_, _) => b"local",
            SetupLine::Ext(_) => b"ext",
            SetupLine::Type(_) => b"type",
            SetupLine::Media { .. } => b"media",
            SetupLine::Stream { .. } => b"stream",
            SetupLine::Start(_) => b"start",
            SetupLine::Cache(_) => b"cache",
        }
    }

    // For what it may stand once, or None: any number of times.
    fn per(&self) -> Option<Per>
        ensures { result ≡ per self.now }
    {
        match self {
            SetupLine::Ext(_)
            | SetupLine::Type(_)
            | SetupLine::Media { .. }
            | SetupLine::Stream { .. } => None,
            SetupLine::Rtcp(side, _) | SetupLine::Local(side, _) => Some(Per::Side(*side)),
            SetupLine::Start(start) => Some(Per::Ssrc(start.ssrc)),
            SetupLine::Cache(named) => Some(Per::Ssrc(named.ssrc)),
            _ => Some(Per::Script),
        }
    }

    /// The slot that it takes.
    pub fn slot(&self) -> Option<Slot>
        ensures { result ≡ slot self.now }
    {
        match self.per() {
            Some(per) => Some(Slot {
                word: self.word(),
                per,
            }),
            None => None,
        }
    }

    /// What has to stand before it.
    pub fn needs(&self) -> Option<Name>
        ensures { result ≡ needs self.now }
    {
        match self {
            SetupLine::Stream { mid, .. } => Some(Name::Media(*mid)),
            SetupLine::Start(start) => Some(Name::Stream(start.ssrc)),
            SetupLine::Cache(named) => Some(Name::Stream(named.ssrc)),
            _ => None,
        }
    }

    /// What it brings.
    pub fn gives(&self) -> Option<Name>
        ensures { result ≡ gives self.now }
    {
        match self {
            SetupLine::Media { mid, .. } => Some(Name::Media(*mid)),
            SetupLine::Stream { stream, .. } => Some(Name::Stream(stream.ssrc)),
            _ => None,
        }
    }
}

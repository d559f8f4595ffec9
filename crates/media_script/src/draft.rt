// What setup lines say together.
ghost use Rattle.std.specs.Prelude.{◌≡◌, OnOk};
ghost use Rattle.media_script.specs.Draft.{blank, with_index, with_ssrc, with_key, told, setup_of};

use crate::media_list::MediaList;
use crate::setup_line::SetupLine;
use media_base::Listed;
use media_model::{
    CipherName, DEFAULT_PAUSE_THRESHOLD_NANOS, Key, Local, Media, Mtu, ReportTimes, Setup, Side,
    SrtcpIndex,
};
use media_units::{Beginning, Duration};
use rtp_wire::Ssrc;
use srtp_core::SrtpProfile;
use std::alloc::{AllocError, Global};

/// The Unix time at which a run begins where no line says it, in seconds: in November 2023, a
/// choice.
pub const DEFAULT_UNIX_SECS: u64 = 1_700_000_000;

/// What the setup lines so far say, and the default of each that does not stand.
#[derive(Drop)]
pub struct Draft {
    /// Its media sections stand in `media`.
    setup: Setup,
    /// Whether the key stands, which is required.
    has_key: bool,
    media: MediaList,
}

impl Draft {
    /// The defaults.
    pub fn new(alloc: Global) -> Self
        ensures { result ≡ blank }
    {
        let setup = Setup {
            cipher: CipherName::Toy,
            profile: SrtpProfile::AeadAes128Gcm,
            key: Key::Zero,
            beginning: Beginning {
                unix_secs: DEFAULT_UNIX_SECS,
            },
            mtu: Mtu::default(),
            pause_threshold: Duration::from_nanos(DEFAULT_PAUSE_THRESHOLD_NANOS),
            intervals: ReportTimes::default(),
            a: Local {
                ssrc: Ssrc::from(1),
                srtcp_index: SrtcpIndex::FIRST,
            },
            b: Local {
                ssrc: Ssrc::from(2),
                srtcp_index: SrtcpIndex::FIRST,
            },
            exts: Listed::new(alloc),
            types: Listed::new(alloc),
            media: Listed::new(alloc),
            starts: Listed::new(alloc),
            caches: Listed::new(alloc),
        };
        Draft {
            setup,
            has_key: false,
            media: MediaList::new(alloc),
        }
    }

    // The index of a side's first SRTCP datagram.
    fn set_index(&mut self, side: Side, index: SrtcpIndex)
        ensures { self.new ≡ with_index side index self.old }
    {
        match side {
            Side::A => self.setup.a.srtcp_index = index,
            Side::B => self.setup.b.srtcp_index = index,
        }
    }

    // The keying material of both sides.
    fn set_key(&mut self, key: Key)
        ensures { self.new ≡ with_key key self.old }
    {
        self.setup.key = key;
        self.has_key = true;
    }

    // The SSRC under which a side speaks of what it receives.
    fn set_ssrc(&mut self, side: Side, ssrc: Ssrc)
        ensures { self.new ≡ with_ssrc side ssrc self.old }
    {
        match side {
            Side::A => self.setup.a.ssrc = ssrc,
            Side::B => self.setup.b.ssrc = ssrc,
        }
    }

    /// What one line more says.
    pub fn tell(&mut self, alloc: Global, line: SetupLine) -> Result<(), AllocError>
        ensures { OnOk result (self.new ≡ told self.old line) }
    {
        match line {
            SetupLine::Cipher(cipher) => self.setup.cipher = cipher,
            SetupLine::Profile(profile) => self.setup.profile = profile,
            SetupLine::Key(key) => self.set_key(key),
            SetupLine::Unix(beginning) => self.setup.beginning = beginning,
            SetupLine::Mtu(mtu) => self.setup.mtu = mtu,
            SetupLine::Pause(threshold) => self.setup.pause_threshold = threshold,
            SetupLine::Reports(intervals) => self.setup.intervals = intervals,
            SetupLine::Rtcp(side, index) => self.set_index(side, index),
            SetupLine::Local(side, ssrc) => self.set_ssrc(side, ssrc),
            SetupLine::Ext(named) => self.setup.exts.push(named)?,
            SetupLine::Type(payload_type) => self.setup.types.push(payload_type)?,
            SetupLine::Media { mid, kind, cname } => self.media.push(Media {
                mid,
                kind,
                cname,
                streams: Listed::new(alloc),
            })?,
            SetupLine::Stream { mid, stream } => self.media.push_stream(mid, stream)?,
            SetupLine::Start(start) => self.setup.starts.push(start)?,
            SetupLine::Cache(named) => self.setup.caches.push(named)?,
        }
        Ok(())
    }

    /// The setup, if the key stands.
    pub fn finish(self) -> Option<Setup>
        ensures { result ≡ setup_of self }
    {
        if !self.has_key {
            return None;
        }
        let mut setup = self.setup;
        setup.media = self.media.into_listed();
        Some(setup)
    }
}

ghost use Rattle.std.specs.Prelude.{◌≡◌, ◌++◌, find, IfOk, OnOk};
ghost use Rattle.std.specs.Option.{option_copied};
ghost use Rattle.std.specs.List.{filter_map};
ghost use Rattle.media_model.specs.Setup.{local_of, material_of, streams_of, types_of, claimed_of, main_in, is_extension_id, extensions_of, starts_on, start_of, keeps_on, cache_of};

use crate::entry::Side;
use crate::first_number::FirstNumber;
use crate::srtcp_index::SrtcpIndex;
use media_base::{Bytes, Listed};
use media_units::{Beginning, Duration};
use rtp_wire::{Extension, ExtensionMap, MAX_ID_ONE_BYTE_FORM, Mid, Pt, Rid, Ssrc};
use srtp_core::SrtpProfile;
use std::alloc::{AllocError, Global};

/// How many packets a stream keeps of which nothing is said.
pub const DEFAULT_CACHE_PACKETS: u64 = 2_000;

/// For how long a stream keeps a packet of which nothing is said, in nanoseconds: 3 s.
pub const DEFAULT_CACHE_NANOS: u64 = 3_000_000_000;

/// How many hundredths of the payload bytes sent may be those of repairs where nothing is said.
pub const DEFAULT_CACHE_CAP: u32 = 15;

/// The most bytes of a datagram of RTCP where a script says nothing of it.
pub const DEFAULT_MTU_TARGET: u64 = 1_150;

/// Above how many bytes a datagram is longer than wanted where a script says nothing of it.
pub const DEFAULT_MTU_WARN: u64 = 1_280;

/// After how long the next report of a stream of sound is due where a script says nothing of it, in
/// nanoseconds: 5 s.
pub const DEFAULT_AUDIO_NANOS: u64 = 5_000_000_000;

/// After how long the next report of a stream of pictures is due where a script says nothing of it,
/// in nanoseconds: 1 s.
pub const DEFAULT_VIDEO_NANOS: u64 = 1_000_000_000;

/// The threshold of pauses where a script says nothing of it, in nanoseconds: 1.5 s.
pub const DEFAULT_PAUSE_THRESHOLD_NANOS: u64 = 1_500_000_000;

/// The cipher that both sides use.
#[derive(Clone, Copy, Debug, PartialEq, Eq)]
pub enum CipherName {
    /// XOR with the key, which is not secure.
    Toy,
    /// SHA-1 of the key and what is enciphered, which is not secure.
    Sha,
}

/// The keying material of a run: left key, right key, left salt, right salt (RFC 5764 section 4.2).
#[derive(Debug, PartialEq, Eq, Drop)]
pub enum Key {
    /// Zeros, as many as the profile asks for.
    Zero,
    /// These bytes.
    Given(Bytes),
}

/// What a payload type carries.
#[derive(Clone, Copy, Debug, PartialEq, Eq)]
pub enum Codec {
    Opus,
    Pcmu,
    Pcma,
    Telephone,
    Vp8,
    Vp9,
    H264,
    H265,
    H266,
    Av1,
}

/// A payload type that both sides know.
#[derive(Clone, Copy, Debug, PartialEq, Eq)]
pub struct PayloadType {
    /// Its number, at most 127 in a run.
    pub pt: Pt,
    /// What it carries.
    pub codec: Codec,
    /// Units of RTP time in a second.
    pub rate: u32,
    /// The type of its repairs (RFC 4588 section 8.1), at most 127 in a run.
    pub rtx: Option<Pt>,
    /// The type of its redundant data (RFC 2198 section 4), at most 127 in a run. What is written
    /// under it is a packet like any other, without repairs.
    pub red: Option<Pt>,
    /// Whether a PLI may ask for a key frame of it (RFC 4585 section 6.3.1). Nothing in a run
    /// depends on it.
    pub pli: bool,
    /// Whether a FIR may ask for one (RFC 5104 section 4.3.1). Nothing in a run depends on it.
    pub fir: bool,
}

/// What a media line carries.
#[derive(Clone, Copy, Debug, PartialEq, Eq)]
pub enum MediaKind {
    /// Sound.
    Audio,
    /// Pictures.
    Video,
}

/// A stream of packets, sent by one side and received by the other.
#[derive(Clone, Copy, Debug, PartialEq, Eq)]
pub struct Stream {
    /// The side that sends it.
    pub side: Side,
    /// The main SSRC.
    pub ssrc: Ssrc,
    /// The SSRC of its repairs (RFC 4588 section 4).
    pub rtx: Option<Ssrc>,
    /// The name of its layer, in ASCII letters and digits.
    pub rid: Option<Rid>,
}

/// A media section with its streams.
#[derive(Debug, PartialEq, Eq, Drop)]
pub struct Media {
    /// Its name, in ASCII letters and digits.
    pub mid: Mid,
    /// Sound or pictures.
    pub kind: MediaKind,
    /// The canonical name of its sources (RFC 3550 section 6.5.1).
    pub cname: Bytes,
    /// In the order of their lines.
    pub streams: Listed<Stream>,
}

/// The number of the first repair of a stream (RFC 4588 section 4), and the stream.
#[derive(Clone, Copy, Debug, PartialEq, Eq)]
pub struct NamedStart {
    /// The main SSRC of the stream.
    pub ssrc: Ssrc,
    /// The number.
    pub number: FirstNumber,
}

/// Which packets a stream keeps to send them again, and how much of what it sends may be repairs.
#[derive(Clone, Copy, Debug, PartialEq, Eq)]
pub struct Cache {
    /// How many packets: 1 to 32,000 in a run.
    pub packets: u64,
    /// For how long: at most 10^16 ns in a run.
    pub age: Duration,
    /// How many hundredths of the payload bytes sent may be those of repairs; None: any number.
    pub cap: Option<u32>,
}

/// That of a stream of which nothing is said: 2,000 packets, each for 3 s, and 15 hundredths.
impl Default for Cache {
    ghost use Rattle.media_model.specs.Setup.{default_cache};

    ghost is_default = { λ c. c ≡ default_cache };

    fn default() -> Self {
        Cache {
            packets: DEFAULT_CACHE_PACKETS,
            age: Duration::from_nanos(DEFAULT_CACHE_NANOS),
            cap: Some(DEFAULT_CACHE_CAP),
        }
    }
}

/// What a stream keeps to send it again, and the stream.
#[derive(Clone, Copy, Debug, PartialEq, Eq)]
pub struct NamedCache {
    /// The main SSRC of the stream.
    pub ssrc: Ssrc,
    /// What it keeps.
    pub cache: Cache,
}

/// After how long the next report of a stream is due (RFC 3550 section 6.4).
#[derive(Clone, Copy, Debug, PartialEq, Eq)]
pub struct ReportTimes {
    /// For a stream of sound: at most 10^16 ns in a run.
    pub audio: Duration,
    /// For a stream of pictures: at most 10^16 ns in a run.
    pub video: Duration,
}

/// Those where a script says nothing of them: 5 s for sound, and 1 s for pictures.
impl Default for ReportTimes {
    ghost use Rattle.media_model.specs.Setup.{default_intervals};

    ghost is_default = { λ t. t ≡ default_intervals };

    fn default() -> Self {
        ReportTimes {
            audio: Duration::from_nanos(DEFAULT_AUDIO_NANOS),
            video: Duration::from_nanos(DEFAULT_VIDEO_NANOS),
        }
    }
}

/// A header extension and the id that names it (RFC 8285).
#[derive(Clone, Copy, Debug, PartialEq, Eq)]
pub struct NamedExtension {
    /// From 1 to 14 in a run.
    pub id: u8,
    /// What it names.
    pub extension: Extension,
}

/// How long datagrams are to be, in bytes.
#[derive(Clone, Copy, Debug, PartialEq, Eq)]
pub struct Mtu {
    /// The most bytes of a datagram of RTCP: from 900 to `warn` in a run.
    pub target: u64,
    /// Above it a datagram is longer than wanted: at most 1,500 in a run.
    pub warn: u64,
}

/// That where a script says nothing of it: 1,150 and 1,280 bytes.
impl Default for Mtu {
    ghost use Rattle.media_model.specs.Setup.{default_mtu};

    ghost is_default = { λ m. m ≡ default_mtu };

    fn default() -> Self {
        Mtu {
            target: DEFAULT_MTU_TARGET,
            warn: DEFAULT_MTU_WARN,
        }
    }
}

/// What one side alone brings to a run.
#[derive(Clone, Copy, Debug, PartialEq, Eq)]
pub struct Local {
    /// The SSRC under which it speaks of what it receives.
    pub ssrc: Ssrc,
    /// The index of its first SRTCP datagram.
    pub srtcp_index: SrtcpIndex,
}

/// What both sides know before a run begins.
#[derive(Debug, PartialEq, Eq, Drop)]
pub struct Setup {
    /// The cipher of both sides.
    pub cipher: CipherName,
    /// The profile of both sides (RFC 5764 section 4.1.2, RFC 7714 section 14.2).
    pub profile: SrtpProfile,
    /// The keying material of both sides.
    pub key: Key,
    /// The Unix time, in seconds, of the moment 0 of both sides.
    pub beginning: Beginning,
    /// How long datagrams of both sides may be.
    pub mtu: Mtu,
    /// A stream that comes counts as paused once no packet of it came for so long: 1.5 s where a
    /// script says nothing of it.
    pub pause_threshold: Duration,
    /// After how long the next report of a stream is due: 5 s for sound and 1 s for pictures where
    /// a script says nothing of it.
    pub intervals: ReportTimes,
    /// What side A alone brings.
    pub a: Local,
    /// What side B alone brings.
    pub b: Local,
    /// The header extensions, in the order of their lines.
    pub exts: Listed<NamedExtension>,
    /// The payload types, in the order of their lines.
    pub types: Listed<PayloadType>,
    /// The media sections, in the order of their lines.
    pub media: Listed<Media>,
    /// The numbers of first repairs, in the order of their lines. The first one that names a stream
    /// holds, and that of a stream that none names is 0.
    pub starts: Listed<NamedStart>,
    /// What streams keep, in the order of their lines. The first one that names a stream holds, and
    /// a stream that none names has the default.
    pub caches: Listed<NamedCache>,
}

impl Setup {
    /// The keying material, which may have another length than the profile asks for.
    pub fn material(&self, alloc: Global) -> Result<Vec<u8>, AllocError>
        ensures { IfOk result (λ v. v.items ≡ material_of self.now) }
    {
        match &self.key {
            Key::Zero => vec![in alloc; 0; self.profile.keying_material_len()],
            Key::Given(bytes) => bytes.as_slice().to_vec(alloc),
        }
    }

    /// The main SSRCs of the streams that a side sends, in order.
    pub fn streams(&self, alloc: Global, side: Side) -> Result<Vec<Ssrc>, AllocError>
        ensures { IfOk result (λ v. v.items ≡ streams_of side self.now) }
    {
        let mut ssrcs = Vec::new(alloc);
        for media in self.media.as_slice() {
            add_streams(&mut ssrcs, side, media.streams.as_slice())?;
        }
        Ok(ssrcs)
    }

    /// What a side alone brings.
    pub fn local(&self, side: Side) -> Local
        ensures { result ≡ local_of side self.now }
    {
        match side {
            Side::A => self.a,
            Side::B => self.b,
        }
    }

    /// Which id names which extension: what the lines say one after the other, where an id outside
    /// 1 to 14 names nothing.
    pub fn extension_map(&self) -> ExtensionMap
        ensures { result ≡ extensions_of self.now }
    {
        let mut exts = ExtensionMap::empty();
        for named in self.exts.as_slice() {
            if is_extension_id(named.id) {
                exts.set(named.id, named.extension);
            }
        }
        exts
    }

    /// The payload types of what is written, in order: each type, and that of its redundant data
    /// where it has one.
    pub fn types(&self, alloc: Global) -> Result<Vec<Pt>, AllocError>
        ensures { IfOk result (λ v. v.items ≡ types_of self.now) }
    {
        let mut types = Vec::new(alloc);
        for payload_type in self.types.as_slice() {
            types.push(payload_type.pt)?;
            if let Some(red) = payload_type.red {
                types.push(red)?;
            }
        }
        Ok(types)
    }

    /// The payload types that are claimed, in order: each type, that of its repairs and that of its
    /// redundant data where it has them.
    pub fn claimed_types(&self, alloc: Global) -> Result<Vec<Pt>, AllocError>
        ensures { IfOk result (λ v. v.items ≡ claimed_of self.now) }
    {
        let mut claimed = Vec::new(alloc);
        for payload_type in self.types.as_slice() {
            claimed.push(payload_type.pt)?;
            if let Some(rtx) = payload_type.rtx {
                claimed.push(rtx)?;
            }
            if let Some(red) = payload_type.red {
                claimed.push(red)?;
            }
        }
        Ok(claimed)
    }

    /// The number of the first repair of the stream of this main SSRC. The cost grows with the
    /// number of starts.
    pub fn start(&self, ssrc: Ssrc) -> FirstNumber
        ensures { result ≡ start_of ssrc self.now }
    {
        match start_in(self.starts.as_slice(), ssrc) {
            Some(start) => start.number,
            None => FirstNumber::ZERO,
        }
    }

    /// What the stream of this main SSRC keeps. The cost grows with the number of caches.
    pub fn cache(&self, ssrc: Ssrc) -> Cache
        ensures { result ≡ cache_of ssrc self.now }
    {
        match cache_in(self.caches.as_slice(), ssrc) {
            Some(named) => named.cache,
            None => Cache::default(),
        }
    }
}

// The first one that names the stream.
fn start_in(starts: &[NamedStart], ssrc: Ssrc) -> Option<&NamedStart>
    ensures { option_copied result ≡ find (starts_on ssrc) starts.now }
{
    starts.iter().find(|start| start.ssrc == ssrc)
}

// The first one that names the stream.
fn cache_in(caches: &[NamedCache], ssrc: Ssrc) -> Option<&NamedCache>
    ensures { option_copied result ≡ find (keeps_on ssrc) caches.now }
{
    caches.iter().find(|named| named.ssrc == ssrc)
}

// Whether an id may name an extension.
fn is_extension_id(id: u8) -> bool
    ensures { result ≡ is_extension_id id }
{
    id >= 1 && id <= MAX_ID_ONE_BYTE_FORM
}

// Adds the main SSRCs of the streams that a side sends.
fn add_streams(ssrcs: &mut Vec<Ssrc>, of: Side, streams: &[Stream]) -> Result<(), AllocError>
    ensures { OnOk result (ssrcs.new.items ≡ ssrcs.old.items ++ filter_map (main_in of) streams.now) }
{
    for stream in streams {
        if let Some(ssrc) = main_of(stream, of) {
            ssrcs.push(ssrc)?;
        }
    }
    Ok(())
}

// The main SSRC, if the side sends the stream.
fn main_of(stream: &Stream, side: Side) -> Option<Ssrc>
    ensures { result ≡ main_in side stream.now }
{
    if stream.side == side {
        Some(stream.ssrc)
    } else {
        None
    }
}

ghost use Rattle.std.specs.Prelude.{◌≡◌, ◌≢◌, ◌≤◌, ◌↔◌, ◌++◌, ◌∷◌, [], None, Some, true, false, not, length, is_some, IsTrue, IfOk, IfErr, OnOk, OnErr, IsErrOf};
ghost use Rattle.std.specs.Option.{option_copied};
ghost use Rattle.srtp_core.specs.Contexts.{new_state};
ghost use Rattle.srtp_core.specs.Keys.{material_len};
ghost use Rattle.session_core.specs.SessionRecord.{SessionRecord, StandsFor};
ghost use Rattle.session_core.specs.Medias.{media_of, without_media};
ghost use Rattle.session_core.specs.Calls.{fresh_session, probe_mid, has_media, has_other_mid, has_other_place};

mod drains;
mod events;
mod incoming;
mod outgoing;
mod ticks;

use crate::config::{GREATEST_WARN, LEAST_TARGET, SessionConfig};
use crate::error::{AppError, RtcError};
use crate::media::{Media, media_of, media_place, remove_section};
use crate::news::News;
use crate::sending::has_mid;
use crate::types::payload_types;
use media_units::{Instant, already_happened};
use payload_core::CodecConfig;
use repair_core::GapWindow;
use report_core::{ReceiverMoments, ReportIntervals};
use resend_core::ResendStore;
use rtcp_wire::{AppSpecificFeedback, Rtcp};
use rtp_base::{Mid, MidRid, SessionId, Ssrc};
use srtp_core::{
    KeyingMaterial, SRTCP_INDEX_LIMIT, SrtpCipher, SrtpContext, SrtpError, SrtpProfile,
};
use std::alloc::{AllocError, Global};
use std::collections::VecDeque;
use std::marker::Model;
use stream_core::{PayloadTypes, RtpPacket, Seen, Sent, StreamRx, Streams, Transport};

/// What one end of a connection sends and receives: contexts that seal and open, streams, and media
/// sections. It does no input or output: it is handed the datagrams that come and the moments of
/// ticks, and is asked for what leaves. Without keys nothing opens or leaves, and at moment 0
/// nothing leaves. After a call answered `RtcError::Memory`, `KeyExhausted` or `RepairsExhausted`
/// each call that can answer an `RtcError` answers `Stopped`.
#[derive(Drop)]
pub struct Session<C: SrtpCipher, W: GapWindow, S: ResendStore<Sent>> {
    alloc: Global,
    id: SessionId,
    // The most bytes of a sealed compound.
    target: usize,
    // The SSRC of its feedback while it sends on no stream.
    local_ssrc: Ssrc,
    app: Option<(Mid, usize)>,
    codecs: CodecConfig,
    // The rows that streams use of the codecs.
    types: PayloadTypes,
    medias: Vec<Media>,
    sealing: Option<SrtpContext<C>>,
    opening: Option<SrtpContext<C>>,
    // The index of the first SRTCP datagram under the keys that are set next.
    first_index: u64,
    streams: Streams<W, S>,
    probes: StreamRx<W>,
    seen: Seen,
    transport: Transport,
    // When it asked last for what is missing, at first 0.
    last_round: Instant,
    // Whether what peers asked for may leave: there was a tick since a poll gave no packet.
    released: bool,
    // How long after a report of a stream the next one is due.
    intervals: ReportIntervals,
    // The moments of receivers that wait for an answer.
    moments: ReceiverMoments,
    feedback: VecDeque<Rtcp>,
    application: Option<AppSpecificFeedback>,
    packet: Option<RtpPacket>,
    // What the peer asked and told of streams, and waits to be told.
    news: News,
    stopped: bool,
    // Where polling stands: no stream before this place is due.
    next_stream: usize,
}

impl<C: SrtpCipher, W: GapWindow, S: ResendStore<Sent>> Model for Session<C, W, S> {
    ghost use Rattle.session_core.specs.SessionRecord.{SessionView};
    ghost use Rattle.session_core.specs.Sending.{KeepsOrder};

    ghost Value = { SessionView W S };

    ghost view = { λ s. record {
      state = record {
        id = s.id;
        target = s.target;
        local_ssrc = s.local_ssrc;
        pause_threshold = s.streams.threshold;
        app = s.app;
        codecs = s.codecs;
        types = s.types;
        medias = s.medias.items;
        sealing = s.sealing;
        opening = s.opening;
        first_index = s.first_index;
        tx = s.streams.tx;
        transport = s.transport;
        last_round = s.last_round;
        released = s.released;
        intervals = s.intervals;
        moments = s.moments;
        feedback = s.feedback.items;
        application = s.application;
        packet = s.packet;
        news = s.news;
        stopped = s.stopped;
      };
      rx = s.streams.rx;
      known = s.streams.known;
      probes = s.probes;
      seen = s.seen;
      repairs = s.streams.repairs;
    } };

    ghost invariant = { λ s. KeepsOrder s.next_stream s.target s.first_index s.medias.items s.released s.streams.repairs s.streams.tx s.feedback.items };
}

/// The media section that the stream of probes is told to have.
fn probes_mid() -> MidRid
    ensures mid { result.0 ≡ probe_mid }
    ensures rid { result.1 ≡ None }
{
    match Mid::from_slice(b"0") {
        Some(mid) => MidRid(mid, None),
        None => unreachable!(),
    }
}

/// The contexts of one end: the one that seals and the one that opens.
#[derive(Drop)]
struct BothWays<C: SrtpCipher> {
    sealing: SrtpContext<C>,
    opening: SrtpContext<C>,
}

fn contexts<C: SrtpCipher>(
    alloc: Global,
    cipher: C,
    profile: SrtpProfile,
    material: &KeyingMaterial,
    left: bool,
    first_index: u64,
) -> Result<BothWays<C>, SrtpError>
    requires { first_index ≤ SRTCP_INDEX_LIMIT }
    ensures sealing { IfOk result (λ both. both.sealing ≡ new_state C.meaning profile material.now left first_index) }
    ensures opening { IfOk result (λ both. both.opening ≡ new_state C.meaning profile material.now (not left) 0) }
    ensures key_length { length material.now ≢ material_len profile → IsErrOf result SrtpError.KeyLength }
    ensures memory { length material.now ≡ material_len profile → IfErr result (λ e. e ≡ SrtpError.Memory) }
{
    let sealing = SrtpContext::new_at(alloc, cipher, profile, material, left, first_index)?;
    let opening = SrtpContext::new(alloc, cipher, profile, material, !left)?;
    Ok(BothWays { sealing, opening })
}

impl<C: SrtpCipher, W: GapWindow, S: ResendStore<Sent>> Session<C, W, S> {
    /// A session without keys, streams and media sections. The time grows with the square of the
    /// number of codecs.
    pub fn new(alloc: Global, config: SessionConfig) -> Result<Self, AllocError>
        requires target { LEAST_TARGET ≤ config.mtu.target }
        requires order { config.mtu.target ≤ config.mtu.warn }
        requires warn { config.mtu.warn ≤ GREATEST_WARN }
        requires index { config.srtcp_index ≤ SRTCP_INDEX_LIMIT }
        ensures { IfOk result (λ s. StandsFor W.remembers S.stands_for s (fresh_session config)) }
    {
        Ok(Session {
            alloc,
            id: SessionId::new(config.id),
            target: config.mtu.target,
            local_ssrc: config.local_ssrc,
            app: None,
            types: payload_types(alloc, &config.codecs)?,
            codecs: config.codecs,
            medias: Vec::new(alloc),
            sealing: None,
            opening: None,
            first_index: config.srtcp_index,
            streams: Streams::new(alloc, config.pause_threshold),
            probes: StreamRx::new(
                alloc,
                Ssrc::from(0),
                None,
                probes_mid(),
                true,
                config.pause_threshold,
            ),
            seen: Seen::new(alloc),
            transport: Transport {
                exts: config.exts,
                beginning: config.beginning,
                twcc: 0,
            },
            last_round: already_happened(),
            released: false,
            intervals: config.intervals,
            moments: ReceiverMoments::new(alloc),
            feedback: VecDeque::new(alloc),
            application: None,
            packet: None,
            news: News::new(alloc),
            stopped: false,
            next_stream: 0,
        })
    }

    /// The same in a box, which is handed on by its address: a session has some kilobytes.
    pub fn boxed(alloc: Global, config: SessionConfig) -> Result<Box<Self>, AllocError>
        requires target { LEAST_TARGET ≤ config.mtu.target }
        requires order { config.mtu.target ≤ config.mtu.warn }
        requires warn { config.mtu.warn ≤ GREATEST_WARN }
        requires index { config.srtcp_index ≤ SRTCP_INDEX_LIMIT }
        ensures { IfOk result (λ s. StandsFor W.remembers S.stands_for s.value (fresh_session config)) }
    {
        let session = Session::new(alloc, config)?;
        Ok(Box::new(alloc, session)?)
    }
}

impl<C: SrtpCipher, W: GapWindow, S: ResendStore<Sent>> Session<C, W, S> {
    ghost use Rattle.session_core.specs.declared.error.RtcError.TheVariants.{Stopped, Memory, KeyLength};
    ghost use Rattle.session_core.specs.Calls.{keyed};

    /// Sets the keys of both directions, in place of those before: with `left` it seals as the left
    /// side of the material and opens as the right one. The index of SRTCP datagrams begins with
    /// the configured one under the first keys, and with 0 under later ones.
    ///
    /// # Errors
    /// `Stopped` where an earlier call stopped the session; `KeyLength` where the material has
    /// another length than the profile's, and then nothing changes; `Memory`.
    pub fn set_keying_material(
        &mut self,
        cipher: C,
        profile: SrtpProfile,
        material: &KeyingMaterial,
        left: bool,
    ) -> Result<(), RtcError>
        ensures stopped { IsErrOf result Stopped ↔ IsTrue self.old.state.stopped }
        ensures ok { OnOk result (self.new ≡ record self.old { state = keyed C.meaning profile material.now left self.old.state }) }
        ensures length { IsErrOf result KeyLength ↔ ((self.old.state.stopped ≡ false) × (length material.now ≢ material_len profile)) }
        ensures unchanged { IsErrOf result KeyLength → self.new ≡ self.old }
        ensures still { IsErrOf result Stopped → self.new ≡ self.old }
        ensures memory { IsErrOf result Memory → self.new ≡ record self.old { state = record self.old.state { stopped = true } } }
        ensures only { self.old.state.stopped ≡ false → length material.now ≡ material_len profile → IfErr result (λ e. e ≡ Memory) }
    {
        if self.stopped {
            return Err(RtcError::Stopped);
        }
        match contexts(
            self.alloc,
            cipher,
            profile,
            material,
            left,
            self.first_index,
        ) {
            Ok(BothWays { sealing, opening }) => {
                self.sealing = Some(sealing);
                self.opening = Some(opening);
                self.first_index = 0;
                Ok(())
            }
            Err(SrtpError::KeyLength) => Err(RtcError::KeyLength),
            Err(_) => {
                self.stopped = true;
                Err(RtcError::Memory)
            }
        }
    }

    /// Adds a media section behind the others.
    ///
    /// # Errors
    /// `Stopped` where an earlier call stopped the session; `Memory`.
    pub fn add_media(&mut self, media: Media) -> Result<(), RtcError>
        ensures stopped { IsErrOf result Stopped ↔ IsTrue self.old.state.stopped }
        ensures ok { OnOk result (self.new ≡ record self.old { state = record self.old.state { medias = self.old.state.medias ++ media ∷ [] } }) }
        ensures err { OnErr result (self.new ≡ record self.old { state = record self.old.state { stopped = true } }) }
        ensures memory { self.old.state.stopped ≡ false → IfErr result (λ e. e ≡ Memory) }
    {
        if self.stopped {
            return Err(RtcError::Stopped);
        }
        self.next_stream = 0;
        match self.medias.push(media) {
            Ok(()) => Ok(()),
            Err(_) => {
                self.stopped = true;
                Err(RtcError::Memory)
            }
        }
    }

    /// Takes out the media sections of a mid, with their streams: those that send, with the packets
    /// that wait on them and those that they keep, and those that receive; what the peer asked and
    /// told of these is told no more. A packet that came on one of them and waits is told, and the
    /// numbers that opened under its SSRC stay remembered. The time grows with the number of media
    /// sections, and with the square of the number of streams.
    pub fn remove_media(&mut self, mid: Mid)
        ensures { (r : SessionRecord) → StandsFor W.remembers S.stands_for self.old r
            → StandsFor W.remembers S.stands_for self.new (without_media mid r) }
    {
        self.next_stream = 0;
        remove_section(&mut self.medias, mid);
        self.streams.remove_streams_by_mid(mid);
        self.news.remove_section(mid);
    }

    /// The media sections, in the order in which they were added.
    pub fn medias(&self) -> &[Media]
        ensures { result.now ≡ self.now.state.medias }
    {
        self.medias.as_slice()
    }

    /// The payload types that both ends know, and what they carry.
    pub fn codecs(&self) -> &CodecConfig
        ensures { result.now ≡ self.now.state.codecs }
    {
        &self.codecs
    }

    /// The payload types as streams use them: those of the codecs, and of their redundant data.
    pub fn payload_types(&self) -> &PayloadTypes
        ensures { result.now ≡ self.now.state.types }
    {
        &self.types
    }

    /// Whether some media section, or the data channel, has this mid.
    pub fn has_mid(&self, mid: Mid) -> bool
        ensures { result ≡ has_media mid self.now.state }
    {
        if has_mid(self.medias.as_slice(), mid) {
            return true;
        }
        match self.app {
            Some(app) => app.0 == mid,
            None => false,
        }
    }

    /// The first media section of a mid.
    pub fn media_by_mid(&self, mid: Mid) -> Option<&Media>
        ensures { option_copied result ≡ media_of mid self.now.state.medias }
    {
        media_of(self.medias.as_slice(), mid)
    }

    /// Whether there are keys.
    pub fn is_connected(&self) -> bool
        ensures { result ≡ is_some self.now.state.sealing }
    {
        self.sealing.is_some()
    }

    /// The identification of the session, at most 2^62 - 1.
    pub fn id(&self) -> SessionId
        ensures { result ≡ self.now.state.id }
    {
        self.id
    }

    /// The mid and the place of the data channel in the description, if they were set.
    pub fn app(&self) -> Option<(Mid, usize)>
        ensures { result ≡ self.now.state.app }
    {
        self.app
    }

    /// Sets the mid and the place of the data channel in the description, which do not change any
    /// more.
    ///
    /// # Errors
    /// `MidChanged` where another mid was set, else `IndexChanged` where another place was. Nothing
    /// changes then.
    pub fn set_app(&mut self, mid: Mid, index: usize) -> Result<(), AppError>
        ensures mid { IsErrOf result AppError.MidChanged ↔ IsTrue (has_other_mid mid self.old.state.app) }
        ensures place { IsErrOf result AppError.IndexChanged ↔ IsTrue (has_other_place mid index self.old.state.app) }
        ensures ok { OnOk result (self.new ≡ record self.old { state = record self.old.state { app = Some (mid, index) } }) }
        ensures err { OnErr result (self.new ≡ self.old) }
    {
        match self.app {
            Some(app) => {
                if app.0 != mid {
                    return Err(AppError::MidChanged);
                }
                if app.1 != index {
                    return Err(AppError::IndexChanged);
                }
            }
            None => {}
        }
        self.app = Some((mid, index));
        Ok(())
    }
}

impl<C: SrtpCipher, W: GapWindow, S: ResendStore<Sent>> Session<C, W, S> {
    ghost use Rattle.std.specs.Borrow.{sem};
    ghost use Rattle.std.specs.Option.{option_copied_mut};
    ghost use Rattle.session_core.specs.LendingMedia.{LendsMedia};
    ghost use Rattle.session_core.specs.LendingStreams.{LendsStreams};

    /// The streams, to be changed.
    pub fn streams(&mut self) -> &mut Streams<W, S>
        ensures* writes_back { sem 𝓛 (LendsStreams C.row C.Key128.row C.Key256.row W.row S.row C.SrtpCipher W.GapWindow S.ResendStore self.entry result) }
        ensures rx { result.now.rx ≡ self.old.rx }
        ensures known { result.now.known ≡ self.old.known }
        ensures repairs { result.now.repairs ≡ self.old.repairs }
        ensures tx { result.now.tx ≡ self.old.state.tx }
        ensures threshold { result.now.threshold ≡ self.old.state.pause_threshold }
    {
        self.next_stream = 0;
        &mut self.streams
    }

    /// The first media section of a mid, to be changed in its place. The time grows with the number
    /// of media sections.
    pub fn media_by_mid_mut(&mut self, mid: Mid) -> Option<&mut Media>
        ensures* writes_back { sem 𝓛 (LendsMedia C.row C.Key128.row C.Key256.row W.row S.row C.SrtpCipher W.GapWindow S.ResendStore self.entry mid result) }
        ensures value { option_copied_mut result ≡ media_of mid self.old.state.medias }
    {
        self.next_stream = 0;
        let place = media_place(self.medias.as_slice(), mid)?;
        self.medias.get_mut(place)
    }
}

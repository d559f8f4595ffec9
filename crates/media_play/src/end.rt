ghost use Rattle.std.specs.Prelude.{◌≡◌, ◌≢◌, ◌∷◌, ◌++◌, ◌<◌, ◌≤◌, ◌%◌, ◌^◌, ℕ, true, false, List, [], length, slice_index, Some, None, IfOk, IfErr, OnOk};
ghost use Rattle.rtp_wire.specs.BytesLaws.{AreWords};
ghost use Rattle.media_laws.specs.Feedback.{next_index};
ghost use Rattle.std.specs.Result.{result_err};
ghost use Rattle.rtp_wire.specs.Header.{csrc_of};
ghost use Rattle.stream_core.specs.Tables.{place_of, change_place};
ghost use Rattle.stream_core.specs.TxRecord.{written};
ghost use Rattle.stream_core.specs.Pauses.{on_view};
ghost use Rattle.session_turns.specs.Laws.{requesting};
ghost use Rattle.media_play.specs.Requests.{requested};
ghost use Rattle.media_model.specs.declared.entry.Side.{Side as Party};
ghost use Rattle.media_model.specs.declared.entry.Entry.{Entry};
ghost use Rattle.media_model.specs.declared.setup.Setup.{Setup as Given};
ghost use Rattle.media_play.specs.Errors.{cut_as};
ghost use Rattle.media_play.specs.Ends.{SessionStands};
ghost use Rattle.media_laws.specs.Listing.{OnlyAdds};
ghost use Rattle.media_play.specs.Knowing.{has_written, IsNoted};
ghost use Rattle.std.specs.Option.{option_map};
ghost use Rattle.mask_register.specs.MaskRegister.{Remembers};
ghost use Rattle.session_core.specs.Calls.{told, after_events};
ghost use Rattle.session_core.specs.SessionRecord.{SessionRecord};
ghost use Rattle.session_turns.specs.Reading.{packet_told};
ghost use Rattle.media_play.specs.Packets.{write_at, seals_from, packet_after, packet_in};

use crate::fault::StepError;
use crate::log::Log;
use crate::numbers::Numbers;
use crate::request::Request;
use crate::starting::{no_numbers, start};
use mask_register::MaskRegister;
use media_base::Bytes;
use media_laws::{Counter, StepFault};
use media_model::{Kind, Packet, Sealed, Setup, Side, Sources, Write};
use media_units::Instant;
use queue_store::QueueStore;
use rtcp_wire::{AppSpecificFeedback as Application, items_fit_by_lengths};
use rtp_base::NUMBER_LIMIT;
use rtp_wire::{MAX_SOURCES, RtpHeader, SeqNo, Ssrc};
use session_core::{Datagram, Event, MAX_APPLICATION_LEN, RtcError, Session};
use session_turns::{
    calls_are_right, calls_turn, hears_turn, openings_are_right, opens_turn, requests_turn,
    rtcp_openings_are_right, seals_are_right, ticks_cut, ticks_turn, writes_turn,
};
use srtp_core::SrtpCipher;
use std::alloc::{AllocError, Global};
use std::marker::Model;
use stream_core::{MAX_PAYLOAD_LEN, Payload, RtpPacket, RtpWrite, Sent};
use thiserror::Error;

/// Why a tick is not played, and what left of it before.
#[derive(Debug, Drop, Error)]
#[error("{cause}")]
pub struct TickFault {
    /// Why it is not played.
    pub cause: StepError,
    /// What was sealed until then.
    pub sealed: Vec<Datagram>,
}

/// What a datagram opened to, and the packet that it gives the application.
#[derive(Drop)]
pub struct Received {
    /// What it carries.
    pub kind: Kind,
    /// The SSRC of its header, or of the sender of its first item.
    pub ssrc: Ssrc,
    /// Its extended sequence number, or its SRTCP index.
    pub number: SeqNo,
    /// The datagram as it was before it was sealed.
    pub plain: Payload,
    /// None of RTCP, and on SSRC 0, under which probes are sent.
    pub packet: Option<Packet>,
}

/// One of the two ends of a run: its session, and the numbers that were written on each stream that
/// it sends, in the order of the streams.
#[derive(Drop)]
pub struct End<C: SrtpCipher> {
    // Boxed, so that an end is handed on quickly.
    session: Box<Session<C, MaskRegister, QueueStore<Sent>>>,
    written: Vec<Numbers>,
}

impl<C: SrtpCipher> Model for End<C> {
    ghost use Rattle.media_play.specs.Sessions.{EndState};

    ghost Value = { EndState };

    ghost view = { λ e. record { session = e.session.value; written = e.written.items } };
}

/// A write as it is handed to its stream.
fn rtp_write(alloc: Global, time: Instant, write: &Write) -> Result<RtpWrite, AllocError>
    requires { length write.now.csrc ≤ MAX_SOURCES }
    ensures { IfOk result (λ w. w ≡ write_at time write.now) }
{
    let payload = Payload::from_slice(alloc, write.payload.as_slice())?;
    Ok(
        RtpWrite::new(write.pt, write.number, write.rtp_time, time, payload)
            .marker(write.marker)
            .nackable(write.nackable)
            .csrc(write.csrc.as_slice()),
    )
}

/// Puts a write behind those that wait on the stream at this place.
fn put<C: SrtpCipher>(
    session: &mut Session<C, MaskRegister, QueueStore<Sent>>,
    place: usize,
    write: RtpWrite,
) -> Result<(), AllocError>
    requires { place < length session.old.state.tx }
    ensures { OnOk result (session.new ≡ record session.old {
      state = record session.old.state {
        tx = change_place (written write) session.old.state.tx place;
      };
    }) }
{
    match session.streams().tx_at(place).write_rtp(write) {
        Ok(()) => Ok(()),
        Err(_) => Err(AllocError),
    }
}

/// Has the incoming stream at this place ask its sender for something at the next tick.
fn request<C: SrtpCipher>(
    session: &mut Session<C, MaskRegister, QueueStore<Sent>>,
    place: usize,
    request: Request,
)
    requires { place < length session.old.rx }
    ensures { session.new ≡ record session.old {
      rx = change_place (on_view (requesting (requested request))) session.old.rx place;
    } }
{
    match request {
        Request::Keyframe(kind) => session.streams().rx_at(place).request_keyframe(kind),
        Request::Rate(rate) => session.streams().rx_at(place).request_remb(rate),
    }
}

/// The contributing sources of a header.
fn sources(alloc: Global, header: &RtpHeader) -> Result<Vec<u32>, AllocError>
    ensures { IfOk result (λ v. v.items ≡ csrc_of header.now) }
{
    header
        .csrc
        .iter()
        .take(header.csrc_count)
        .copied()
        .collect(alloc)
}

/// A packet that a session tells.
fn packet(alloc: Global, packet: &RtpPacket) -> Result<Packet, AllocError>
    ensures { IfOk result (λ p. p ≡ packet_told packet.now) }
{
    let header = &packet.header;
    Ok(Packet {
        ssrc: header.ssrc,
        number: packet.seq_no,
        pt: header.payload_type,
        rtp_time: header.timestamp,
        marker: header.marker,
        csrc: Sources::from_vec(alloc, sources(alloc, header)?)?,
        payload: Bytes::from_slice(alloc, packet.payload.as_slice())?,
    })
}

/// The same where there is one.
fn packet_of(alloc: Global, told: &Option<RtpPacket>) -> Result<Option<Packet>, AllocError>
    ensures { IfOk result (λ p. p ≡ option_map packet_told told.now) }
{
    match told {
        Some(told) => Ok(Some(packet(alloc, told)?)),
        None => Ok(None),
    }
}

/// The packet of an event, else the one before.
fn later_packet(event: Event, before: Option<RtpPacket>) -> Option<RtpPacket>
    ensures { result ≡ packet_after event before }
{
    match event {
        Event::RtpPacket(told) => Some(told),
        Event::AppSpecificFeedback(_)
        | Event::StreamPaused(_)
        | Event::KeyframeRequest(_)
        | Event::SenderFeedback(_)
        | Event::Remb(_) => before,
    }
}

/// Takes all that a session tells, and gives the packet of it, if there is one: no entry tells of
/// the rest.
fn take_packet<C: SrtpCipher>(
    session: &mut Session<C, MaskRegister, QueueStore<Sent>>,
) -> Option<RtpPacket>
    ensures packet { (r : SessionRecord) → SessionStands session.old r → result ≡ packet_in (told r) None }
    ensures after { (r : SessionRecord) → SessionStands session.old r → SessionStands session.new (after_events r) }
{
    let mut packet = None;
    while let Some(event) = session.poll_event() {
        packet = later_packet(event, packet);
    }
    packet
}

/// Adds the datagrams that a side sends to the log, in order.
pub fn log_all(side: Side, datagrams: Vec<Datagram>, log: &mut Log) -> Result<(), AllocError>
    ensures logged { OnOk result (log.new ≡ log.old ++ seals_from side datagrams.items) }
    ensures longer { OnlyAdds log.old log.new }
{
    for datagram in datagrams {
        log.push_sealed(Sealed {
            side,
            kind: datagram.kind,
            ssrc: datagram.ssrc,
            index: datagram.index,
            plain: datagram.plain,
            bytes: datagram.bytes,
        })?;
    }
    Ok(())
}

/// Each of these numbers has 8 bits, as its type says.
fn are_bytes(bytes: &[u8])
    ensures { (i : ℕ) → slice_index bytes.now i < 256 }
{
    let _count = bytes.len();
}

/// Why a side's session is cut off while it is drained.
fn used_up(side: Side, error: RtcError) -> StepError
    ensures { result ≡ cut_as side error }
{
    match error {
        RtcError::KeyExhausted(_) => StepError::KeyExhausted(side, Counter::Rtcp),
        RtcError::RepairsExhausted(ssrc) => StepError::KeyExhausted(side, Counter::Rtx(ssrc)),
        _ => StepError::Memory,
    }
}

impl<C: SrtpCipher> End<C> {
    ghost use Rattle.media_model.specs.declared.entry.Entry.TheVariants.{Wrote, Ticked, Called};
    ghost use Rattle.media_model.specs.declared.entry.Entry.TheVariants as happening;
    ghost use Rattle.media_model.specs.declared.entry.Call.TheVariants as call;
    ghost use Rattle.rtp_base.specs.declared.kind.Kind.TheVariants.{Rtp, Rtcp};
    ghost use Rattle.rtcp_wire.specs.declared.packet.Rtcp.TheVariants.{AppSpecificFeedback};
    ghost use Rattle.rtcp_wire.specs.Texts.{text_of};
    ghost use Rattle.run_model.specs.Whole.{Session as Plain, new_session};
    ghost use Rattle.setup_rules.specs.SetupRules.{setup_fault};
    ghost use Rattle.media_laws.specs.Config.{config_of};
    ghost use Rattle.media_laws.specs.Feedback.{IsSealOfPacket};
    ghost use Rattle.media_laws.specs.Keys.{sealing_of};
    ghost use Rattle.media_laws.specs.Opening.{got_as};
    ghost use Rattle.media_laws.specs.Rules.{write_fault, request_fault};
    ghost use Rattle.media_play.specs.Requests.{call_for};
    ghost use Rattle.media_play.specs.Errors.{stops_at, IsSendingCause};
    ghost use Rattle.media_play.specs.Packets.{sealed_from};
    ghost use Rattle.media_play.specs.Sessions.{Ready, ReadyAt, TurnsOn, TakesIn, TicksOn, IsTickCause};

    /// The end of a side of a setup that breaks no rule, before any step.
    pub fn new(alloc: Global, cipher: C, setup: &Setup, side: Side) -> Result<Self, AllocError>
        requires { setup_fault setup.now ≡ None }
        ensures { IfOk result (λ end. Ready C.meaning setup.now side end
            (new_session (config_of (sealing_of C.meaning setup.now) setup.now) side) []) }
    {
        Ok(End {
            session: start(alloc, cipher, setup, side)?,
            written: no_numbers(alloc, setup, side)?,
        })
    }

    /// Whether a number was written on the stream at a place.
    fn has_written(&self, place: usize, number: SeqNo) -> bool
        ensures { result ≡ has_written self.now.written place number }
    {
        match self.written.get(place) {
            Some(numbers) => numbers.has(number),
            None => false,
        }
    }

    /// The place of the stream of a write, or the first rule that the write breaks.
    pub fn check_write(&mut self, write: &Write) -> Result<usize, StepFault>
        ensures place { IfOk result (λ at. place_of write.now.ssrc self.old.session.state.tx ≡ Some at) }
        ensures within { IfOk result (λ at. at < length self.old.session.state.tx) }
        ensures sources { IfOk result (λ at. length write.now.csrc ≤ MAX_SOURCES) }
        ensures rule { (setup : Given) (side : Party) (a : Plain) (entries : List Entry)
            → Ready C.meaning setup side self.old a entries
            → write_fault setup entries side write.now ≡ result_err result }
        ensures same { self.new ≡ self.old }
    {
        let Some(place) = self.session.streams().tx_place(write.ssrc) else {
            return Err(StepFault::UnknownStream);
        };
        if !self.session.payload_types().has(write.pt) {
            return Err(StepFault::UnknownType);
        }
        if u64::from(write.number) >= NUMBER_LIMIT {
            return Err(StepFault::NumberTooBig);
        }
        if self.has_written(place, write.number) {
            return Err(StepFault::NumberUsed);
        }
        if write.payload.len() > MAX_PAYLOAD_LEN {
            return Err(StepFault::PayloadTooLong);
        }
        if write.csrc.as_slice().len() > MAX_SOURCES {
            return Err(StepFault::TooManySources);
        }
        Ok(place)
    }

    /// Remembers a number that is written on the stream at a place.
    fn note(&mut self, place: usize, number: SeqNo) -> Result<(), AllocError>
        ensures noted { OnOk result (IsNoted place number self.old.written self.new.written) }
        ensures session { self.new.session ≡ self.old.session }
    {
        if place < self.written.len() {
            self.written[place].insert(number)?;
        }
        Ok(())
    }

    /// Puts a write behind those that wait on the stream at this place.
    pub fn put(
        &mut self,
        alloc: Global,
        place: usize,
        time: Instant,
        write: &Write,
    ) -> Result<(), AllocError>
        requires place { place < length self.old.session.state.tx }
        requires sources { length write.now.csrc ≤ MAX_SOURCES }
        ensures { OnOk result ((setup : Given) (side : Party) (a : Plain) (entries : List Entry)
            → ReadyAt C.meaning setup side self.old a entries time
            → place_of write.now.ssrc self.old.session.state.tx ≡ Some place
            → write_fault setup entries side write.now ≡ None
            → (write.now.ssrc < 2 ^ 32) × (write.now.rtp_time < 2 ^ 32) × AreWords write.now.csrc
            → TurnsOn C.meaning setup side a self.new entries (Wrote side time write.now ∷ [])) }
    {
        writes_turn();
        let packet = rtp_write(alloc, time, write)?;
        self.note(place, write.number)?;
        put(&mut self.session, place, packet)
    }

    /// The place of the stream that a request is on, or the rule that the request breaks.
    pub fn check_request(&mut self, ssrc: Ssrc) -> Result<usize, StepFault>
        ensures place { IfOk result (λ at. place_of ssrc self.old.session.rx ≡ Some at) }
        ensures within { IfOk result (λ at. at < length self.old.session.rx) }
        ensures rule { (setup : Given) (side : Party) (a : Plain) (entries : List Entry)
            → Ready C.meaning setup side self.old a entries
            → request_fault setup side ssrc ≡ result_err result }
        ensures same { self.new ≡ self.old }
    {
        match self.session.streams().rx_place(ssrc) {
            Some(place) => Ok(place),
            None => Err(StepFault::UnknownStream),
        }
    }

    /// Has the stream at this place ask its sender for something at the next tick.
    pub fn request(&mut self, place: usize, what: Request)
        requires { place < length self.old.session.rx }
        ensures made { self.new.session ≡ record self.old.session {
          rx = change_place (on_view (requesting (requested what))) self.old.session.rx place;
        } }
        ensures turns { (setup : Given) (side : Party) (a : Plain) (entries : List Entry) (time : ℕ)
            → ReadyAt C.meaning setup side self.old a entries time
            → TurnsOn C.meaning setup side a self.new entries (Called side time (call_for what) ∷ []) }
    {
        requests_turn();
        request(&mut self.session, place, what);
    }

    /// Takes in bytes, and tells what they open to.
    pub fn receive(
        &mut self,
        alloc: Global,
        time: Instant,
        kind: Kind,
        bytes: &[u8],
    ) -> Result<Option<Received>, AllocError>
        ensures { IfOk result (λ received. (setup : Given) (side : Party) (a : Plain) (entries : List Entry)
            → ReadyAt C.meaning setup side self.old a entries time
            → TakesIn C.meaning setup side a self.new entries (got_as side time kind bytes.now) received) }
    {
        match kind {
            Kind::Rtp => self.receive_rtp(alloc, time, bytes),
            Kind::Rtcp => self.receive_rtcp(time, bytes),
        }
    }

    fn receive_rtp(
        &mut self,
        alloc: Global,
        time: Instant,
        bytes: &[u8],
    ) -> Result<Option<Received>, AllocError>
        ensures { IfOk result (λ received. (setup : Given) (side : Party) (a : Plain) (entries : List Entry)
            → ReadyAt C.meaning setup side self.old a entries time
            → TakesIn C.meaning setup side a self.new entries (got_as side time Rtp bytes.now) received) }
    {
        opens_turn();
        openings_are_right();
        are_bytes(bytes);
        let session = &mut *self.session;
        let opened = match session.handle_rtp_receive(time, bytes) {
            Ok(opened) => opened,
            Err(_) => return Err(AllocError),
        };
        let told = take_packet(session);
        let Some(opened) = opened else {
            return Ok(None);
        };
        Ok(Some(Received {
            kind: Kind::Rtp,
            ssrc: opened.ssrc,
            number: opened.index,
            plain: opened.plain,
            packet: packet_of(alloc, &told)?,
        }))
    }

    fn receive_rtcp(&mut self, time: Instant, bytes: &[u8]) -> Result<Option<Received>, AllocError>
        ensures { IfOk result (λ received. (setup : Given) (side : Party) (a : Plain) (entries : List Entry)
            → ReadyAt C.meaning setup side self.old a entries time
            → TakesIn C.meaning setup side a self.new entries (got_as side time Rtcp bytes.now) received) }
    {
        hears_turn();
        rtcp_openings_are_right();
        let session = &mut *self.session;
        let opened = match session.handle_rtcp_receive(time, bytes) {
            Ok(opened) => opened,
            Err(_) => return Err(AllocError),
        };
        take_packet(session);
        let Some(heard) = opened else {
            return Ok(None);
        };
        Ok(Some(Received {
            kind: Kind::Rtcp,
            ssrc: heard.ssrc,
            number: heard.index,
            plain: heard.plain,
            packet: None,
        }))
    }

    /// Has the session send feedback of an application, of which nothing else waits, and gives the
    /// datagram that seals it.
    pub fn send_application(
        &mut self,
        side: Side,
        time: Instant,
        feedback: Application,
    ) -> Result<Datagram, StepError>
        requires moment { time ≢ 0 }
        requires whole { length feedback.payload % 4 ≡ 0 }
        requires few { length feedback.payload ≤ MAX_APPLICATION_LEN }
        ensures sealed { IfOk result (λ datagram. (setup : Given) (a : Plain) (entries : List Entry)
            → ReadyAt C.meaning setup side self.old a entries time → a.rtcp ≡ next_index setup side entries
            → IsSealOfPacket (sealing_of C.meaning setup) setup side entries
            (text_of (AppSpecificFeedback feedback)) (sealed_from side datagram)
            × TurnsOn C.meaning setup side a self.new entries (Called side time call.Application
            ∷ happening.Sealed (sealed_from side datagram) ∷ [])) }
        ensures refused { IfErr result (λ e. (setup : Given) (a : Plain) (entries : List Entry)
            → ReadyAt C.meaning setup side self.old a entries time → a.rtcp ≡ next_index setup side entries
            → IsSendingCause setup side entries e) }
        ensures stops { IfErr result (λ e. (stops_at e ≡ true) × (e ≢ StepError.Stopped)) }
    {
        items_fit_by_lengths();
        calls_turn();
        calls_are_right();
        let Application {
            sender_ssrc,
            media_ssrc,
            payload,
        } = feedback;
        let session = &mut *self.session;
        match session.send_app_specific_feedback(sender_ssrc, media_ssrc, payload) {
            Ok(()) => {}
            Err(_) => return Err(StepError::Memory),
        }
        match session.poll_datagram(time) {
            Ok(Some(datagram)) => Ok(datagram),
            Err(RtcError::KeyExhausted(_)) => Err(StepError::KeyExhausted(side, Counter::Rtcp)),
            // None comes only without keys, which an end has.
            Ok(None) | Err(_) => Err(StepError::Memory),
        }
    }

    /// A tick: gives all that leaves, in order: what asks for missing numbers, then of each stream
    /// what was asked for and all packets that wait.
    ///
    /// # Errors
    /// `KeyExhausted`, with all that leaves until then; `Memory`.
    pub fn tick(
        &mut self,
        alloc: Global,
        side: Side,
        time: Instant,
    ) -> Result<Vec<Datagram>, TickFault>
        requires { time ≢ 0 }
        ensures sealed { IfOk result (λ datagrams. (setup : Given) (a : Plain) (entries : List Entry)
            → ReadyAt C.meaning setup side self.old a entries time
            → TicksOn C.meaning setup side a self.new entries time (seals_from side datagrams.items)) }
        ensures refused { IfErr result (λ fault. (setup : Given) (a : Plain) (entries : List Entry)
            → ReadyAt C.meaning setup side self.old a entries time
            → IsTickCause C.meaning setup side a time fault.cause
            (Ticked side time ∷ seals_from side fault.sealed.items)) }
        ensures stops { IfErr result (λ fault. (stops_at fault.cause ≡ true)
            × (fault.cause ≢ StepError.Stopped)) }
    {
        ticks_turn();
        ticks_cut();
        seals_are_right();
        let session = &mut *self.session;
        match session.handle_timeout(time) {
            Ok(()) => {}
            Err(_) => {
                return Err(TickFault {
                    cause: StepError::Memory,
                    sealed: Vec::new(alloc),
                });
            }
        }
        let drained = match session.drain(time) {
            Ok(drained) => drained,
            Err(fault) => {
                return Err(TickFault {
                    cause: used_up(side, fault.error),
                    sealed: fault.sofar.datagrams,
                });
            }
        };
        Ok(drained.datagrams)
    }
}

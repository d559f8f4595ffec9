//! A drain: all that a session tells, then all that leaves it.
ghost use Rattle.std.specs.Prelude.{◌≡◌, ◌||◌, ◌++◌, [], None, false, is_err, IsTrue, IsErrAnd, IfOk, IfErr, OnOk, OnErr};
ghost use Rattle.std.specs.Bool.{OnTrue, OnFalse};
ghost use Rattle.session_core.specs.Sending.{Drains, NextDatagram};
ghost use Rattle.session_core.specs.Draining.{IsDrainCut, IsCutOff};
ghost use Rattle.session_core.specs.SessionRecord.{SessionRecord, StandsFor};
ghost use Rattle.session_core.specs.Calls.{after_events, told, wake_of};
ghost use Rattle.session_core.specs.declared.error.RtcError.TheVariants.{Stopped, Memory};

use super::Session;
use crate::datagram::{Datagram, DrainFault, Drained, Event};
use crate::error::RtcError;
use media_units::{Instant, already_happened};
use repair_core::GapWindow;
use resend_core::ResendStore;
use srtp_core::SrtpCipher;
use std::alloc::AllocError;
use stream_core::Sent;

/// A drain that was cut off, with what the session told and sent before.
fn cut_off(error: RtcError, events: Vec<Event>, datagrams: Vec<Datagram>) -> DrainFault
    ensures { result ≡ record { error = error; sofar = record { events = events; datagrams = datagrams; wake = None } } }
{
    DrainFault {
        error,
        sofar: Drained {
            events,
            datagrams,
            wake: None,
        },
    }
}

impl<C: SrtpCipher, W: GapWindow, S: ResendStore<Sent>> Session<C, W, S> {
    /// Takes all that the session tells, behind what was taken before. Room is reserved before each
    /// event.
    fn take_events(&mut self, sofar: &mut Vec<Event>) -> Result<(), AllocError>
        requires none { sofar.old.items ≡ [] }
        ensures taken { OnOk result ((r : SessionRecord) → StandsFor W.remembers S.stands_for self.old r
            → (sofar.new.items ≡ told r) × StandsFor W.remembers S.stands_for self.new (after_events r)) }
        ensures front { OnErr result ((r : SessionRecord) → StandsFor W.remembers S.stands_for self.old r
            → (between : SessionRecord) × StandsFor W.remembers S.stands_for self.new between
            × (told r ≡ sofar.new.items ++ told between) × (after_events between ≡ after_events r)) }
        ensures runs { self.new.state.stopped ≡ self.old.state.stopped }
    {
        // Mostly a packet comes alone.
        sofar.reserve_exact(1)?;
        loop {
            sofar.reserve(1)?;
            if !self.take_event(sofar) {
                return Ok(());
            }
        }
    }

    /// Whether polls have come behind the last stream and nothing else leaves at a moment: then
    /// what is asked for later waits for a tick.
    fn ends(&mut self, now: Instant) -> bool
        ensures ended { OnTrue result ((r : SessionRecord) → StandsFor W.remembers S.stands_for self.old r
            → (after : SessionRecord) × NextDatagram C.meaning now r after None × StandsFor W.remembers S.stands_for self.new after) }
        ensures same { OnFalse result (self.new ≡ self.old) }
        ensures runs { self.new.state.stopped ≡ self.old.state.stopped }
    {
        if self.next_stream < self.streams.tx_len() || !self.feedback.is_empty() {
            return false;
        }
        if now == already_happened() || self.sealing.is_none() {
            return false;
        }
        self.released = false;
        true
    }

    /// Takes all datagrams that leave, behind those before. Room is reserved before each poll.
    fn drain_datagrams(&mut self, now: Instant, sofar: &mut Vec<Datagram>) -> Result<(), RtcError>
        requires runs { self.old.state.stopped ≡ false }
        requires none { sofar.old.items ≡ [] }
        ensures drained { OnOk result ((r : SessionRecord) → StandsFor W.remembers S.stands_for self.old r
            → (after : SessionRecord) × Drains C.meaning now r after sofar.new.items × StandsFor W.remembers S.stands_for self.new after) }
        ensures sofar { IfErr result (λ e. (r : SessionRecord) → StandsFor W.remembers S.stands_for self.old r
            → (after : SessionRecord) × IsDrainCut C.meaning now r e after sofar.new.items × StandsFor W.remembers S.stands_for self.new after) }
        ensures latch { self.new.state.stopped ≡ is_err result }
    {
        if self.ends(now) {
            return Ok(());
        }
        loop {
            if sofar.reserve(1).is_err() {
                self.stopped = true;
                return Err(RtcError::Memory);
            }
            match self.poll_datagram(now) {
                Ok(Some(datagram)) => sofar.push_reserved(datagram),
                Ok(None) => return Ok(()),
                Err(error) => return Err(error),
            }
        }
    }

    /// Takes all that the session tells and all that leaves, and when it wants a tick next. The
    /// time grows with the number of streams.
    ///
    /// # Errors
    /// `Stopped` where an earlier call stopped the session; `KeyExhausted` where feedback is due
    /// behind the last index of SRTCP datagrams; `RepairsExhausted` where a packet that is asked
    /// for is due and no number is left for it; `Memory`; each with what was taken before.
    pub fn drain(&mut self, now: Instant) -> Result<Drained, DrainFault>
        ensures stopped { IsTrue self.old.state.stopped → IsErrAnd result (λ fault. (fault.error ≡ Stopped)
            × (fault.sofar.events.items ≡ []) × (fault.sofar.datagrams.items ≡ [])) }
        ensures still { IsTrue self.old.state.stopped → self.new ≡ self.old }
        ensures latch { self.new.state.stopped ≡ self.old.state.stopped || is_err result }
        ensures drained { IfOk result (λ all. (r : SessionRecord) → StandsFor W.remembers S.stands_for self.old r
            → (all.events.items ≡ told r) × ((after : SessionRecord)
            × Drains C.meaning now (after_events r) after all.datagrams.items × StandsFor W.remembers S.stands_for self.new after)) }
        ensures wake { IfOk result (λ all. (r : SessionRecord) → StandsFor W.remembers S.stands_for self.new r → all.wake ≡ wake_of r) }
        ensures sofar { self.old.state.stopped ≡ false → IfErr result (λ fault. (r : SessionRecord) → StandsFor W.remembers S.stands_for self.old r
            → (after : SessionRecord) × IsCutOff C.meaning now r fault.error after fault.sofar.events.items fault.sofar.datagrams.items
            × StandsFor W.remembers S.stands_for self.new after) }
        ensures no_wake { IfErr result (λ fault. fault.sofar.wake ≡ None) }
    {
        let mut events = Vec::new(self.alloc);
        let mut datagrams = Vec::new(self.alloc);
        if self.stopped {
            return Err(cut_off(RtcError::Stopped, events, datagrams));
        }
        if self.take_events(&mut events).is_err() {
            self.stopped = true;
            return Err(cut_off(RtcError::Memory, events, datagrams));
        }
        match self.drain_datagrams(now, &mut datagrams) {
            Ok(()) => Ok(Drained {
                events,
                datagrams,
                wake: self.poll_timeout(),
            }),
            Err(error) => Err(cut_off(error, events, datagrams)),
        }
    }
}

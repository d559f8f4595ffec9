//! What a session tells, one event a poll.
ghost use Rattle.std.specs.Prelude.{◌≡◌, ◌↔◌, ◌<◌, ◌++◌, None, IsTrue, IfOk, IfErr, IfSome, IsErrOf};
ghost use Rattle.std.specs.Bool.{OnTrue, OnFalse};
ghost use Rattle.std.specs.Vec.{vec_len, vec_capacity};
ghost use Rattle.session_core.specs.SessionRecord.{SessionRecord, StandsFor};
ghost use Rattle.session_core.specs.Calls.{after_event, after_events, next_event, events_in, told, Polled};
ghost use Rattle.session_core.specs.declared.error.RtcError.TheVariants.{Stopped};

use super::Session;
use crate::datagram::Event;
use crate::error::RtcError;
use repair_core::GapWindow;
use resend_core::ResendStore;
use srtp_core::SrtpCipher;
use stream_core::Sent;

impl<C: SrtpCipher, W: GapWindow, S: ResendStore<Sent>> Session<C, W, S> {
    /// What the session tells next, where there are keys: the feedback of an application that came
    /// last, then which incoming streams were paused or unpaused, in order, then the packet that
    /// came last, then for which outgoing streams the peer asks for key frames, whose senders
    /// reported of the incoming ones, and at which rates the outgoing ones are to come at most,
    /// each if it was not told.
    pub fn poll_event(&mut self) -> Option<Event>
        ensures event { (r : SessionRecord) → StandsFor W.remembers S.stands_for self.old r → result ≡ next_event r }
        ensures after { (r : SessionRecord) → StandsFor W.remembers S.stands_for self.old r → StandsFor W.remembers S.stands_for self.new (after_event r) }
        ensures told { (r : SessionRecord) → StandsFor W.remembers S.stands_for self.old r → Polled r result (after_event r) }
        ensures runs { self.new.state.stopped ≡ self.old.state.stopped }
        ensures fewer { IfSome result (λ e. events_in self.new < events_in self.old) }
    {
        if self.sealing.is_none() || self.opening.is_none() {
            return None;
        }
        if let Some(feedback) = self.application.take() {
            return Some(Event::AppSpecificFeedback(feedback));
        }
        if let Some(paused) = self.streams.poll_stream_paused() {
            return Some(Event::StreamPaused(paused));
        }
        if let Some(packet) = self.packet.take() {
            return Some(Event::RtpPacket(packet));
        }
        self.news.next()
    }

    /// Takes what `poll_event` tells next, behind what was taken before, and answers whether more
    /// may wait: mostly a packet is told last.
    pub(super) fn take_event(&mut self, sofar: &mut Vec<Event>) -> bool
        requires room { vec_len sofar.old < vec_capacity sofar.old }
        ensures more { OnTrue result ((r : SessionRecord) → StandsFor W.remembers S.stands_for self.old r
            → (after : SessionRecord) × StandsFor W.remembers S.stands_for self.new after
            × (sofar.old.items ++ told r ≡ sofar.new.items ++ told after) × (after_events after ≡ after_events r)) }
        ensures last { OnFalse result ((r : SessionRecord) → StandsFor W.remembers S.stands_for self.old r
            → (sofar.old.items ++ told r ≡ sofar.new.items) × StandsFor W.remembers S.stands_for self.new (after_events r)) }
        ensures fewer { OnTrue result (events_in self.new < events_in self.old) }
        ensures runs { self.new.state.stopped ≡ self.old.state.stopped }
    {
        if self.sealing.is_none() || self.opening.is_none() {
            return false;
        }
        if let Some(feedback) = self.application.take() {
            sofar.push_reserved(Event::AppSpecificFeedback(feedback));
            return true;
        }
        if let Some(paused) = self.streams.poll_stream_paused() {
            sofar.push_reserved(Event::StreamPaused(paused));
            return true;
        }
        if let Some(packet) = self.packet.take() {
            sofar.push_reserved(Event::RtpPacket(packet));
            return !self.news.is_empty();
        }
        let Some(event) = self.news.next() else {
            return false;
        };
        sofar.push_reserved(event);
        true
    }

    /// What the session tells next of what may want memory: nothing yet.
    ///
    /// # Errors
    /// `Stopped` where an earlier call stopped the session.
    pub fn poll_event_fallible(&mut self) -> Result<Option<Event>, RtcError>
        ensures stopped { IsErrOf result Stopped ↔ IsTrue self.old.state.stopped }
        ensures only { IfErr result (λ e. e ≡ Stopped) }
        ensures none { IfOk result (λ e. e ≡ None) }
        ensures same { self.new ≡ self.old }
    {
        if self.stopped {
            return Err(RtcError::Stopped);
        }
        Ok(None)
    }
}

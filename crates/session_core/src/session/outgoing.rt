//! What leaves a session: feedback, and one datagram a poll.
ghost use Rattle.std.specs.Prelude.{◌≡◌, ◌≤◌, ◌%◌, ◌↔◌, ◌||◌, ◌<◌, ◌⊎◌, ℕ, Some, None, [], true, false, length, is_err, IsTrue, IfOk, IfErr, IfSome, IfNone, OnOk, OnErr, IsErrOf};
ghost use Rattle.rtcp_wire.specs.declared.packet.Rtcp.TheVariants as item;
ghost use Rattle.srtp_core.specs.declared.counter.Counter.TheVariants as counter;
ghost use Rattle.session_core.specs.Feedback.{exhausts};
ghost use Rattle.stream_core.specs.TxRecord.{IsSealable};
ghost use Rattle.session_core.specs.SessionRecord.{SessionRecord, StandsFor};
ghost use Rattle.session_core.specs.Sending.{next_place, unreleased, after_streams, Gives, NextPacket, NextDatagram, waiting_in};
ghost use Rattle.stream_core.specs.StreamsRecord.{StreamsRecord};
ghost use Rattle.session_core.specs.Draining.{stopped_from, stopped_record, PacketFails, PollFails};
ghost use Rattle.session_core.specs.Calls.{with_feedback};
ghost use Rattle.session_core.specs.declared.error.RtcError.TheVariants.{Stopped, Memory, KeyExhausted, RepairsExhausted};

use super::Session;
use crate::config::MAX_APPLICATION_LEN;
use crate::datagram::Datagram;
use crate::error::RtcError;
use crate::feedback::poll_compound;
use crate::sending::{first_due, seal};
use media_base::Bytes;
use media_units::{Instant, already_happened};
use repair_core::GapWindow;
use resend_core::ResendStore;
use rtcp_wire::{AppSpecificFeedback, Rtcp, items_fit_by_lengths};
use rtp_base::{Kind, Ssrc};
use rtx_core::ResendError;
use srtp_core::SrtpCipher;
use stream_core::{PacketReceipt, Sent};

/// What it means for a session that a stream gives nothing, whose repairs have this SSRC.
fn cause(error: ResendError, rtx: Option<Ssrc>) -> RtcError
    ensures memory { error ≡ ResendError.Memory → result ≡ Memory }
    ensures exhausted { error ≡ ResendError.Exhausted → (ssrc : ℕ) → rtx ≡ Some ssrc → result ≡ RepairsExhausted ssrc }
    ensures causes { (result ≡ Memory) ⊎ ((ssrc : ℕ) × (result ≡ RepairsExhausted ssrc)) }
{
    match (error, rtx) {
        (ResendError::Exhausted, Some(ssrc)) => RtcError::RepairsExhausted(ssrc),
        _ => RtcError::Memory,
    }
}

impl<C: SrtpCipher, W: GapWindow, S: ResendStore<Sent>> Session<C, W, S> {
    /// Queues feedback of an application (RFC 4585 section 6.4): whole words of 4 bytes, at most
    /// 800 bytes. It leaves at the next poll behind what waits.
    ///
    /// # Errors
    /// `Stopped` where an earlier call stopped the session; `Memory`.
    pub fn send_app_specific_feedback(
        &mut self,
        sender_ssrc: Ssrc,
        media_ssrc: Ssrc,
        payload: Bytes,
    ) -> Result<(), RtcError>
        requires whole { length payload % 4 ≡ 0 }
        requires few { length payload ≤ MAX_APPLICATION_LEN }
        ensures stopped { IsErrOf result Stopped ↔ IsTrue self.old.state.stopped }
        ensures ok { OnOk result (self.new ≡ record self.old {
          state = with_feedback (item.AppSpecificFeedback (record {
            sender_ssrc = sender_ssrc;
            media_ssrc = media_ssrc;
            payload = payload;
          })) self.old.state;
        }) }
        ensures unchanged { IsErrOf result Stopped → self.new ≡ self.old }
        ensures memory { self.old.state.stopped ≡ false → IfErr result (λ e. e ≡ Memory) }
        ensures failed { IsErrOf result Memory → self.new ≡ record self.old { state = stopped_from self.old.state } }
    {
        if self.stopped {
            return Err(RtcError::Stopped);
        }
        items_fit_by_lengths();
        let feedback = AppSpecificFeedback {
            sender_ssrc,
            media_ssrc,
            payload,
        };
        match self.feedback.push_back(Rtcp::AppSpecificFeedback(feedback)) {
            Ok(()) => Ok(()),
            Err(_) => {
                self.stopped = true;
                Err(RtcError::Memory)
            }
        }
    }

    /// Drops the feedback that waits to be sent.
    pub fn clear_feedback(&mut self)
        ensures { self.new ≡ record self.old { state = record self.old.state { feedback = [] } } }
    {
        self.feedback.clear();
    }

    /// The datagram that leaves next: where feedback waits, the compound of the first items that
    /// fit the target; else of the first stream, in order of declaration, that has a packet written
    /// before the last tick, or one that is asked for since before it, and whose mid is a media
    /// section's: first what is asked for, as far as it is kept and its cap is not met (RFC 4588),
    /// then the packets that wait. None where there is no such stream, at moment 0 and without
    /// keys; a compound that is due without keys is lost.
    ///
    /// # Errors
    /// `Stopped` where an earlier call stopped the session; `KeyExhausted` exactly where feedback
    /// is due behind the last index of SRTCP datagrams; `RepairsExhausted` where a packet that is
    /// asked for is due and its stream has no number left for it; `Memory`. All but the first stop
    /// the session.
    pub fn poll_datagram(&mut self, now: Instant) -> Result<Option<Datagram>, RtcError>
        ensures stopped { IsErrOf result Stopped ↔ IsTrue self.old.state.stopped }
        ensures exhausted { IsErrOf result (KeyExhausted counter.Rtcp)
            ↔ ((self.old.state.stopped ≡ false) × (exhausts now self.old.state ≡ true)) }
        ensures polled { IfOk result (λ d. (r : SessionRecord) → StandsFor W.remembers S.stands_for self.old r
            → (after : SessionRecord) × NextDatagram C.meaning now r after d × StandsFor W.remembers S.stands_for self.new after) }
        ensures within { IfOk result (λ d. IfSome d (λ s. s.kind ≡ Kind.Rtcp → length s.bytes ≤ self.old.state.target)) }
        ensures latch { self.new.state.stopped ≡ self.old.state.stopped || is_err result }
        ensures unchanged { IsErrOf result Stopped → self.new ≡ self.old }
        ensures fewer { IfOk result (λ d. IfSome d (λ s. waiting_in self.new < waiting_in self.old)) }
        ensures failed { self.old.state.stopped ≡ false → IfErr result (λ e. (r : SessionRecord) → StandsFor W.remembers S.stands_for self.old r
            → (after : SessionRecord) × PollFails now r after e × StandsFor W.remembers S.stands_for self.new (stopped_record after)) }
        ensures rx { self.new.rx ≡ self.old.rx }
        ensures known { self.new.known ≡ self.old.known }
        ensures probes { self.new.probes ≡ self.old.probes }
        ensures seen { self.new.seen ≡ self.old.seen }
    {
        if self.stopped {
            return Err(RtcError::Stopped);
        }
        match self.poll_next(now) {
            Ok(datagram) => Ok(datagram),
            Err(error) => {
                self.stopped = true;
                Err(error)
            }
        }
    }

    fn poll_next(&mut self, now: Instant) -> Result<Option<Datagram>, RtcError>
        ensures running { IsErrOf result Stopped → ⊥ }
        ensures exhausted { IsErrOf result (KeyExhausted counter.Rtcp) ↔ IsTrue (exhausts now self.old.state) }
        ensures polled { IfOk result (λ d. (r : SessionRecord) → StandsFor W.remembers S.stands_for self.old r
            → (after : SessionRecord) × NextDatagram C.meaning now r after d × StandsFor W.remembers S.stands_for self.new after) }
        ensures within { IfOk result (λ d. IfSome d (λ s. s.kind ≡ Kind.Rtcp → length s.bytes ≤ self.old.state.target)) }
        ensures runs { self.new.state.stopped ≡ self.old.state.stopped }
        ensures fewer { IfOk result (λ d. IfSome d (λ s. waiting_in self.new < waiting_in self.old)) }
        ensures failed { IfErr result (λ e. (r : SessionRecord) → StandsFor W.remembers S.stands_for self.old r
            → (after : SessionRecord) × PollFails now r after e × StandsFor W.remembers S.stands_for self.new after) }
        ensures rx { self.new.rx ≡ self.old.rx }
        ensures known { self.new.known ≡ self.old.known }
        ensures probes { self.new.probes ≡ self.old.probes }
        ensures seen { self.new.seen ≡ self.old.seen }
    {
        if now == already_happened() {
            return Ok(None);
        }
        if !self.feedback.is_empty() {
            return poll_compound(
                self.alloc,
                self.target,
                &mut self.feedback,
                &mut self.sealing,
            );
        }
        if self.sealing.is_none() {
            return Ok(None);
        }
        let receipt = match self.poll_packet(now) {
            Ok(Some(receipt)) => receipt,
            Ok(None) => return Ok(None),
            Err(error) => return Err(error),
        };
        let sealed = match seal(&mut self.sealing, receipt) {
            Ok(sealed) => sealed,
            Err(_) => return Err(RtcError::Memory),
        };
        Ok(sealed)
    }

    /// The packet that leaves next, where there are keys.
    fn poll_packet(&mut self, now: Instant) -> Result<Option<PacketReceipt>, RtcError>
        ensures causes { IfErr result (λ e. (e ≡ Memory) ⊎ ((ssrc : ℕ) × (e ≡ RepairsExhausted ssrc))) }
        ensures polled { IfOk result (λ o. (r : SessionRecord) → StandsFor W.remembers S.stands_for self.old r
            → (after : SessionRecord) × NextPacket now r after o × StandsFor W.remembers S.stands_for self.new after) }
        ensures sealable { IfOk result (λ o. IfSome o IsSealable) }
        ensures runs { self.new.state.stopped ≡ self.old.state.stopped }
        ensures feedback { self.new.state.feedback ≡ self.old.state.feedback }
        ensures sealing { self.new.state.sealing ≡ self.old.state.sealing }
        ensures fewer { IfOk result (λ o. IfSome o (λ s. waiting_in self.new < waiting_in self.old)) }
        ensures failed { IfErr result (λ e. (r : SessionRecord) → StandsFor W.remembers S.stands_for self.old r
            → (after : SessionRecord) × PacketFails now r after e × StandsFor W.remembers S.stands_for self.new after) }
        ensures rx { self.new.rx ≡ self.old.rx }
        ensures known { self.new.known ≡ self.old.known }
        ensures probes { self.new.probes ≡ self.old.probes }
        ensures seen { self.new.seen ≡ self.old.seen }
    {
        loop {
            match self.poll_stream(now) {
                Ok(Some(Some(receipt))) => return Ok(Some(receipt)),
                Ok(Some(None)) => {}
                Ok(None) => return Ok(None),
                Err(error) => return Err(error),
            }
        }
    }

    /// What the first stream that is due gives, which may be nothing; None where none is due.
    fn poll_stream(&mut self, now: Instant) -> Result<Option<Option<PacketReceipt>>, RtcError>
        ensures causes { IfErr result (λ e. (e ≡ Memory) ⊎ ((ssrc : ℕ) × (e ≡ RepairsExhausted ssrc))) }
        ensures none { IfOk result (λ o. IfNone o ((r : SessionRecord) → StandsFor W.remembers S.stands_for self.old r
            → (next_place r ≡ None) × StandsFor W.remembers S.stands_for self.new (unreleased r))) }
        ensures polled { IfOk result (λ o. IfSome o (λ p. (r : SessionRecord) → StandsFor W.remembers S.stands_for self.old r
            → (place : ℕ) × (s : StreamsRecord) × (next_place r ≡ Some place) × Gives now r place s p × StandsFor W.remembers S.stands_for self.new (after_streams r s p))) }
        ensures sealable { IfOk result (λ o. IfSome o (λ p. IfSome p IsSealable)) }
        ensures runs { self.new.state.stopped ≡ self.old.state.stopped }
        ensures feedback { self.new.state.feedback ≡ self.old.state.feedback }
        ensures sealing { self.new.state.sealing ≡ self.old.state.sealing }
        ensures fewer { IfOk result (λ o. IfSome o (λ p. waiting_in self.new < waiting_in self.old)) }
        ensures failed { IfErr result (λ e. (r : SessionRecord) → StandsFor W.remembers S.stands_for self.old r
            → (after : SessionRecord) × PacketFails now r after e × StandsFor W.remembers S.stands_for self.new after) }
        ensures rx { self.new.rx ≡ self.old.rx }
        ensures known { self.new.known ≡ self.old.known }
        ensures probes { self.new.probes ≡ self.old.probes }
        ensures seen { self.new.seen ≡ self.old.seen }
    {
        let medias = self.medias.as_slice();
        let Some(place) = first_due(&self.streams, medias, self.released, self.next_stream) else {
            self.next_stream = self.streams.tx_len();
            self.released = false;
            return Ok(None);
        };
        self.next_stream = place;
        let rtx = self.streams.tx(place).rtx();
        let polled = self
            .streams
            .poll_packet(place, now, &mut self.transport, &self.types);
        let polled = match polled {
            Ok(polled) => polled,
            Err(error) => return Err(cause(error, rtx)),
        };
        Ok(Some(polled))
    }
}

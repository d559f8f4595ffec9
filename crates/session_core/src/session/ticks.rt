//! The ticks of a session, which of them are rounds, and when it wants one.
ghost use Rattle.std.specs.Prelude.{◌≡◌, ◌↔◌, ◌||◌, true, false, if◌then◌else◌, is_err, IsTrue, IfOk, IfErr, OnOk, OnErr, IsErrOf};
ghost use Rattle.std.specs.List.{AllByRecursion};
ghost use Rattle.session_core.specs.Feedback.{FitsAlone};
ghost use Rattle.session_core.specs.Reports.{sender_ssrc, due_senders, some_reports, sender_and_answers, reports_at};
ghost use Rattle.session_core.specs.Rounds.{is_round, is_one, is_spoken, tick_of, after_incoming, after_outgoing, after_timeout, requests_at, round_at, send_at};
ghost use Rattle.session_core.specs.Draining.{stopped_from};
ghost use Rattle.session_core.specs.SessionRecord.{SessionRecord, StandsFor};
ghost use Rattle.session_core.specs.Calls.{wake_of};
ghost use Rattle.session_core.specs.declared.error.RtcError.TheVariants.{Stopped, Memory};

use super::Session;
use crate::error::RtcError;
use crate::reporting::{
    ReportTime, SenderItems, answered_where, report_all, sender_items, tell_kinds,
};
use media_units::{Duration, Instant, InstantExt, already_happened, earlier};
use repair_core::{GapWindow, NACK_MIN_INTERVAL};
use resend_core::ResendStore;
use rtcp_wire::{Rtcp, items_fit_by_lengths};
use rtp_base::{Mid, Ssrc};
use srtp_core::SrtpCipher;
use std::alloc::AllocError;
use stream_core::{Sent, Tick};

/// The moment of the last round after a tick, of which it is known whether it is one.
fn last_round(is_round: bool, now: Instant, before: Instant) -> Instant
    ensures { result ≡ (if is_round then now else before) }
{
    if is_round { now } else { before }
}

impl<C: SrtpCipher, W: GapWindow, S: ResendStore<Sent>> Session<C, W, S> {
    /// The SSRC of the session's feedback: that of its first outgoing stream, else its own.
    fn sender_ssrc(&self) -> Ssrc
        ensures { result ≡ sender_ssrc self.now.state }
    {
        if self.streams.tx_len() == 0 {
            self.local_ssrc
        } else {
            self.streams.tx(0).ssrc()
        }
    }

    /// When the next round is, where some incoming stream asks for what is missing.
    fn round_at(&self) -> Option<Instant>
        ensures { (r : SessionRecord) → StandsFor W.remembers S.stands_for self.now r → result ≡ round_at r }
    {
        if self.streams.any_nack_enabled() {
            let interval = Duration::from_nanos(NACK_MIN_INTERVAL);
            Some(self.last_round.saturating_add(interval))
        } else {
            None
        }
    }

    /// When the next report is due, where there is a stream: of an outgoing one whose kind was not
    /// told it is a moment that never comes.
    fn reports_at(&self) -> Option<Instant>
        ensures { (r : SessionRecord) → StandsFor W.remembers S.stands_for self.now r → result ≡ reports_at r }
    {
        earlier(
            self.streams.receiver_reports_at(&self.intervals),
            self.streams.sender_reports_at(&self.intervals),
        )
    }

    /// At once, where some packet was written since the last tick.
    fn send_at(&self) -> Option<Instant>
        ensures { result ≡ send_at self.now.state }
    {
        if self.streams.needs_timeout() {
            Some(already_happened())
        } else {
            None
        }
    }

    /// When the session wants a tick next: for reports, for requests of streams to their senders,
    /// for a round that asks for what is missing, to pause a stream on which nothing comes, and at
    /// once where some packet was written since the last tick; None where it waits for nothing.
    /// Packets that the peer asks for are no reason: they leave from the next tick on, so a caller
    /// ticks after what it takes in. The time grows with the number of streams.
    pub fn poll_timeout(&self) -> Option<Instant>
        ensures { (r : SessionRecord) → StandsFor W.remembers S.stands_for self.now r → result ≡ wake_of r }
    {
        let paused_at = earlier(self.streams.paused_at(), self.probes.paused_at());
        let others_at = earlier(self.round_at(), earlier(paused_at, self.send_at()));
        let feedback_at = earlier(self.reports_at(), self.requests_at());
        earlier(feedback_at, others_at)
    }

    /// At once, where some incoming stream asks its sender for something.
    fn requests_at(&self) -> Option<Instant>
        ensures { (r : SessionRecord) → StandsFor W.remembers S.stands_for self.now r → result ≡ requests_at r }
    {
        if self.streams.any_request() {
            Some(already_happened())
        } else {
            None
        }
    }

    /// The tick at a moment, for the streams.
    fn tick(&self, now: Instant) -> Tick
        ensures { (r : SessionRecord) → StandsFor W.remembers S.stands_for self.now r → result ≡ tick_of now r }
    {
        Tick {
            now,
            sender_ssrc: self.sender_ssrc(),
            beginning: self.transport.beginning,
            intervals: self.intervals,
            is_round: self.is_round(now),
        }
    }

    /// Whether a tick at a moment is a round.
    fn is_round(&self, now: Instant) -> bool
        ensures { (r : SessionRecord) → StandsFor W.remembers S.stands_for self.now r → result ≡ is_round now r }
    {
        let passed = now.saturating_duration_since(self.last_round);
        NACK_MIN_INTERVAL <= passed.as_nanos() && self.streams.any_nack_enabled()
    }

    /// What outgoing streams report in a tick, and behind that the answers to the moments of at
    /// most 50 receivers, where some stream reports, which is told too.
    fn sender_items(&self, now: Instant, mids: &[Mid]) -> Result<SenderItems, AllocError>
        ensures items { IfOk result (λ made. mids.now ≡ due_senders now self.now.state → made.items.items ≡ sender_and_answers now self.now.state) }
        ensures some { IfOk result (λ made. made.some ≡ some_reports self.now.state.medias mids.now self.now.state.tx) }
        ensures fit { IfOk result (λ made. AllByRecursion FitsAlone made.items.items) }
        ensures cause { OnErr result (is_one mids.now ≡ true) }
    {
        let time = ReportTime {
            types: &self.types,
            beginning: &self.transport.beginning,
            moment: now,
        };
        let medias = self.medias.as_slice();
        let mut made = sender_items(self.alloc, &self.streams, medias, mids, &time)?;
        if !made.some {
            return Ok(made);
        }
        items_fit_by_lengths();
        let sender = self.sender_ssrc();
        let Some(report) = self.moments.answer(self.alloc, sender, now)? else {
            return Ok(made);
        };
        made.items.push_back(Rtcp::ExtendedReport(report))?;
        Ok(made)
    }

    /// What is said in a tick. Without memory nothing changes.
    fn speak(&mut self, now: Instant) -> Result<(), AllocError>
        ensures ok { OnOk result ((r : SessionRecord) → StandsFor W.remembers S.stands_for self.old r → StandsFor W.remembers S.stands_for self.new (after_outgoing now (after_incoming now r))) }
        ensures cause { OnErr result ((r : SessionRecord) → StandsFor W.remembers S.stands_for self.old r → is_spoken now r ≡ true) }
        ensures err { OnErr result (self.new ≡ self.old) }
        ensures runs { self.new.state.stopped ≡ self.old.state.stopped }
    {
        let tick = self.tick(now);
        let mids = self.streams.due_sender_mids(&self.intervals, now)?;
        let SenderItems { mut items, some } = self.sender_items(now, mids.as_slice())?;
        items_fit_by_lengths();
        let behind = items.len();
        self.streams
            .create_feedback(&tick, behind, &mut self.feedback)?;
        let Ok(()) = self.feedback.append(&mut items) else {
            unreachable!();
        };
        self.last_round = last_round(tick.is_round, now, self.last_round);
        self.next_stream = 0;
        report_all(
            &mut self.streams,
            self.medias.as_slice(),
            mids.as_slice(),
            now,
        );
        answered_where(some, &mut self.moments);
        Ok(())
    }

    /// A tick. Of each incoming stream, in order, these are queued: its request for a key frame and
    /// the greatest rate that it tells its sender, where they wait (RFC 4585 section 6.3.1, RFC
    /// 5104 section 4.3.1, draft-alvestrand-rmcat-remb); its report and the moment of the receiver
    /// (RFC 3550 section 6.4.2, RFC 3611 section 4.4), where the report of some stream of its media
    /// section is due; and where the tick is a round, an item that asks for the numbers that are
    /// due (RFC 4585 section 6.2.1): it is one where 33 ms passed since the last round and some
    /// incoming stream asks for what is missing. Then of each outgoing stream, in order, its report
    /// and the description of its source (RFC 3550 sections 6.4.1 and 6.5), where the report of
    /// some stream of its media section is due, and behind them all the answers to the moments of
    /// at most 50 receivers, where some stream reported. Then the streams are paused on which
    /// nothing came for their threshold, outgoing streams are told their kind, so that their
    /// reports become due from the second tick on, and the packets that were written before the
    /// tick, and those that peers asked for, may leave. The time grows with the number of streams
    /// and with that of the packets that were written since the last tick; where reports are due,
    /// with the square of the number of streams.
    ///
    /// # Errors
    /// `Stopped` where an earlier call stopped the session; `Memory`, in a round, or where reports
    /// are due or requests wait: nothing is said then, and nothing else changes.
    pub fn handle_timeout(&mut self, now: Instant) -> Result<(), RtcError>
        ensures stopped { IsErrOf result Stopped ↔ IsTrue self.old.state.stopped }
        ensures ok { OnOk result ((r : SessionRecord) → StandsFor W.remembers S.stands_for self.old r → StandsFor W.remembers S.stands_for self.new (after_timeout now r)) }
        ensures latch { self.new.state.stopped ≡ self.old.state.stopped || is_err result }
        ensures unchanged { IsErrOf result Stopped → self.new ≡ self.old }
        ensures memory { self.old.state.stopped ≡ false → IfErr result (λ e. e ≡ Memory) }
        ensures failed { IsErrOf result Memory → self.new ≡ record self.old { state = stopped_from self.old.state } }
        ensures cause { IsErrOf result Memory → (r : SessionRecord) → StandsFor W.remembers S.stands_for self.old r → is_spoken now r ≡ true }
    {
        if self.stopped {
            return Err(RtcError::Stopped);
        }
        if self.speak(now).is_err() {
            self.stopped = true;
            return Err(RtcError::Memory);
        }
        self.next_stream = 0;
        self.released = true;
        self.probes.handle_timeout(now);
        self.streams.handle_timeout(now);
        tell_kinds(&mut self.streams, self.medias.as_slice());
        Ok(())
    }
}

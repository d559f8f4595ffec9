ghost use Rattle.std.specs.Prelude.{◌≡◌, ◌≢◌, false, List, [], length, None, IfOk, IfErr, OnOk};
ghost use Rattle.media_model.specs.declared.entry.Entry.{Entry as Happening};
ghost use Rattle.media_laws.specs.Listing.{OnlyAdds};
ghost use Rattle.setup_rules.specs.SetupRules.{setup_fault};

use crate::acting::act;
use crate::end::End;
use crate::fault::StepError;
use crate::log::Log;
use media_laws::StepFault;
use media_model::{Entry, LAST_TIME, Setup, Side, Step, Transcript};
use media_units::Instant;
use srtp_core::SrtpCipher;
use std::alloc::{AllocError, Global};
use std::marker::Model;

/// The two ends, what happened so far, and the time of the last step.
#[derive(Drop)]
pub struct Pair<C: SrtpCipher> {
    a: End<C>,
    b: End<C>,
    log: Log,
    latest: Instant,
}

impl<C: SrtpCipher> Model for Pair<C> {
    ghost use Rattle.media_play.specs.Running.{RunState};

    ghost Value = { RunState };

    ghost view = { λ p. record { a = p.a; b = p.b; log = p.log; latest = p.latest } };
}

impl<C: SrtpCipher> Pair<C> {
    ghost use Rattle.std.specs.Result.{result_err};
    ghost use Rattle.media_model.specs.Entries.{last_time};
    ghost use Rattle.media_laws.specs.Rules.{time_fault};
    ghost use Rattle.media_play.specs.Errors.{stops_at};
    ghost use Rattle.media_play.specs.Running.{IsRunOf, Plays, Refuses};

    /// The two ends of a setup that breaks no rule, before any step.
    pub fn new(alloc: Global, cipher: C, setup: &Setup) -> Result<Self, AllocError>
        requires { setup_fault setup.now ≡ None }
        ensures run { IfOk result (IsRunOf C.meaning setup.now []) }
        ensures empty { IfOk result (λ pair. pair.log ≡ []) }
    {
        Ok(Pair {
            a: End::new(alloc, cipher, setup, Side::A)?,
            b: End::new(alloc, cipher, setup, Side::B)?,
            log: Log::new(alloc),
            latest: Instant::from_nanos(0),
        })
    }

    /// The same in a box.
    pub fn boxed(alloc: Global, cipher: C, setup: &Setup) -> Result<Box<Self>, AllocError>
        requires { setup_fault setup.now ≡ None }
        ensures run { IfOk result (λ pair. IsRunOf C.meaning setup.now [] pair.value) }
        ensures empty { IfOk result (λ pair. pair.value.log ≡ []) }
    {
        let pair = Pair::new(alloc, cipher, setup)?;
        Ok(Box::new(alloc, pair)?)
    }

    /// How many entries there are.
    pub fn len(&self) -> usize
        ensures { result ≡ length self.now.log }
    {
        self.log.len()
    }

    /// The entries so far.
    pub fn entries(&self) -> &[Entry]
        ensures { result.now ≡ self.now.log }
    {
        self.log.entries()
    }

    pub fn into_transcript(self) -> Transcript
        ensures { result ≡ self.log }
    {
        self.log.into_transcript()
    }

    /// The first rule of times that a step breaks.
    fn check_time(&self, time: Instant) -> Result<(), StepFault>
        ensures fault { (entries : List Happening) → self.now.latest ≡ last_time entries
            → time_fault entries time ≡ result_err result }
        ensures later { OnOk result (time ≢ 0) }
    {
        if time == Instant::from_nanos(0) {
            return Err(StepFault::TimeZero);
        }
        if time < self.latest {
            return Err(StepFault::TimeBack);
        }
        if time > Instant::from_nanos(LAST_TIME) {
            return Err(StepFault::TimeBeyond);
        }
        Ok(())
    }

    /// Plays one step. Where it is not played for want of memory, what it brought so far may stand
    /// behind the entries.
    ///
    /// # Errors
    /// `Rule`, exactly with the first rule that the step breaks, and then nothing changes;
    /// `KeyExhausted`, where it breaks none and its side was to seal a datagram behind the last
    /// number of a key; `Memory`.
    pub fn play(&mut self, alloc: Global, step: &Step) -> Result<(), StepError>
        ensures played { OnOk result (Plays C.meaning self.old step.now self.new) }
        ensures refused { IfErr result (λ e. Refuses C.meaning self.old step.now e self.new.log) }
        ensures unchanged { IfErr result (λ e. stops_at e ≡ false → self.new ≡ self.old) }
        ensures goes { IfErr result (λ e. e ≢ StepError.Stopped) }
        ensures longer { OnlyAdds self.old.log self.new.log }
    {
        let Step {
            side,
            time,
            act: what,
        } = step;
        self.check_time(*time)?;
        match side {
            Side::A => act(alloc, &mut self.a, &mut self.log, *side, *time, what)?,
            Side::B => act(alloc, &mut self.b, &mut self.log, *side, *time, what)?,
        }
        self.latest = *time;
        Ok(())
    }
}

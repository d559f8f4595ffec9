ghost use Rattle.std.specs.Prelude.{◌≡◌, ◌≢◌, ◌⊎◌, ◌<◌, ◌^◌, true, false, [], None, Err, IfOk, IfErr, OnOk, MatchResult};
ghost use Rattle.std.specs.Iterator.{IsFinite, size};
ghost use Rattle.media_laws.specs.Keys.{sealing_of};
ghost use Rattle.media_laws.specs.Headline.{SealsAreRight, NoNonceTwice, SendsWrites, YieldsWrites, NoPacketTwice, FirstSendingsAreYielded};
ghost use Rattle.media_play.specs.Running.{EndsAmong, PlaysGiven, Holds, Answered, UsedUp, OfRun, run_cause};
ghost use Rattle.setup_rules.specs.SetupRules.{setup_fault};

use crate::fault::{RunError, RunFault, StepError};
use crate::pair::Pair;
use media_laws::laws::holds_of_run;
use media_model::{Entry, Setup, Step, Transcript};
use setup_rules::check_setup;
use srtp_core::SrtpCipher;
use std::alloc::Global;
use std::marker::Model;

/// A run of a setup, after some of its steps: it is made before any step, and plays one after
/// another. Side A seals with the left keys of the setup's material and side B with the right ones;
/// each stream is sent by its side and received by the other. Contracts see the two sessions, the
/// entries so far, the time of the last step, and whether the run is stopped.
#[derive(Drop)]
pub struct Run<C: SrtpCipher> {
    // Boxed, so that a run is handed on quickly.
    pair: Box<Pair<C>>,
    // How many of the entries are told, once the run is stopped.
    told: Option<usize>,
}

impl<C: SrtpCipher> Model for Run<C> {
    ghost use Rattle.media_play.specs.Running.{RunView, run_view};

    ghost Value = { RunView };

    ghost view = { λ r. run_view r.pair.value r.told };
}

impl<C: SrtpCipher> Run<C> {
    ghost use Rattle.media_play.specs.Errors.{stops_at};
    ghost use Rattle.media_play.specs.Running.{IsRunOf, IsSetupCause, Plays, Refuses};

    /// Returns a run of this setup before its first step.
    ///
    /// # Errors
    /// `Setup`, exactly with the first rule that the setup breaks; `Memory`.
    pub fn new(alloc: Global, setup: &Setup, cipher: &C) -> Result<Self, RunError>
        ensures run { IfOk result (λ run. IsRunOf C.meaning setup.now [] run.state) }
        ensures empty { IfOk result (λ run. run.state.log ≡ []) }
        ensures goes { IfOk result (λ run. run.stopped ≡ false) }
        ensures cause { IfErr result (IsSetupCause setup.now) }
    {
        if let Some(fault) = check_setup(alloc, setup)? {
            return Err(RunError::Setup(fault));
        }
        Ok(Run {
            pair: Pair::boxed(alloc, *cipher, setup)?,
            told: None,
        })
    }

    /// Plays one step more, whose entries then stand behind those before it.
    ///
    /// # Errors
    /// `Rule`, exactly with the first rule that the step breaks: nothing changes, and the run goes
    /// on. `KeyExhausted`, where it breaks none and its side was to seal a datagram behind the last
    /// number of a key: the run is stopped, and behind the entries stand the call, or the tick and
    /// all that it sealed until then. `Memory`: the run is stopped, and the entries are those
    /// before. `Stopped`, exactly of a run that is stopped.
    pub fn play(&mut self, alloc: Global, step: &Step) -> Result<(), StepError>
        ensures played { OnOk result (Plays C.meaning self.old.state step.now self.new.state) }
        ensures refused { IfErr result (λ e. e ≢ StepError.Stopped
            → Refuses C.meaning self.old.state step.now e self.new.state.log) }
        ensures latched { self.old.stopped ≡ true → result ≡ Err StepError.Stopped }
        ensures only { IfErr result (λ e. e ≡ StepError.Stopped → self.old.stopped ≡ true) }
        ensures stops { MatchResult result (λ u. self.new.stopped ≡ false)
            (λ e. self.new.stopped ≡ stops_at e) }
        ensures unchanged { IfErr result (λ e.
            (stops_at e ≡ false) ⊎ (e ≡ StepError.Stopped) → self.new ≡ self.old) }
        ensures memory { IfErr result (λ e.
            e ≡ StepError.Memory → self.new.state.log ≡ self.old.state.log) }
    {
        if self.told.is_some() {
            return Err(StepError::Stopped);
        }
        let len = self.pair.len();
        match self.pair.play(alloc, step) {
            Ok(()) => Ok(()),
            Err(StepError::Rule(rule)) => Err(StepError::Rule(rule)),
            Err(StepError::Memory) => {
                self.told = Some(len);
                Err(StepError::Memory)
            }
            Err(cause) => {
                self.told = Some(self.pair.len());
                Err(cause)
            }
        }
    }

    /// Returns what the steps so far brought.
    pub fn entries(&self) -> &[Entry]
        ensures { result.now ≡ self.now.state.log }
    {
        let entries = self.pair.entries();
        match self.told {
            Some(told) => entries.get(..told).unwrap_or(entries),
            None => entries,
        }
    }

    /// Returns what the steps so far brought, where no further step is to be played.
    pub fn into_transcript(self) -> Transcript
        ensures { result ≡ self.state.log }
    {
        let Run { pair, told } = self;
        let mut transcript = transcript_of(pair);
        if let Some(told) = told {
            transcript.truncate(told);
        }
        transcript
    }
}

/// What was played so far. The two ends are unpacked in a call of its own, so that no step makes
/// room for them.
#[inline(never)]
fn transcript_of<C: SrtpCipher>(pair: Box<Pair<C>>) -> Transcript
    ensures { result ≡ pair.value.log }
{
    Box::into_inner(pair).into_transcript()
}

/// Why a run ended whose step of this number, counted from 1, was not played.
fn cause_at(number: u64, error: StepError) -> RunError
    ensures { result ≡ run_cause number error }
{
    match error {
        StepError::Rule(rule) => RunError::Step(number, rule),
        StepError::KeyExhausted(side, counter) => RunError::KeyExhausted(side, counter),
        StepError::Memory | StepError::Stopped => RunError::Memory,
    }
}

/// Plays the steps of a run of a setup one after another, as they are given.
fn play_all<'a, C: SrtpCipher, I: Iterator<Item = &'a Step>>(
    alloc: Global,
    setup: &Setup,
    cipher: &C,
    steps: &mut I,
) -> Result<Transcript, RunFault>
    requires can { I.can_next steps.old }
    requires finite { IsFinite (I.remaining steps.old) }
    requires few { size (I.remaining steps.old) < 2 ^ 64 }
    ensures valid { IfOk result (λ t. setup_fault setup.now ≡ None) }
    ensures played { IfOk result (λ t.
        PlaysGiven (sealing_of C.meaning setup.now) setup.now I.next_gives steps.old steps.new t) }
    ensures cause { IfErr result (λ f.
        EndsAmong C.meaning setup.now I.next_gives steps.old steps.new f.sofar f.cause) }
    ensures holds { Holds (sealing_of C.meaning setup.now) setup.now result }
{
    holds_of_run::<C>();
    let mut run = match Run::new(alloc, setup, cipher) {
        Ok(run) => run,
        Err(cause) => {
            return Err(RunFault {
                cause,
                sofar: Transcript::new(alloc),
            });
        }
    };
    let mut number: u64 = 0;
    while let Some(step) = steps.next() {
        number += 1;
        if let Err(error) = run.play(alloc, step) {
            return Err(RunFault {
                cause: cause_at(number, error),
                sofar: run.into_transcript(),
            });
        }
    }
    Ok(run.into_transcript())
}

/// Plays the steps between the two sessions of a setup, and gives what happened: `Run::play`, step
/// after step. The steps are taken one by one as they are played, so that what is left of them
/// tells how far the run came: of a slice, `&mut steps.iter()`.
///
/// # Errors
/// `Setup`, exactly with the first rule that the setup breaks; `Step`, exactly at the first step
/// that breaks a rule, with the first rule that it breaks; `KeyExhausted`, where a step has a side
/// seal a datagram behind the last number of a key (RFC 3711 section 3.3.1: 2^48 numbers of RTP
/// under an SSRC, 2^31 indices of RTCP); `Memory`. The fault has the transcript of the steps that
/// were played, which are all that were taken but the last, and of one that found a key used up the
/// call, or the tick and all that it sealed until then.
pub fn media_run<'a, C: SrtpCipher, I: Iterator<Item = &'a Step>>(
    alloc: Global,
    setup: &Setup,
    cipher: &C,
    steps: &mut I,
) -> Result<Transcript, RunFault>
    requires can { I.can_next steps.old }
    requires finite { IsFinite (I.remaining steps.old) }
    requires few { size (I.remaining steps.old) < 2 ^ 64 }

    // Each step brings what it has to bring, and all steps are played.
    ensures played { IfOk result (λ t. (setup_fault setup.now ≡ None)
        × PlaysGiven (sealing_of C.meaning setup.now) setup.now I.next_gives steps.old steps.new t) }
    // All steps that were taken were played, but for the last one, which ended the run.
    ensures cause { IfErr result (λ f.
        EndsAmong C.meaning setup.now I.next_gives steps.old steps.new f.sofar f.cause) }

    // A write brings nothing. A tick seals of each stream all queued writes, in order, and each
    // kept write asked for, unless the stream is capped; and it asks for exactly the due numbers. A
    // call seals its feedback, and one that makes a request brings nothing. What comes is opened
    // exactly where it opens, and its packet yielded. A tick that finds a key used up seals, until
    // then, the first of these.
    ensures steps { Answered (sealing_of C.meaning setup.now) setup.now result }
    // A key is used up where all its numbers were sealed, and one more is due.
    ensures used_up { IfErr result (λ f. UsedUp setup.now f.sofar f.cause) }
    // Each sealed datagram is a seal under its side's keys.
    ensures seals { OfRun result (SealsAreRight (sealing_of C.meaning setup.now) setup.now) }
    // No two datagrams of a direction share a nonce.
    ensures nonces { OfRun result NoNonceTwice }
    // Each sealed RTP datagram carries one earlier write of its side, none twice, or is the repair
    // of a write that was sent.
    ensures sendings { OfRun result (SendsWrites setup.now) }
    // In a genuine run whose repairs widen each packet yielded is a write of the other side; in
    // every run none is yielded twice.
    ensures yields { OfRun result (YieldsWrites setup.now) }
    ensures once { OfRun result NoPacketTwice }
    // The write of a delivered first sending is yielded exactly where its number widens to itself
    // and is fresh.
    ensures exactly { OfRun result (FirstSendingsAreYielded setup.now) }
{
    play_all(alloc, setup, cipher, steps)
}

// The command run: what it makes of a whole input.
ghost use Rattle.std.specs.Prelude.{◌≡◌, ◌⊎◌, ◌++◌, ℕ, Some, None, take, string_bytes, IfOk, IfErr};
ghost use Rattle.media_base.specs.Causes.{Rose};
ghost use Rattle.media_laws.specs.Keys.{sealing_of};
ghost use Rattle.media_laws.specs.Play.{Played};
ghost use Rattle.media_play.specs.Running.{HasCause, Holds};
ghost use Rattle.setup_rules.specs.SetupRules.{setup_fault};
ghost use Rattle.media_script.specs.Text.{entries_text};
ghost use Rattle.mediasim.specs.declared.command.Command.TheVariants.{Run};
ghost use Rattle.mediasim.specs.Command.{Carries};
ghost use Rattle.mediasim.specs.Ends.{status_of};
ghost use Rattle.mediasim.specs.Lines.{bytes_of, memory_line, IsLastLine, reported};
ghost use Rattle.mediasim.specs.RunCommand.{script_cipher, script_sealing, syntax_line, setup_line, step_line, key_text, key_line, AreOfRun, RunEnds, RunMakes, TellsWhole};

use crate::ends::{End, Report, tell_line};
use crate::lines::{LastLine, TextError, write_text};
use media_base::Sink;
use media_laws::{Counter, StepFault};
use media_model::{CipherName, Setup, Side, Step, Transcript};
use media_play::{RunError, RunFault, media_run, runs_of_slices};
use media_script::{ScriptError, end_line, read_script};
use run_widens::repairs_widen;
use setup_rules::SetupFault;
use srtp_core::{ShaCipher, SrtpCipher, ToyCipher};
use std::alloc::{AllocError, Global};
use std::fmt;
use std::fmt::Write;

/// An end, whose text is the lines of these entries and a last line.
#[derive(Drop)]
struct Ending {
    end: End,
    entries: Transcript,
    last: LastLine,
}

impl Ending {
    fn out_of_memory(entries: Transcript) -> Self
        ensures end { result.end ≡ End.Memory }
        ensures entries { result.entries ≡ entries }
        ensures last { bytes_of result.last ≡ memory_line }
    {
        Ending {
            end: End::Memory,
            entries,
            last: LastLine::Fixed(b"fault memory\n"),
        }
    }

    /// An end with its line, where there was memory for it.
    fn new(end: End, entries: Transcript, line: Result<String, AllocError>) -> Self
        ensures entries { result.entries ≡ entries }
        ensures last { IsLastLine (λ text. string_bytes text) end line result.end (bytes_of result.last) }
    {
        match line {
            Ok(line) => Ending {
                end,
                entries,
                last: LastLine::Made(line),
            },
            Err(_) => Ending::out_of_memory(entries),
        }
    }
}

// The report of an end whose text was written.
fn report(end: End, entries: Transcript) -> Report
    ensures end { result.end ≡ end }
    ensures transcript { result.transcript ≡ reported end entries }
    ensures status { result.status ≡ status_of result.end }
{
    match end {
        End::Done => Report::new(end, Some(entries)),
        End::Step(_, _) => Report::new(end, Some(entries)),
        End::KeyExhausted(_, _) => Report::new(end, Some(entries)),
        _ => Report::new(end, None),
    }
}

/// The line that names the first line outside the grammar.
pub fn syntax_line(alloc: Global, line: u64) -> Result<String, AllocError>
    ensures { IfOk result (λ text. string_bytes text ≡ syntax_line line) }
{
    format!(in alloc; "fault syntax {line}\n")
}

fn setup_line(alloc: Global, fault: SetupFault) -> Result<String, AllocError>
    ensures { IfOk result (λ text. string_bytes text ≡ setup_line fault) }
{
    let word = fault.word();
    format!(in alloc; "fault setup {word}\n")
}

fn step_line(alloc: Global, number: u64, fault: StepFault) -> Result<String, AllocError>
    ensures { IfOk result (λ text. string_bytes text ≡ step_line number fault) }
{
    let word = fault.word();
    let mut text = String::new(alloc);
    writeln!(text, "fault step {number} {word}")?;
    Ok(text)
}

// The side whose key is used up, and what numbers the datagrams under it.
#[derive(Clone, Copy)]
struct UsedUp(Side, Counter);

impl fmt::Display for UsedUp {
    ghost output = { λ k. Some (key_text k.0 k.1) };

    fn fmt<W: fmt::Write>(&self, f: &mut fmt::Formatter<W>) -> fmt::Result {
        match (self.0, self.1) {
            (Side::A, Counter::Rtcp) => write!(f, "A Rtcp"),
            (Side::B, Counter::Rtcp) => write!(f, "B Rtcp"),
            (Side::A, Counter::Rtx(ssrc)) => write!(f, "A Rtx {ssrc}"),
            (Side::B, Counter::Rtx(ssrc)) => write!(f, "B Rtx {ssrc}"),
        }
    }
}

fn key_line(alloc: Global, side: Side, counter: &Counter) -> Result<String, AllocError>
    ensures { IfOk result (λ text. string_bytes text ≡ key_line side counter.now) }
{
    let key = UsedUp(side, *counter);
    format!(in alloc; "fault key {key}\n")
}

// Plays a setup and its steps with a cipher.
fn run_under<C: SrtpCipher>(
    alloc: Global,
    setup: &Setup,
    cipher: &C,
    steps: &[Step],
) -> Result<Transcript, RunFault>
    ensures played { IfOk result (λ t. (setup_fault setup.now ≡ None)
        × Played (sealing_of C.meaning setup.now) setup.now steps.now t) }
    ensures cause { IfErr result (λ f.
        HasCause C.meaning setup.now steps.now f.sofar f.cause) }
    ensures holds { Holds (sealing_of C.meaning setup.now) setup.now result }
{
    runs_of_slices::<C>();
    let mut given = steps.iter();
    media_run(alloc, setup, cipher, &mut given)
}

// Plays a setup and its steps with the cipher that the setup names.
fn run_steps(alloc: Global, setup: &Setup, steps: &[Step]) -> Result<Transcript, RunFault>
    ensures played { IfOk result (λ t. (setup_fault setup.now ≡ None)
        × Played (script_sealing setup.now) setup.now steps.now t) }
    ensures cause { IfErr result (λ f.
        HasCause (script_cipher setup.now) setup.now steps.now f.sofar f.cause) }
    ensures holds { Holds (script_sealing setup.now) setup.now result }
{
    match setup.cipher {
        CipherName::Toy => run_under(alloc, setup, &ToyCipher, steps),
        CipherName::Sha => run_under(alloc, setup, &ShaCipher, steps),
    }
}

// The same of steps that are let go then.
fn run_all(alloc: Global, setup: &Setup, steps: Vec<Step>) -> Result<Transcript, RunFault>
    ensures played { IfOk result (λ t. (setup_fault setup.now ≡ None)
        × Played (script_sealing setup.now) setup.now steps.items t) }
    ensures cause { IfErr result (λ f.
        HasCause (script_cipher setup.now) setup.now steps.items f.sofar f.cause) }
    ensures holds { Holds (script_sealing setup.now) setup.now result }
{
    run_steps(alloc, setup, steps.as_slice())
}

// The last line of a run that was played to its end.
fn last_line(alloc: Global, setup: &Setup, transcript: &Transcript) -> Result<String, AllocError>
    ensures { IfOk result (λ text.
        TellsWhole setup.now transcript.now (entries_text transcript.now ++ string_bytes text)) }
{
    let repairs = repairs_widen(alloc, setup, transcript.entries())?;
    end_line(alloc, repairs, transcript)
}

// Plays a setup and its steps.
fn play_steps(alloc: Global, setup: &Setup, steps: Vec<Step>) -> Ending
    ensures ended { RunEnds setup.now steps.items result.end (reported result.end result.entries)
        (entries_text result.entries ++ bytes_of result.last) }
    ensures entries { AreOfRun setup.now steps.items result.entries }
{
    let fault = match run_all(alloc, setup, steps) {
        Ok(transcript) => {
            let line = last_line(alloc, setup, &transcript);
            return Ending::new(End::Done, transcript, line);
        }
        Err(fault) => fault,
    };
    let RunFault { cause, sofar } = fault;
    match cause {
        RunError::Setup(rule) => Ending::new(End::Setup(rule), sofar, setup_line(alloc, rule)),
        RunError::Step(number, rule) => Ending::new(
            End::Step(number, rule),
            sofar,
            step_line(alloc, number, rule),
        ),
        RunError::KeyExhausted(side, counter) => {
            let line = key_line(alloc, side, &counter);
            Ending::new(End::KeyExhausted(side, counter), sofar, line)
        }
        RunError::Memory => Ending::out_of_memory(sofar),
    }
}

// Plays the script of a whole input.
fn play_script(alloc: Global, bytes: &[u8]) -> Ending
    ensures makes { RunMakes bytes.now result.end (reported result.end result.entries)
        (entries_text result.entries ++ bytes_of result.last) }
    // Where memory runs out while the text is written.
    ensures fronts { (count : ℕ) → RunMakes bytes.now End.Memory None (entries_text (take count result.entries) ++ memory_line) }
{
    match read_script(alloc, bytes) {
        Ok((setup, steps)) => play_steps(alloc, &setup, steps),
        Err(ScriptError::Syntax(line)) => Ending::new(
            End::Syntax(line),
            Transcript::new(alloc),
            syntax_line(alloc, line),
        ),
        Err(ScriptError::Memory) => Ending::out_of_memory(Transcript::new(alloc)),
    }
}

/// Plays the script that these bytes spell between two sessions, with the cipher that it names, and
/// writes the text of what happened.
pub fn run_command<K: Sink>(alloc: Global, bytes: &[u8], sink: &mut K) -> Report
    ensures status { result.status ≡ status_of result.end }
    ensures carries { Carries Run bytes.now (K.written sink.old) (K.written sink.new) result.end result.transcript }
    ensures write_fault { result.end ≡ End.WriteFault → Rose (K.fault_count sink.old) (K.fault_count sink.new) }
    ensures write_told { (result.end ≡ End.WriteFault) ⊎ (K.fault_count sink.new ≡ K.fault_count sink.old) }
{
    let Ending { end, entries, last } = play_script(alloc, bytes);
    match write_text(alloc, sink, entries.entries(), last.as_slice()) {
        Ok(()) => report(end, entries),
        Err(TextError::Memory) => tell_line(sink, End::Memory, b"fault memory\n"),
        Err(TextError::Failed) => Report::new(End::WriteFault, None),
    }
}

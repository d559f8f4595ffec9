// The top call.
ghost use Rattle.std.specs.Prelude.{◌≡◌, ◌⊎◌, List, ℕ, map, string_bytes, IfSome};
ghost use Rattle.media_base.specs.Causes.{Rose};
ghost use Rattle.media_model.specs.declared.setup.Setup.{Setup as Given};
ghost use Rattle.media_model.specs.declared.step.Step.{Step as ScriptStep};
ghost use Rattle.media_laws.specs.Headline.{SealsAreRight, NoNonceTwice, SendsWrites, SendsInSome, YieldsWrites, YieldsInSome, NoPacketTwice, FirstSendingsAreYielded};
ghost use Rattle.mediasim.specs.Ends.{status_of};
ghost use Rattle.mediasim.specs.MediaMain.{Answers, AnswersScript, RunsScript, IsInOrder, RunsCalls, ArePaced};
ghost use Rattle.mediasim.specs.PaceCommand.{AnswersCalls, PlaysAllCalls};
ghost use Rattle.pace_core.specs.declared.run.PaceCall.{PaceCall as Told};
ghost use Rattle.mediasim.specs.RunCommand.{script_sealing, AnswersTo, PlaysToEnd, PlaysAll, UsesUp};

use crate::command::{Command, command_of};
use crate::ends::{End, Report, tell_line};
use crate::pace_command::pace_command;
use crate::run_command::run_command;
use media_base::{ReadError, Sink, Source, read_all};
use media_laws::laws::plays_steps;
use media_script::laws::script_spells_one;
use pace_script::laws::pace_script_spells_one;
use srtp_core::{ShaCipher, ToyCipher};
use std::alloc::Global;

/// The most bytes of an input: a choice.
pub const LIMIT: usize = 67_108_864;

// Reads the whole input, and has the command that the words name answer it.
fn answer<S: Source, K: Sink>(
    alloc: Global,
    words: &[String],
    source: &mut S,
    sink: &mut K,
) -> Report
    ensures status { result.status ≡ status_of result.end }
    ensures answers { Answers LIMIT (map string_bytes words.now) (S.left source.old) (S.left source.new)
        (K.written sink.old) (K.written sink.new) result.end result.transcript }
    ensures read_fault { result.end ≡ End.ReadFault → Rose (S.fault_count source.old) (S.fault_count source.new) }
    ensures write_fault { result.end ≡ End.WriteFault → Rose (K.fault_count sink.old) (K.fault_count sink.new) }
    ensures read_told { (result.end ≡ End.ReadFault) ⊎ (result.end ≡ End.WriteFault)
        ⊎ (S.fault_count source.new ≡ S.fault_count source.old) }
    ensures write_told { (result.end ≡ End.WriteFault) ⊎ (K.fault_count sink.new ≡ K.fault_count sink.old) }
{
    let command = match command_of(words) {
        Some(command) => command,
        None => return tell_line(sink, End::Usage, b"fault usage\n"),
    };
    match read_all(alloc, source, LIMIT) {
        Ok(bytes) => match command {
            Command::Run => run_command(alloc, &bytes, sink),
            Command::Pace => pace_command(alloc, &bytes, sink),
        },
        Err(ReadError::Failed) => tell_line(sink, End::ReadFault, b"fault read\n"),
        Err(ReadError::TooLong) => tell_line(sink, End::TooLong, b"fault long\n"),
        Err(ReadError::Memory) => tell_line(sink, End::Memory, b"fault memory\n"),
    }
}

/// Does what the words behind the program's name say, with the input that the source gives, and
/// writes what came of it to the sink. `run` plays a script between two sessions with the cipher
/// that the script names, `pace` plays a pace script on a leaky bucket pacer.
///
/// What is written is the text of the transcript, or one fault line, with the text of the steps
/// that were played before it where a step broke a rule; of those and of what the step did until
/// then where it found a key used up; and whole lines at the front of the text where memory ran
/// out. A fault of the sink takes the place of the end that it cuts short, of whose text the front
/// was written.
///
/// # Errors
/// The ends of the report other than `Done`, each exactly where its cause holds; `Memory` may come
/// at any command, and a fault of the sink takes the place of one of the source.
pub fn media_main<S: Source, K: Sink>(
    alloc: Global,
    words: &[String],
    source: &mut S,
    sink: &mut K,
) -> Report
    ensures status { result.status ≡ status_of result.end }

    // The most bytes of an input that is answered.
    ensures limit { LIMIT ≡ 67108864 }
    // What was read, the end that it has come to, and what was written.
    ensures answers { Answers LIMIT (map string_bytes words.now) (S.left source.old) (S.left source.new)
        (K.written sink.old) (K.written sink.new) result.end result.transcript }
    // These two come only where an end of the program has failed.
    ensures read_fault { result.end ≡ End.ReadFault → Rose (S.fault_count source.old) (S.fault_count source.new) }
    ensures write_fault { result.end ≡ End.WriteFault → Rose (K.fault_count sink.old) (K.fault_count sink.new) }
    // And where an end of the program has failed, one of them comes.
    ensures read_told { (result.end ≡ End.ReadFault) ⊎ (result.end ≡ End.WriteFault)
        ⊎ (S.fault_count source.new ≡ S.fault_count source.old) }
    ensures write_told { (result.end ≡ End.WriteFault) ⊎ (K.fault_count sink.new ≡ K.fault_count sink.old) }
    // What a script comes to.
    ensures script { (setup : Given) (acts : List ScriptStep)
        → RunsScript (map string_bytes words.now) (S.left source.old) setup acts
        → AnswersScript setup acts (K.written sink.old) (K.written sink.new) result.end result.transcript }
    // A script in order is played to its last step, or to the first that finds a key used up, where
    // neither end of the program fails.
    ensures complete { (setup : Given) (acts : List ScriptStep)
        → IsInOrder LIMIT (map string_bytes words.now) (S.left source.old) setup acts
        → (Rose (S.fault_count source.old) (S.fault_count source.new) → ⊥)
        → (Rose (K.fault_count sink.old) (K.fault_count sink.new) → ⊥)
        → PlaysAll setup acts result.end result.transcript }

    // What a pace script comes to: on Done the text is that of what its calls answer, in order,
    // which keeps within the envelope.
    ensures calls { (rate : ℕ) (calls : List Told)
        → RunsCalls (map string_bytes words.now) (S.left source.old) rate calls
        → AnswersCalls rate calls (K.written sink.old) (K.written sink.new) result.end result.transcript }
    // A pace script whose calls may all come is played to its last call.
    ensures paced { (rate : ℕ) (calls : List Told)
        → ArePaced LIMIT (map string_bytes words.now) (S.left source.old) rate calls
        → (Rose (S.fault_count source.old) (S.fault_count source.new) → ⊥)
        → (Rose (K.fault_count sink.old) (K.fault_count sink.new) → ⊥)
        → PlaysAllCalls result.end }

    // The steps of the transcript are those of the script, in order: a datagram that is delivered
    // is the one that the other side sealed under this number.
    ensures played { (setup : Given) (acts : List ScriptStep)
        → RunsScript (map string_bytes words.now) (S.left source.old) setup acts
        → PlaysToEnd acts result.end result.transcript }
    // A write brings nothing. A tick seals of each stream all queued writes, in order, and each
    // kept write asked for, unless the stream is capped; and it asks for exactly the due numbers. A
    // call seals its feedback, and one that makes a request brings nothing. What comes is opened
    // exactly where it opens, and its packet yielded. A tick that finds a key used up seals, until
    // then, the first of these.
    ensures steps { (setup : Given) (acts : List ScriptStep)
        → RunsScript (map string_bytes words.now) (S.left source.old) setup acts
        → AnswersTo (script_sealing setup) setup result.end result.transcript }
    // A key is used up where its side has sealed all its numbers.
    ensures used_up { (setup : Given) (acts : List ScriptStep)
        → RunsScript (map string_bytes words.now) (S.left source.old) setup acts
        → UsesUp setup result.end result.transcript }
    // Each sealed datagram is a seal under its side's keys.
    ensures seals { (setup : Given) (acts : List ScriptStep)
        → RunsScript (map string_bytes words.now) (S.left source.old) setup acts
        → IfSome result.transcript (SealsAreRight (script_sealing setup) setup) }
    // The write of a delivered first sending is yielded exactly where its number widens to itself
    // and is fresh.
    ensures exactly { (setup : Given) (acts : List ScriptStep)
        → RunsScript (map string_bytes words.now) (S.left source.old) setup acts
        → IfSome result.transcript (FirstSendingsAreYielded setup) }
    // No two datagrams of a direction share a nonce.
    ensures nonces { IfSome result.transcript NoNonceTwice }
    // Each sealed RTP datagram carries one earlier write of its side, none twice, or is the repair
    // of a write that was sent: under the setup of the script, and where the source tells none,
    // under that of the run.
    ensures sendings { (setup : Given) (acts : List ScriptStep)
        → RunsScript (map string_bytes words.now) (S.left source.old) setup acts
        → IfSome result.transcript (SendsWrites setup) }
    ensures sent { IfSome result.transcript SendsInSome }
    // In a genuine run whose repairs widen, under these setups, each packet yielded is a write of
    // the other side; in every run none is yielded twice.
    ensures yields { (setup : Given) (acts : List ScriptStep)
        → RunsScript (map string_bytes words.now) (S.left source.old) setup acts
        → IfSome result.transcript (YieldsWrites setup) }
    ensures yielded { IfSome result.transcript YieldsInSome }
    ensures once { IfSome result.transcript NoPacketTwice }
{
    plays_steps::<ToyCipher>();
    plays_steps::<ShaCipher>();
    script_spells_one();
    pace_script_spells_one();
    answer(alloc, words, source, sink)
}

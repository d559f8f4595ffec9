// The command pace: what it makes of a whole input.
ghost use Rattle.std.specs.Prelude.{◌≡◌, ◌⊎◌, ◌++◌, All, string_bytes, IfOk, OnOk};
ghost use Rattle.media_base.specs.Causes.{Rose};
ghost use Rattle.pace_core.specs.Run.{IsShort};
ghost use Rattle.mediasim.specs.declared.command.Command.TheVariants.{Pace};
ghost use Rattle.mediasim.specs.Command.{Carries};
ghost use Rattle.mediasim.specs.Ends.{status_of};
ghost use Rattle.mediasim.specs.PaceCommand.{call_line, PaceEnds, PaceMakes};

use crate::ends::{End, Report, tell_line};
use crate::run_command::syntax_line;
use media_base::Sink;
use media_units::Bitrate;
use pace_core::{PaceCall, PaceError, pace_run};
use pace_script::{ScriptError, log_text, read_pace_script, write_pace_log};
use std::alloc::{AllocError, Global};
use std::fmt::Write;

/// An end, and the text that belongs to it.
#[derive(Drop)]
struct Ending {
    end: End,
    text: String,
}

fn put_call_line(text: &mut String, number: u64) -> Result<(), AllocError>
    ensures { OnOk result (string_bytes text.new ≡ string_bytes text.old ++ call_line number) }
{
    writeln!(text, "fault step {number} Call")
}

// Plays calls at a rate.
#[tactic(auto, using(crate::proofs::PaceEnds::stops_at, crate::proofs::PaceEnds::plays, crate::proofs::PaceEnds::within))]
fn play_calls(alloc: Global, rate: Bitrate, calls: &[PaceCall]) -> Result<Ending, AllocError>
    requires { All IsShort calls.now }
    ensures { IfOk result (λ ending. PaceEnds rate calls.now ending.end (string_bytes ending.text)) }
{
    let fault = match pace_run(alloc, rate, calls) {
        Ok(log) => {
            return Ok(Ending {
                end: End::Done,
                text: write_pace_log(alloc, &log)?,
            });
        }
        Err(fault) => fault,
    };
    match fault.error {
        PaceError::Memory => Err(AllocError),
        PaceError::Call(before) => {
            let number = before as u64 + 1;
            let mut text = log_text(alloc, &fault.sofar)?;
            put_call_line(&mut text, number)?;
            Ok(Ending {
                end: End::Call(number),
                text,
            })
        }
    }
}

// Plays the pace script of a whole input.
fn play_script(alloc: Global, bytes: &[u8]) -> Result<Ending, AllocError>
    ensures { IfOk result (λ ending. PaceMakes bytes.now ending.end (string_bytes ending.text)) }
{
    match read_pace_script(alloc, bytes) {
        Ok((rate, calls)) => play_calls(alloc, rate, &calls),
        Err(ScriptError::Syntax(line)) => Ok(Ending {
            end: End::Syntax(line),
            text: syntax_line(alloc, line)?,
        }),
        Err(ScriptError::Memory) => Err(AllocError),
    }
}

/// Plays the pace script that these bytes spell on a leaky bucket pacer, and writes the text of its
/// log.
pub fn pace_command<K: Sink>(alloc: Global, bytes: &[u8], sink: &mut K) -> Report
    ensures status { result.status ≡ status_of result.end }
    ensures carries { Carries Pace bytes.now (K.written sink.old) (K.written sink.new) result.end result.transcript }
    ensures write_fault { result.end ≡ End.WriteFault → Rose (K.fault_count sink.old) (K.fault_count sink.new) }
    ensures write_told { (result.end ≡ End.WriteFault) ⊎ (K.fault_count sink.new ≡ K.fault_count sink.old) }
{
    match play_script(alloc, bytes) {
        Ok(ending) => tell_line(sink, ending.end, ending.text.as_bytes()),
        Err(_) => tell_line(sink, End::Memory, b"fault memory\n"),
    }
}

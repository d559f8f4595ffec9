// Reading a pace script, line by line.
ghost use Rattle.std.specs.Prelude.{◌≡◌, ℕ, List, All, IfOk, Ok};
ghost use Rattle.media_script.specs.Gives.{Gives, GivesScript, error_at};
ghost use Rattle.pace_core.specs.Run.{IsShort};
ghost use Rattle.pace_core.specs.declared.run.PaceCall.{PaceCall as Act};
ghost use Rattle.pace_script.specs.FirstWrong.{StopsRightly};
ghost use Rattle.pace_script.specs.Grammar.{read_on, line_taken, whole_of, script_of};
ghost use Rattle.pace_script.specs.Spelling.{IsPaceScript};

use crate::calls::{call, first_rate};
use media_base::Listed;
use media_script::ScriptError;
use media_script::laws::{pieces_are_lines, words_are_spelled};
use media_script::shared::{LineError, first_line, is_passed_over};
use media_units::Bitrate;
use pace_core::PaceCall;
use std::alloc::Global;

/// What was read so far.
#[derive(Debug, Drop)]
pub enum Reader {
    /// Nothing.
    Head,
    /// The first line.
    Named,
    /// The rate, and calls.
    InCalls(Bitrate, Listed<PaceCall>),
    /// All of it.
    Ended(Bitrate, Listed<PaceCall>),
}

impl Reader {
    #[tactic(auto, unfolding(crate::specs::Grammar::line_taken))]
    fn take_line(self, alloc: Global, line: &[u8]) -> Result<Reader, LineError>
        ensures { Gives (λ r. r) result (line_taken self line.now) }
    {
        if is_passed_over(line) {
            return Ok(self);
        }
        self.read_on(alloc, line)
    }

    #[tactic(auto, unfolding(crate::specs::Grammar::read_on))]
    fn read_on(self, alloc: Global, line: &[u8]) -> Result<Reader, LineError>
        ensures { Gives (λ r. r) result (read_on self line.now) }
    {
        match self {
            Reader::Head => {
                if line != b"pace 1".as_slice() {
                    return Err(LineError::Outside);
                }
                Ok(Reader::Named)
            }
            Reader::Named => {
                let rate = first_rate(alloc, line)?;
                Ok(Reader::InCalls(rate, Listed::new(alloc)))
            }
            Reader::InCalls(rate, mut calls) => {
                if line == b"end".as_slice() {
                    return Ok(Reader::Ended(rate, calls));
                }
                calls.push(call(alloc, line)?)?;
                Ok(Reader::InCalls(rate, calls))
            }
            Reader::Ended(_, _) => Err(LineError::Outside),
        }
    }

    // What was read of all lines, of which there are fewer than `line`.
    #[tactic(auto, unfolding(crate::specs::Grammar::whole_of))]
    fn finish(self, line: u64) -> Result<(Bitrate, Vec<PaceCall>), ScriptError>
        ensures { GivesScript (λ x. (x.0, x.1.items)) result (whole_of line self) }
    {
        match self {
            Reader::Ended(rate, calls) => Ok((rate, calls.into_vec())),
            _ => Err(ScriptError::Syntax(line)),
        }
    }
}

fn at_line(error: LineError, line: u64) -> ScriptError
    ensures { result ≡ error_at error line }
{
    match error {
        LineError::Memory => ScriptError::Memory,
        LineError::Outside => ScriptError::Syntax(line),
    }
}

/// The rate and the calls of a pace script.
pub fn read_pace_script(
    alloc: Global,
    bytes: &[u8],
) -> Result<(Bitrate, Vec<PaceCall>), ScriptError>
    // What is read is spelled so.
    ensures found { IfOk result (λ x. IsPaceScript bytes.now x.0 x.1.items) }
    // Each packet has at most 2,000 bytes.
    ensures short { IfOk result (λ x. All IsShort x.1.items) }
    // What is spelled so is read, unless memory runs out.
    ensures only { (rate : ℕ) (calls : List Act) → IsPaceScript bytes.now rate calls
        → (let script : ℕ × List Act = (rate, calls) in GivesScript (λ x. (x.0, x.1.items)) result (Ok script)) }
    // The line of a Syntax is the first one that is wrong.
    ensures first { StopsRightly result bytes.now }
    // Which line that is, as a computation.
    ensures exact { GivesScript (λ x. (x.0, x.1.items)) result (script_of bytes.now) }
{
    words_are_spelled();
    pieces_are_lines();
    read_lines(alloc, bytes)
}

fn read_lines(alloc: Global, bytes: &[u8]) -> Result<(Bitrate, Vec<PaceCall>), ScriptError>
    ensures { GivesScript (λ x. (x.0, x.1.items)) result (script_of bytes.now) }
{
    pieces_are_lines();
    let mut reader = Reader::Head;
    let mut line = 1u64;
    let mut rest = bytes;
    while let Some((text, after)) = first_line(rest) {
        reader = match reader.take_line(alloc, text) {
            Ok(reader) => reader,
            Err(error) => return Err(at_line(error, line)),
        };
        rest = after;
        line += 1;
    }
    if !rest.is_empty() {
        return Err(ScriptError::Syntax(line));
    }
    reader.finish(line)
}

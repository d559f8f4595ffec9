// Reading a script, line by line.
ghost use Rattle.std.specs.Prelude.{◌≡◌, List, IsTrue, IfOk, IfErr, Ok};
ghost use Rattle.media_script.specs.FirstWrong.{StopsRightly};
ghost use Rattle.media_script.specs.Gives.{Gives, GivesScript, error_at};
ghost use Rattle.media_script.specs.Grammar.{read_on, line_taken, whole_of, script_of};
ghost use Rattle.media_script.specs.declared.error.LineError.TheVariants.{Memory, Outside};
ghost use Rattle.media_script.specs.declared.error.ScriptError.TheVariants.{Syntax, Memory as NoMemory};
ghost use Rattle.media_script.specs.declared.reader.Reader.TheVariants.{Head, InSetup, InSteps};
ghost use Rattle.media_script.specs.MayWant.{takes_words, takes_memory, may_want};
ghost use Rattle.media_script.specs.Spelling.{IsScript};
ghost use Rattle.media_model.specs.declared.setup.Setup.{Setup};
ghost use Rattle.media_model.specs.declared.step.Step.{Step};

use crate::error::{LineError, ScriptError};
use crate::lines::{first_line, is_passed_over};
use crate::said::Said;
use crate::setup_lines::setup_line;
use crate::steps::step;
use media_base::Listed;
use media_model::{Setup, Step};
use std::alloc::Global;

/// What was read so far.
#[derive(Drop)]
pub enum Reader {
    Head,
    InSetup(Said),
    InSteps(Said, Listed<Step>),
    Ended(Said, Listed<Step>),
}

impl Reader {
    #[tactic(auto, unfolding(crate::specs::Grammar::line_taken))]
    fn take_line(self, alloc: Global, line: &[u8]) -> Result<Reader, LineError>
        ensures given { Gives (λ r. r) result (line_taken self line.now) }
        ensures memory { IfErr result (λ e. e ≡ Memory → IsTrue (takes_memory self line.now)) }
    {
        if is_passed_over(line) {
            return Ok(self);
        }
        self.read_on(alloc, line)
    }

    #[tactic(auto, unfolding(crate::specs::Grammar::read_on))]
    fn read_on(self, alloc: Global, line: &[u8]) -> Result<Reader, LineError>
        ensures given { Gives (λ r. r) result (read_on self line.now) }
        ensures memory { IfErr result (λ e. e ≡ Memory → IsTrue (takes_words self line.now)) }
    {
        match self {
            Reader::Head => head(alloc, line),
            Reader::InSetup(said) => behind_setup(alloc, said, line),
            Reader::InSteps(said, steps) => behind_steps(alloc, said, steps, line),
            Reader::Ended(_, _) => Err(LineError::Outside),
        }
    }

    // What was read of all lines, of which there are fewer than `line`.
    #[tactic(auto, unfolding(crate::specs::Grammar::whole_of))]
    fn finish(self, line: u64) -> Result<(Setup, Vec<Step>), ScriptError>
        ensures given { GivesScript (λ x. (x.0, x.1.items)) result (whole_of line self) }
        ensures never { IfErr result (λ e. e ≡ Syntax line) }
    {
        match self {
            Reader::Ended(said, steps) => match said.draft.finish() {
                Some(setup) => Ok((setup, steps.into_vec())),
                None => Err(ScriptError::Syntax(line)),
            },
            _ => Err(ScriptError::Syntax(line)),
        }
    }
}

// The first line.
#[tactic(auto, unfolding(crate::specs::Grammar::read_on))]
fn head(alloc: Global, line: &[u8]) -> Result<Reader, LineError>
    ensures given { Gives (λ r. r) result (read_on Head line.now) }
    ensures outside { IfErr result (λ e. e ≡ Outside) }
{
    if line != b"str0m-media 1".as_slice() {
        return Err(LineError::Outside);
    }
    Ok(Reader::InSetup(Said::new(alloc)))
}

// A line behind setup lines that say this.
#[tactic(auto, unfolding(crate::specs::Grammar::read_on))]
fn behind_setup(alloc: Global, mut said: Said, line: &[u8]) -> Result<Reader, LineError>
    ensures given { Gives (λ r. r) result (read_on (InSetup said) line.now) }
    ensures memory { IfErr result (λ e. e ≡ Memory → IsTrue (takes_words (InSetup said) line.now)) }
{
    if line == b"begin".as_slice() {
        return Ok(Reader::InSteps(said, Listed::new(alloc)));
    }
    said.add(alloc, setup_line(alloc, line)?)?;
    Ok(Reader::InSetup(said))
}

// A line behind these steps.
#[tactic(auto, unfolding(crate::specs::Grammar::read_on))]
fn behind_steps(
    alloc: Global,
    said: Said,
    mut steps: Listed<Step>,
    line: &[u8],
) -> Result<Reader, LineError>
    ensures given { Gives (λ r. r) result (read_on (InSteps said steps) line.now) }
    ensures memory { IfErr result (λ e. e ≡ Memory → IsTrue (takes_words (InSteps said steps) line.now)) }
{
    if line == b"end".as_slice() {
        return Ok(Reader::Ended(said, steps));
    }
    steps.push(step(alloc, line)?)?;
    Ok(Reader::InSteps(said, steps))
}

fn at_line(error: LineError, line: u64) -> ScriptError
    ensures { result ≡ error_at error line }
{
    match error {
        LineError::Memory => ScriptError::Memory,
        LineError::Outside => ScriptError::Syntax(line),
    }
}

/// The setup and the steps of a script.
pub fn read_script(alloc: Global, bytes: &[u8]) -> Result<(Setup, Vec<Step>), ScriptError>
    // What is read is spelled so.
    ensures found { IfOk result (λ x. IsScript bytes.now x.0 x.1.items) }
    // What is spelled so is read, unless memory runs out.
    ensures only { (setup : Setup) (steps : List Step) → IsScript bytes.now setup steps
        → (let script : Setup × List Step = (setup, steps) in GivesScript (λ x. (x.0, x.1.items)) result (Ok script)) }
    // The line of a Syntax is the first one that is wrong.
    ensures first { StopsRightly result bytes.now }
    // Which line that is, as a computation.
    ensures exact { GivesScript (λ x. (x.0, x.1.items)) result (script_of bytes.now) }
    // Want of memory is told only where a line takes memory and the lines before it are right.
    ensures memory { IfErr result (λ e. e ≡ NoMemory → IsTrue (may_want bytes.now)) }
{
    read_lines(alloc, bytes)
}

fn read_lines(alloc: Global, bytes: &[u8]) -> Result<(Setup, Vec<Step>), ScriptError>
    ensures given { GivesScript (λ x. (x.0, x.1.items)) result (script_of bytes.now) }
    ensures memory { IfErr result (λ e. e ≡ NoMemory → IsTrue (may_want bytes.now)) }
{
    let mut reader = Reader::Head;
    let mut line = 1u64;
    let mut rest = bytes;
    while let Some((text, after)) = first_line(rest) {
        reader = match reader.take_line(alloc, text) {
            Ok(reader) => reader,
            Err(error) => return Err(at_line(error, line)),
        };
        rest = after;
        line += 1;
    }
    if !rest.is_empty() {
        return Err(ScriptError::Syntax(line));
    }
    reader.finish(line)
}

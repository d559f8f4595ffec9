//! A pace script as text, played on a leaky bucket pacer.
ghost use Rattle.std.specs.Prelude.{◌≡◌, ℕ, List, Some, IfOk, IfSome, string_bytes};
ghost use Rattle.pace_core.specs.Past.{made};
ghost use Rattle.pace_core.specs.Run.{entries};
ghost use Rattle.pace_core.specs.declared.run.PaceCall.{PaceCall as Act};
ghost use Rattle.pace_script.specs.FirstWrong.{StopsRightly};
ghost use Rattle.pace_script.specs.Spelling.{IsPaceScript};
ghost use Rattle.pace_script.specs.Text.{text_of};

use pace_core::{PaceError, pace_run};
use pace_script::{ScriptError, read_pace_script, write_pace_log};
use std::alloc::Global;

/// The text of what a pacer answers to the calls of a script. None where some call may not come.
///
/// # Errors
/// `Syntax` with the first line that is wrong; `Memory`.
pub fn play_calls(alloc: Global, bytes: &[u8]) -> Result<Option<String>, ScriptError>
    ensures found { IfOk result (λ played. IfSome played (λ text. (rate : ℕ) × (calls : List Act)
        × IsPaceScript bytes.now rate calls
        × (string_bytes text ≡ text_of (entries (made (Some rate)) calls)))) }
    ensures first { StopsRightly result bytes.now }
{
    let (rate, calls) = read_pace_script(alloc, bytes)?;
    let log = match pace_run(alloc, rate, calls.as_slice()) {
        Ok(log) => log,
        Err(fault) => {
            return match fault.error {
                PaceError::Call(_) => Ok(None),
                PaceError::Memory => Err(ScriptError::Memory),
            };
        }
    };
    Ok(Some(write_pace_log(alloc, &log)?))
}

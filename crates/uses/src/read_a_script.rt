//! A script as text.
ghost use Rattle.std.specs.Prelude.{◌≡◌, List, length, IfOk};
ghost use Rattle.media_model.specs.declared.setup.Setup.{Setup as Given};
ghost use Rattle.media_model.specs.declared.step.Step.{Step};
ghost use Rattle.media_script.specs.FirstWrong.{StopsRightly};
ghost use Rattle.media_script.specs.Spelling.{IsScript};

use media_script::{ScriptError, read_script};
use std::alloc::Global;

/// How many steps the bytes of a script spell.
///
/// # Errors
/// `Syntax` with the first line that is wrong; `Memory`.
pub fn count_steps(alloc: Global, bytes: &[u8]) -> Result<usize, ScriptError>
    ensures found { IfOk result (λ count. (setup : Given) × (steps : List Step)
        × IsScript bytes.now setup steps × (length steps ≡ count)) }
    ensures first { StopsRightly result bytes.now }
{
    let (_, steps) = read_script(alloc, bytes)?;
    Ok(steps.len())
}

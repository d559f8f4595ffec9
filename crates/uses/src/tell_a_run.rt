//! The text of a run, with whether its repairs widen.
ghost use Rattle.std.specs.Prelude.{◌≡◌, ◌↔◌, Bool, IfOk, IsTrue, string_bytes};
ghost use Rattle.media_script.specs.Text.{text_of};
ghost use Rattle.run_model.specs.Widening.{RunWidens};

use media_model::{Setup, Transcript};
use media_script::write_transcript;
use run_widens::repairs_widen;
use std::alloc::{AllocError, Global};

/// The text of a run of a setup that was played to its end.
pub fn told(alloc: Global, setup: &Setup, run: &Transcript) -> Result<String, AllocError>
    ensures { IfOk result (λ text. (widens : Bool) × (IsTrue widens ↔ RunWidens setup.now run.now)
        × (string_bytes text ≡ text_of widens run.now)) }
{
    let widens = repairs_widen(alloc, setup, run.entries())?;
    write_transcript(alloc, widens, run)
}

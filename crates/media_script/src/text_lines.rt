// The text of a transcript, a line at a time.
ghost use Rattle.std.specs.Prelude.{◌≡◌, ◌++◌, IfOk, OnOk, codes, string_bytes};
ghost use Rattle.media_model.specs.Genuine.{is_genuine};
ghost use Rattle.media_script.specs.Text.{line_text, end_text};

use crate::text::{put_end, put_entry};
use media_model::{Entry, Transcript};
use std::alloc::{AllocError, Global};

/// Adds the line of an entry, with its line feed. Without memory a front of it may have been added.
pub fn put_line(text: &mut String, entry: &Entry) -> Result<(), AllocError>
    ensures { OnOk result (string_bytes text.new ≡ string_bytes text.old ++ (line_text entry.now ++ codes "\n")) }
{
    put_entry(text, entry)?;
    text.push('\n')?;
    Ok(())
}

/// The last line of the text of a run that was played to its end, with its line feed. The caller
/// says whether the run's repairs widen.
pub fn end_line(alloc: Global, repairs: bool, transcript: &Transcript) -> Result<String, AllocError>
    ensures { IfOk result (λ text. string_bytes text ≡ end_text (is_genuine transcript.now) repairs) }
{
    let genuine = transcript.genuine(alloc)?;
    let mut text = String::new(alloc);
    put_end(&mut text, genuine, repairs)?;
    Ok(text)
}

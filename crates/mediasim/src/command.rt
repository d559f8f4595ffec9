// The words of the command line.
ghost use Rattle.std.specs.Prelude.{List, ℕ, map, string_bytes, MatchOption};
ghost use Rattle.mediasim.specs.declared.command.Command.{Command as Named};
ghost use Rattle.mediasim.specs.Command.{IsCommand};

/// What the program is to do.
#[derive(Clone, Copy, Debug, PartialEq, Eq)]
pub enum Command {
    /// Plays a script between two sessions, and tells what happened.
    Run,
    /// Plays the calls of a pace script on a pacer, and tells what they answered.
    Pace,
}

/// The command that the words behind the program's name name.
pub fn command_of(words: &[String]) -> Option<Command>
    ensures { MatchOption result ((c : Named) → IsCommand (map string_bytes words.now) c → ⊥)
        (λ c. IsCommand (map string_bytes words.now) c) }
{
    match words {
        [word] if word.as_str() == "run" => Some(Command::Run),
        [word] if word.as_str() == "pace" => Some(Command::Pace),
        _ => None,
    }
}

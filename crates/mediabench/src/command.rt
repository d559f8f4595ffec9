// The words of the command line.
ghost use Rattle.std.specs.Prelude.{List, ℕ, map, string_bytes, MatchOption};
ghost use Rattle.mediabench.specs.declared.command.Command.{Command as Named};
ghost use Rattle.mediabench.specs.Command.{IsCommand};

/// What the program is to do.
#[derive(Clone, Copy)]
pub enum Command<'a> {
    /// Writes the names of the rows.
    Rows,
    /// Times all rows.
    RunAll,
    /// Times the row of this name.
    RunOne(&'a str),
}

/// The command that the words behind the program's name name.
pub fn command_of(words: &[String]) -> Option<Command<'_>>
    ensures { MatchOption result ((c : Named) → IsCommand (map string_bytes words.now) c → ⊥)
        (λ c. IsCommand (map string_bytes words.now) c) }
{
    match words {
        [word] if word.as_str() == "rows" => Some(Command::Rows),
        [word] if word.as_str() == "run" => Some(Command::RunAll),
        [word, name] if word.as_str() == "run" => Some(Command::RunOne(name.as_str())),
        _ => None,
    }
}

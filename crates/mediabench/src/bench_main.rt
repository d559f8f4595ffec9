// The top call.
ghost use Rattle.std.specs.Prelude.{◌≡◌, List, ℕ, map, string_bytes, OnOk, IsOk, MatchOption};
ghost use Rattle.std.specs.Io.KnownBytes.{Appends};
ghost use Rattle.std.specs.Option.{option_copied};
ghost use Rattle.mediabench.specs.declared.error.End.{End as Ended};
ghost use Rattle.mediabench.specs.declared.table.Row.{Row as Listed};
ghost use Rattle.mediabench.specs.Ends.{end_of};
ghost use Rattle.mediabench.specs.Command.{IsNamed, Does, AsksForSome};
ghost use Rattle.mediabench.specs.Text.{names_text};

use crate::command::{Command, command_of};
use crate::error::{BenchError, End};
use crate::report::{names, tell_rows};
use crate::table::Row;
use media_base::{Sink, write_all};
use std::alloc::Global;
use std::time::Clock;

// Writes the names of the rows.
fn tell_names<K: Sink>(alloc: Global, sink: &mut K, rows: &[Row]) -> Result<(), BenchError>
    ensures { OnOk result (Appends (K.written sink.old) (K.written sink.new) (names_text rows.now)) }
{
    let text = names(alloc, rows)?;
    write_all(sink, text.as_bytes())?;
    Ok(())
}

// The row of a name.
fn row_of<'a>(rows: &'a [Row], name: &str) -> Option<&'a Row>
    ensures { MatchOption (option_copied result) ((row : Listed) → IsNamed rows.now name.now row → ⊥)
        (λ row. IsNamed rows.now name.now row) }
{
    for row in rows {
        if row.name == name {
            return Some(row);
        }
    }
    None
}

// The end of a command.
fn end_of(done: Result<(), BenchError>) -> End
    ensures { result ≡ end_of done }
{
    match done {
        Ok(()) => End::Done,
        Err(error) => End::Stopped(error),
    }
}

/// Does what the words behind the program's name say: `rows` writes the names of the rows of the
/// table, each on a line; `run` times all rows, and writes a line for each when it is known; `run
/// NAME` does so for one.
///
/// It ends with `Usage` exactly where the words are none of these or no row has the name, and is
/// `Stopped` where the clock cannot be read, memory runs out or the sink fails.
pub fn bench_main<C: Clock, K: Sink>(
    alloc: Global,
    clock: &C,
    table: &[Row],
    words: &[String],
    sink: &mut K,
) -> End
    ensures done { result ≡ End.Done → Does table.now (map string_bytes words.now) (K.written sink.old) (K.written sink.new) }
    ensures usage { (result ≡ End.Usage → AsksForSome table.now (map string_bytes words.now) → ⊥)
        × ((AsksForSome table.now (map string_bytes words.now) → ⊥) → result ≡ End.Usage) }
{
    match command_of(words) {
        Some(Command::Rows) => end_of(tell_names(alloc, sink, table)),
        Some(Command::RunAll) => end_of(tell_rows(alloc, clock, table, sink)),
        Some(Command::RunOne(name)) => match row_of(table, name) {
            Some(row) => end_of(tell_rows(alloc, clock, std::slice::from_ref(row), sink)),
            None => End::Usage,
        },
        None => End::Usage,
    }
}

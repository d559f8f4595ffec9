// Writing what was timed.
ghost use Rattle.std.specs.Prelude.{ℕ, ◌≡◌, ◌++◌, List, length, string_bytes, OnOk, IfOk};
ghost use Rattle.std.specs.List.{flat_map};
ghost use Rattle.std.specs.Io.KnownBytes.{Appends};
ghost use Rattle.mediabench.specs.declared.timing.Figure.{Figure as Measured};
ghost use Rattle.mediabench.specs.Text.{name_line, names_text, row_line, TellsRows};

use crate::error::BenchError;
use crate::table::Row;
use crate::timing::{Figure, time_row};
use media_base::{Sink, write_all};
use std::alloc::{AllocError, Global};
use std::time::Clock;

fn put_name(text: &mut String, row: &Row) -> Result<(), AllocError>
    ensures { OnOk result (string_bytes text.new ≡ string_bytes text.old ++ name_line row.now) }
{
    let name = row.name;
    writeln!(text, "{name}")
}

/// The names of the rows, each on a line.
pub fn names(alloc: Global, rows: &[Row]) -> Result<String, AllocError>
    ensures { IfOk result (λ text. string_bytes text ≡ names_text rows.now) }
{
    let mut text = String::new(alloc);
    for row in rows {
        put_name(&mut text, row)?;
    }
    Ok(text)
}

fn put_row(text: &mut String, row: &Row, figure: Figure) -> Result<(), AllocError>
    ensures { OnOk result (string_bytes text.new ≡ string_bytes text.old ++ row_line row.now figure) }
{
    let name = row.name;
    let whole = figure.tenths / 10;
    let tenth = figure.tenths % 10;
    let answer = figure.answer;
    writeln!(text, "{name} {whole}.{tenth} ns ({answer})")
}

fn tell_row<C: Clock, K: Sink>(
    alloc: Global,
    clock: &C,
    row: &Row,
    sink: &mut K,
) -> Result<(), BenchError>
    ensures { OnOk result ((figure : Measured) × Appends (K.written sink.old) (K.written sink.new) (row_line row.now figure)) }
{
    let figure = time_row(clock, alloc, row)?;
    let mut line = String::new(alloc);
    put_row(&mut line, row, figure)?;
    write_all(sink, line.as_bytes())?;
    Ok(())
}

/// Times rows, and writes a line for each as it is known.
pub fn tell_rows<C: Clock, K: Sink>(
    alloc: Global,
    clock: &C,
    rows: &[Row],
    sink: &mut K,
) -> Result<(), BenchError>
    ensures { OnOk result (TellsRows rows.now (K.written sink.old) (K.written sink.new)) }
{
    for row in rows {
        tell_row(alloc, clock, row, sink)?;
    }
    Ok(())
}

//! Plays a script from standard input, of two media sessions (`run`) or of a pacer's calls
//! (`pace`), and writes what happened to standard output.
#![tactic(auto)]

mod command;
mod ends;
mod lines;
mod media_main;
mod pace_command;
mod run_command;

use media_base::{ReaderSource, WriterSink};
use std::process::ExitCode;
use std::{env, io};

// The words behind the program's name.
fn words(rt: &HostRuntime) -> io::Result<Vec<String>> {
    let mut words = Vec::new(rt.alloc());
    for word in env::args(rt)?.skip(1) {
        words.push(word)?;
    }
    Ok(words)
}

fn main(rt: HostRuntime) -> ExitCode {
    // Words that cannot be read are no command.
    let words = match words(&rt) {
        Ok(words) => words,
        Err(_) => Vec::new(rt.alloc()),
    };
    let mut source = ReaderSource::new(rt.reader());
    let mut sink = WriterSink::new(io::writer(&rt));
    let report = media_main::media_main(rt.alloc(), &words, &mut source, &mut sink);
    ExitCode::from(report.status)
}

//! Times the operations of the other crates: `rows` writes the names of the rows of the table,
//! `run` times all of them, and `run NAME` one.
#![tactic(auto)]

mod bench_main;
mod command;
mod error;
mod report;
mod table;
mod timing;

use media_base::WriterSink;
use std::process::ExitCode;
use std::{env, io};

// Puts the words behind the program's name behind others.
fn put_words(rt: &HostRuntime, words: &mut Vec<String>) -> io::Result<()> {
    for word in env::args(rt)?.skip(1) {
        words.push(word)?;
    }
    Ok(())
}

// The words behind the program's name. Words that cannot be read are no command.
fn words(rt: &HostRuntime) -> Vec<String> {
    let mut words = Vec::new(rt.alloc());
    if put_words(rt, &mut words).is_err() {
        words.clear();
    }
    words
}

fn main(rt: HostRuntime) -> ExitCode {
    let words = words(&rt);
    let mut sink = WriterSink::new(io::writer(&rt));
    let end = bench_main::bench_main(rt.alloc(), &rt, &table::ROWS, &words, &mut sink);
    ExitCode::from(end.status())
}

//! Rounds on the text of scripts and transcripts.
use memchr::memchr;
use std::alloc::{AllocError, Global};

/// What is done with text.
#[derive(Clone, Copy)]
pub enum TextWork {
    /// The hex text of so many bytes is made.
    Hex(usize),
    /// The next space of a line of so many bytes is looked for. It is the last one.
    Space(usize),
}

// Makes the hex text of bytes; tells how many digits it has.
fn hex_once(alloc: Global, bytes: &[u8]) -> Result<u64, AllocError> {
    let text = hex::encode(alloc, bytes)?;
    Ok(text.len() as u64)
}

// Makes it so often; tells how many digits that gave.
fn hex_often(alloc: Global, bytes: &[u8], count: u64) -> Result<u64, AllocError> {
    let mut told: u64 = 0;
    for _i in 0..count {
        told = told.wrapping_add(hex_once(alloc, bytes)?);
    }
    Ok(told)
}

// Looks for the space of lines that differ, so often; tells the sum of its places.
fn space_often(line: &mut [u8], count: u64) -> u64 {
    let mut told: u64 = 0;
    for i in 0..count {
        if let Some(first) = line.first_mut() {
            *first = b'0' + (i % 10) as u8;
        }
        told = told.wrapping_add(memchr(b' ', line).unwrap_or(0) as u64);
    }
    told
}

// A line of so many bytes with a space behind them.
fn line(alloc: Global, size: usize) -> Result<Vec<u8>, AllocError> {
    let mut line = vec![in alloc; b'7'; size]?;
    line.push(b' ')?;
    Ok(line)
}

fn hex(alloc: Global, size: usize, count: u64) -> Result<u64, AllocError> {
    let bytes = vec![in alloc; 7; size]?;
    hex_often(alloc, &bytes, count)
}

fn space(alloc: Global, size: usize, count: u64) -> Result<u64, AllocError> {
    let mut line = line(alloc, size)?;
    Ok(space_often(&mut line, count))
}

impl TextWork {
    /// Does it so often.
    pub fn play(self, alloc: Global, count: u64) -> Result<u64, AllocError> {
        match self {
            TextWork::Hex(size) => hex(alloc, size, count),
            TextWork::Space(size) => space(alloc, size, count),
        }
    }
}

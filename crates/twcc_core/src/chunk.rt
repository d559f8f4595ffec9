// The chunks that tell the symbols of packets (draft-holmer-rmcat-transport-wide-cc-extensions-01
// sections 3.1.3 and 3.1.4).
ghost use Rattle.std.specs.Prelude.{◌≡◌, ◌<◌, ◌≤◌, length, take, drop, IfOk};
ghost use Rattle.std.specs.Option.{option_map, option_and_then};
ghost use Rattle.rtp_base.specs.Wire.{halves, Puts, LeavesBehind};
ghost use Rattle.twcc_core.specs.Statuses.{statuses_of};
ghost use Rattle.twcc_core.specs.Runs.{left_of};
ghost use Rattle.twcc_core.specs.Reading.{Says};
ghost use Rattle.twcc_core.specs.Chunks.{one_bit_symbols, two_bit_symbols, chunk_symbols, symbols_of, symbol_at, run_of, vector_of, chunk_of, told_by, chunks_of};

use crate::status::{read_run, read_statuses};
use crate::{StatusIter, StatusList};
use rtp_base::wire::{half, put};
use std::alloc::{AllocError, Global};

/// The most rows that a run tells: its length has 13 bits
/// (draft-holmer-rmcat-transport-wide-cc-extensions-01 section 3.1.3).
pub const MAX_RUN: usize = 8_191;

/// How many rows a vector of two bits a row tells, and the fewest that are written as a run
/// (draft-holmer-rmcat-transport-wide-cc-extensions-01 section 3.1.4).
pub const VECTOR_LEN: usize = 7;

/// How many rows a vector of one bit a row tells
/// (draft-holmer-rmcat-transport-wide-cc-extensions-01 section 3.1.4).
pub const BIT_VECTOR_LEN: usize = 14;

fn single_bits(chunk: u16) -> [u8; BIT_VECTOR_LEN]
    ensures { result ≡ one_bit_symbols chunk }
{
    [
        (chunk / 0x2000 % 2) as u8,
        (chunk / 0x1000 % 2) as u8,
        (chunk / 0x800 % 2) as u8,
        (chunk / 0x400 % 2) as u8,
        (chunk / 0x200 % 2) as u8,
        (chunk / 0x100 % 2) as u8,
        (chunk / 0x80 % 2) as u8,
        (chunk / 0x40 % 2) as u8,
        (chunk / 0x20 % 2) as u8,
        (chunk / 0x10 % 2) as u8,
        (chunk / 8 % 2) as u8,
        (chunk / 4 % 2) as u8,
        (chunk / 2 % 2) as u8,
        (chunk % 2) as u8,
    ]
}

fn bit_pairs(chunk: u16) -> [u8; VECTOR_LEN]
    ensures { result ≡ two_bit_symbols chunk }
{
    [
        (chunk / 0x1000 % 4) as u8,
        (chunk / 0x400 % 4) as u8,
        (chunk / 0x100 % 4) as u8,
        (chunk / 0x40 % 4) as u8,
        (chunk / 0x10 % 4) as u8,
        (chunk / 4 % 4) as u8,
        (chunk % 4) as u8,
    ]
}

// How many symbols a chunk tells.
#[tactic(auto, unfolding(crate::specs::Chunks::chunk_symbols))]
fn symbol_count(chunk: u16) -> usize
    ensures { result ≡ length (chunk_symbols chunk) }
{
    if chunk < 0x8000 {
        usize::from(chunk % 0x2000)
    } else if chunk < 0xc000 {
        BIT_VECTOR_LEN
    } else {
        VECTOR_LEN
    }
}

// What follows the chunks of so many symbols, or None where the bytes end before.
pub fn after_chunks(bytes: &[u8], count: usize) -> Option<&[u8]>
    ensures { option_map (λ after. after.now) result ≡ option_map (λ told. told.1) (symbols_of count bytes.now) }
{
    let mut left = count;
    let mut rest = bytes;
    while left > 0 {
        if rest.len() < 2 {
            return None;
        }
        left = left.saturating_sub(symbol_count(half(rest, 0)));
        let (_, after) = rest.split_at(2);
        rest = after;
    }
    Some(rest)
}

// Adds what the first symbols of a chunk say, so many at most, with the deltas one after another,
// and gives what follows them, or None where the bytes end before.
#[tactic(auto, unfolding(crate::specs::Chunks::chunk_symbols))]
fn read_chunk<'a>(
    rows: &mut StatusList,
    chunk: u16,
    most: usize,
    bytes: &'a [u8],
) -> Result<Option<&'a [u8]>, AllocError>
    ensures { IfOk result (λ after. Says rows.old (take most (chunk_symbols chunk)) bytes.now rows.new (option_map (λ rest. rest.now) after)) }
{
    if chunk < 0x8000 {
        let run = usize::from(chunk % 0x2000);
        read_run(rows, (chunk / 0x2000) as u8, run.min(most), bytes)
    } else if chunk < 0xc000 {
        read_statuses(rows, &single_bits(chunk)[..most.min(BIT_VECTOR_LEN)], bytes)
    } else {
        read_statuses(rows, &bit_pairs(chunk)[..most.min(VECTOR_LEN)], bytes)
    }
}

// What so many symbols say that chunks tell, with the deltas one after another, or None where
// either bytes end before.
pub fn read_rows(
    alloc: Global,
    chunks: &[u8],
    count: usize,
    deltas: &[u8],
) -> Result<Option<StatusList>, AllocError>
    ensures { IfOk result (λ rows. rows ≡ option_and_then (λ told. statuses_of told.0 deltas.now) (symbols_of count chunks.now)) }
{
    let mut rows = StatusList::with_capacity(alloc, count.min(chunks.len()))?;
    let mut left = count;
    let mut rest = chunks;
    let mut unread = deltas;
    while left > 0 {
        if rest.len() < 2 {
            return Ok(None);
        }
        let chunk = half(rest, 0);
        match read_chunk(&mut rows, chunk, left, unread)? {
            Some(after) => unread = after,
            None => return Ok(None),
        }
        left = left.saturating_sub(symbol_count(chunk));
        let (_, after) = rest.split_at(2);
        rest = after;
    }
    Ok(Some(rows))
}

// The symbol of the first row, 0 where there is none, and the rows behind it.
fn split_symbol(rows: StatusIter<'_>) -> (u8, StatusIter<'_>)
    ensures value { result.0 ≡ symbol_at (left_of rows.entry) 0 }
    ensures small { result.0 < 3 }
    ensures rest { left_of result.1 ≡ drop 1 (left_of rows.entry) }
{
    let mut rest = rows;
    let symbol = match rest.next() {
        Some(row) => row.symbol(),
        None => 0,
    };
    (symbol, rest)
}

// How many rows at the front have the symbol of the first, of as many as a run can tell, and the
// rows behind them.
fn first_run(rows: StatusIter<'_>) -> (usize, StatusIter<'_>)
    ensures value { result.0 ≡ run_of (left_of rows.entry) }
    ensures most { result.0 ≤ MAX_RUN }
    ensures rest { left_of result.1 ≡ drop result.0 (left_of rows.entry) }
{
    let (symbol, _) = split_symbol(rows);
    let mut run = 0;
    let mut rest = rows;
    while run < MAX_RUN {
        let mut after = rest;
        match after.next() {
            Some(row) if row.symbol() == symbol => rest = after,
            _ => return (run, rest),
        }
        run += 1;
    }
    (run, rest)
}

// A vector of the first seven symbols, and the rows behind them.
fn first_vector(rows: StatusIter<'_>) -> (u16, StatusIter<'_>)
    ensures value { result.0 ≡ vector_of (left_of rows.entry) }
    ensures rest { left_of result.1 ≡ drop VECTOR_LEN (left_of rows.entry) }
{
    let (first, rest) = split_symbol(rows);
    let (second, rest) = split_symbol(rest);
    let (third, rest) = split_symbol(rest);
    let (fourth, rest) = split_symbol(rest);
    let (fifth, rest) = split_symbol(rest);
    let (sixth, rest) = split_symbol(rest);
    let (seventh, rest) = split_symbol(rest);
    let vector = 0xc000
        + u16::from(first) * 0x1000
        + u16::from(second) * 0x400
        + u16::from(third) * 0x100
        + u16::from(fourth) * 0x40
        + u16::from(fifth) * 0x10
        + u16::from(sixth) * 4
        + u16::from(seventh);
    (vector, rest)
}

// The first chunk that is written, and the rows that it does not tell.
fn first_chunk(rows: StatusIter<'_>) -> (u16, StatusIter<'_>)
    ensures chunk { result.0 ≡ chunk_of (left_of rows.entry) }
    ensures rest { left_of result.1 ≡ drop (told_by (left_of rows.entry)) (left_of rows.entry) }
{
    let (run, behind) = first_run(rows);
    if run >= VECTOR_LEN {
        let (symbol, _) = split_symbol(rows);
        (u16::from(symbol) * 0x2000 + run as u16, behind)
    } else {
        first_vector(rows)
    }
}

// Puts the chunks of rows, or says that there is no room for them.
pub fn write_chunks(rows: StatusIter<'_>, out: &mut [u8], at: usize) -> Option<usize>
    ensures text { Puts out.old at (halves (chunks_of (left_of rows.entry))) out.new result }
    ensures behind { LeavesBehind out.old out.new result }
{
    if out.len() < at {
        return None;
    }
    let mut rest = rows;
    let mut end = at;
    while !rest.is_empty() {
        let (chunk, after) = first_chunk(rest);
        match put(out, end, &chunk.to_be_bytes()) {
            Some(next) => end = next,
            None => return None,
        }
        rest = after;
    }
    Some(end)
}

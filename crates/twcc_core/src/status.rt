ghost use Rattle.std.specs.Prelude.{◌≡◌, ◌<◌, ◌≤◌, length, replicate, IfOk};
ghost use Rattle.std.specs.Option.{option_map};
ghost use Rattle.std.specs.List.{flat_map};
ghost use Rattle.rtp_base.specs.Wire.{Puts, LeavesBehind};
ghost use Rattle.twcc_core.specs.Statuses.{delta_text, status_at};
ghost use Rattle.twcc_core.specs.Runs.{left_of};
ghost use Rattle.twcc_core.specs.Reading.{Says};

use crate::{StatusIter, StatusList};
use rtp_base::wire::{half, put};
use std::alloc::AllocError;

/// The symbol of a packet that did not come
/// (draft-holmer-rmcat-transport-wide-cc-extensions-01 section 3.1.1).
pub const NOT_RECEIVED_SYMBOL: u8 = 0;

/// The symbol of a packet that came, with a delta of 8 bits without sign
/// (draft-holmer-rmcat-transport-wide-cc-extensions-01 section 3.1.1).
pub const SMALL_DELTA_SYMBOL: u8 = 1;

/// The symbol of a packet that came, with a delta of 16 bits with sign
/// (draft-holmer-rmcat-transport-wide-cc-extensions-01 section 3.1.1).
pub const LARGE_DELTA_SYMBOL: u8 = 2;

/// What feedback says of a packet (draft-holmer-rmcat-transport-wide-cc-extensions-01 section
/// 3.1.1).
#[derive(Clone, Copy, Debug, PartialEq, Eq)]
pub enum PacketStatus {
    NotReceived,
    /// It came so many steps of 250 us after the received one before it, the first of all after the
    /// reference time.
    Received(i16),
}

impl PacketStatus {
    ghost use Rattle.twcc_core.specs.Statuses.{symbol_of};

    // The symbol of two bits.
    pub(crate) fn symbol(self) -> u8
        ensures value { result ≡ symbol_of self }
        ensures small { result < 3 }
    {
        match self {
            PacketStatus::NotReceived => NOT_RECEIVED_SYMBOL,
            PacketStatus::Received(delta) => {
                if delta >= 0 && delta < 256 {
                    SMALL_DELTA_SYMBOL
                } else {
                    LARGE_DELTA_SYMBOL
                }
            }
        }
    }

    // How many bytes the delta takes.
    pub(crate) fn delta_len(self) -> usize
        ensures value { result ≡ length (delta_text self) }
        ensures small { result ≤ 2 }
    {
        match self.symbol() {
            NOT_RECEIVED_SYMBOL => 0,
            SMALL_DELTA_SYMBOL => 1,
            _ => 2,
        }
    }

    // Puts the delta, where there is one.
    fn write_delta(self, out: &mut [u8], at: usize) -> Option<usize>
        ensures text { Puts out.old at (delta_text self) out.new result }
        ensures behind { LeavesBehind out.old out.new result }
    {
        match self {
            PacketStatus::NotReceived => put(out, at, &[]),
            PacketStatus::Received(delta) => {
                if delta >= 0 && delta < 256 {
                    put(out, at, &[delta as u8])
                } else {
                    put(out, at, &delta.to_be_bytes())
                }
            }
        }
    }
}

// What a symbol and the bytes from its delta on say, and what follows them.
#[tactic(auto, unfolding(crate::specs::Statuses::status_at))]
fn read_status(symbol: u8, bytes: &[u8]) -> Option<(PacketStatus, &[u8])>
    ensures { option_map (λ x. (x.0, x.1.now)) result ≡ status_at symbol bytes.now }
{
    match symbol {
        SMALL_DELTA_SYMBOL => {
            let (first, rest) = bytes.split_first()?;
            Some((PacketStatus::Received(i16::from(*first)), rest))
        }
        LARGE_DELTA_SYMBOL => {
            if bytes.len() < 2 {
                return None;
            }
            let (delta, rest) = bytes.split_at(2);
            Some((PacketStatus::Received(half(delta, 0).cast_signed()), rest))
        }
        _ => Some((PacketStatus::NotReceived, bytes)),
    }
}

// Adds what a symbol says so often, with the deltas one after another, and gives what follows them,
// or None where the bytes end before.
pub(crate) fn read_run<'a>(
    rows: &mut StatusList,
    symbol: u8,
    count: usize,
    bytes: &'a [u8],
) -> Result<Option<&'a [u8]>, AllocError>
    ensures { IfOk result (λ after. Says rows.old (replicate count symbol) bytes.now rows.new (option_map (λ rest. rest.now) after)) }
{
    let mut rest = bytes;
    for _ in 0..count {
        let Some((status, after)) = read_status(symbol, rest) else {
            return Ok(None);
        };
        rows.push(status)?;
        rest = after;
    }
    Ok(Some(rest))
}

// Adds what symbols say, with the deltas one after another, and gives what follows them, or None
// where the bytes end before.
pub(crate) fn read_statuses<'a>(
    rows: &mut StatusList,
    symbols: &[u8],
    bytes: &'a [u8],
) -> Result<Option<&'a [u8]>, AllocError>
    ensures { IfOk result (λ after. Says rows.old symbols.now bytes.now rows.new (option_map (λ rest. rest.now) after)) }
{
    let mut rest = bytes;
    for symbol in symbols {
        let Some((status, after)) = read_status(*symbol, rest) else {
            return Ok(None);
        };
        rows.push(status)?;
        rest = after;
    }
    Ok(Some(rest))
}

// Puts deltas one after another, or says that there is no room for them.
pub(crate) fn write_deltas(rows: StatusIter<'_>, out: &mut [u8], at: usize) -> Option<usize>
    ensures text { Puts out.old at (flat_map delta_text (left_of rows.entry)) out.new result }
    ensures behind { LeavesBehind out.old out.new result }
{
    if out.len() < at {
        return None;
    }
    let mut end = at;
    for row in rows {
        match row.write_delta(out, end) {
            Some(next) => end = next,
            None => return None,
        }
    }
    Some(end)
}

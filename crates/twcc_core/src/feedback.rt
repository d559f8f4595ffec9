//! Transport-wide feedback (draft-holmer-rmcat-transport-wide-cc-extensions-01 section 3.1).
ghost use Rattle.std.specs.Prelude.{◌≡◌, ◌+◌, ◌*◌, ◌<◌, IfOk, length};
ghost use Rattle.std.specs.Option.{option_map};
ghost use Rattle.rtp_base.specs.Wire.{words, Puts, LeavesBehind};
ghost use Rattle.twcc_core.specs.Feedback.{twcc_of, twcc_bytes};
ghost use Rattle.rtp_base.specs.Fields.{bits24};

use crate::StatusList;
use crate::chunk::{after_chunks, read_rows, write_chunks};
use crate::status::write_deltas;
use rtp_base::Ssrc;
use rtp_base::wire::{half, put, signed, word};
use std::alloc::{AllocError, Global};

/// The bytes of an item of RTCP behind its header are fewer: the header tells in 16 bits how many
/// words of 4 bytes they are (RFC 3550 section 6.4.1).
pub const BODY_LIMIT: usize = 1 << 18;

/// Transport-wide feedback: what a receiver says of packets in a row (section 3.1).
#[derive(Debug, PartialEq, Eq, Drop)]
pub struct Twcc {
    /// Who sends the feedback.
    pub sender_ssrc: Ssrc,
    /// The source that the feedback is about.
    pub ssrc: Ssrc,
    /// The low 16 bits of the number of the first packet.
    pub base_seq: u16,
    /// The moment that the first delta counts from, in steps of 64 ms, 24 bits signed on the wire.
    pub reference_time: i32,
    /// How many reports were made before this one, modulo 256.
    pub feedback_count: u8,
    /// What is said of each packet from the first on; at most 65,535 have room.
    pub rows: StatusList,
}

/// Reads feedback from the bytes after the header of an item of type 205 and format 15. It takes a
/// few bytes of memory for each byte that is read, however many packets these tell, and time for
/// each packet. Without memory there is an error, and None where the bytes end before the chunks or
/// the deltas that they tell.
#[tactic(auto, unfolding(crate::specs::Feedback::twcc_of))]
pub fn read_twcc(alloc: Global, body: &[u8]) -> Result<Option<Twcc>, AllocError>
    ensures { IfOk result (λ t. t ≡ twcc_of body.now) }
{
    if body.len() < 16 {
        return Ok(None);
    }
    let (_, chunks) = body.split_at(16);
    let count = usize::from(half(body, 10));
    let Some(deltas) = after_chunks(chunks, count) else {
        return Ok(None);
    };
    let Some(rows) = read_rows(alloc, chunks, count, deltas)? else {
        return Ok(None);
    };
    let last = word(body, 12);
    Ok(Some(Twcc {
        sender_ssrc: word(body, 0).into(),
        ssrc: word(body, 4).into(),
        base_seq: half(body, 8),
        reference_time: signed(last / 0x100),
        feedback_count: (last % 0x100) as u8,
        rows,
    }))
}

// Puts words one after another, or says that there is no room for them.
fn write_words(all: &[u32], out: &mut [u8], at: usize) -> Option<usize>
    ensures text { Puts out.old at (words all.now) out.new result }
    ensures behind { LeavesBehind out.old out.new result }
{
    if out.len() < at {
        return None;
    }
    let mut end = at;
    for word in all {
        match put(out, end, &word.to_be_bytes()) {
            Some(next) => end = next,
            None => return None,
        }
    }
    Some(end)
}

// The reference time in 24 bits.
pub(crate) fn reference_bits(twcc: &Twcc) -> u32
    ensures value { result ≡ bits24 twcc.now.reference_time }
    ensures small { result < 16777216 }
{
    twcc.reference_time.cast_unsigned() % 0x100_0000
}

// A word of 24 bits and 8.
fn word_of(upper: u32, lower: u8) -> u32
    requires { upper < 16777216 }
    ensures { result ≡ upper * 256 + lower }
{
    upper * 0x100 + u32::from(lower)
}

/// Writes feedback into a slice, as the bytes after the header of an item of type 205 and format
/// 15, filled up with zeros to a whole word, and says where they end, or None where there is no
/// room. What stands behind them stays.
#[tactic(auto, unfolding(crate::specs::Feedback::twcc_fields, crate::specs::Feedback::twcc_bytes))]
pub fn write_twcc(twcc: &Twcc, out: &mut [u8]) -> Option<usize>
    requires { length twcc.now.rows < 65536 }
    ensures text { Puts out.old 0 (twcc_bytes twcc.now) out.new result }
    ensures behind { LeavesBehind out.old out.new result }
{
    let words = [
        twcc.sender_ssrc.into(),
        twcc.ssrc.into(),
        u32::from(twcc.base_seq) * 0x1_0000 + twcc.rows.len() as u32,
        word_of(reference_bits(twcc), twcc.feedback_count),
    ];
    let at = write_words(&words, out, 0)?;
    let at = write_chunks(twcc.rows.iter(), out, at)?;
    let at = write_deltas(twcc.rows.iter(), out, at)?;
    let zeros = [0; 3];
    put(out, at, &zeros[..(4 - at % 4) % 4])
}

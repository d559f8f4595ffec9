//! Redundant audio data (RED, RFC 2198): a frame together with older ones.
ghost use Rattle.std.specs.Prelude.{◌≡◌, ◌+◌, ◌*◌, ◌≤◌, length, None, Err, IfSome};
ghost use Rattle.payload_core.specs.Red.{redundant_count, first_block, primary_block, blocks_from, block_of, blocks_of, of_type};
ghost use Rattle.std.specs.Option.{option_map};

use rtp_base::wire;
use rtp_wire::Pt;
use std::alloc::{AllocError, Global};
use thiserror::Error;

/// One more than the most bytes of a redundant block: its length has 10 bits (RFC 2198 section 3).
pub const RED_LEN_LIMIT: usize = 1_024;

/// One more than the most ticks that a redundant block may be before its packet: its offset has 14
/// bits (RFC 2198 section 3).
pub const RED_OFFSET_LIMIT: u64 = 0x4000;

/// A block of RED (RFC 2198 section 3): a frame, the packet's own or an older one.
#[derive(Clone, Copy, Debug, PartialEq, Eq)]
pub struct RedBlock<'a> {
    /// What the frame is, 7 bits on the wire.
    pub pt: Pt,
    /// How many ticks of the clock before the packet's time the frame began, 14 bits on the wire; 0
    /// of the primary block.
    pub timestamp_offset: u16,
    /// The frame, at most 1,023 bytes of a redundant block.
    pub payload: &'a [u8],
    /// Whether it is the packet's own frame.
    pub is_primary: bool,
}

/// Why RED was not read.
#[derive(Clone, Copy, Debug, PartialEq, Eq, Error)]
pub enum RedError {
    /// There is no memory left.
    #[error("out of memory")]
    Memory,
    /// A header is cut, or the lengths pass the end.
    #[error("a header is cut, or the lengths pass the end")]
    BadRed,
}

impl From<AllocError> for RedError {
    ghost use Rattle.payload_core.specs.declared.red.RedError.TheVariants.{Memory};

    ghost from_gives = { λ _ e. e ≡ Memory };

    fn from(_: AllocError) -> Self {
        RedError::Memory
    }
}

// How many redundant blocks there are, or None where a header is cut.
fn redundant_count(bytes: &[u8]) -> Option<usize>
    ensures count { result ≡ redundant_count bytes.now }
    ensures room { IfSome result (λ n. 4 * n + 1 ≤ length bytes.now) }
{
    let mut rest = bytes;
    for count in 0..bytes.len() {
        if rest.is_empty() {
            return None;
        }
        if rest[0] < 128 {
            return Some(count);
        }
        if rest.len() < 4 {
            return None;
        }
        (_, rest) = rest.split_at(4);
    }
    None
}

// The block of a header, and the payloads behind its own, or None where its length passes the end.
#[tactic(auto, unfolding(crate::specs::Red::first_block))]
fn first_block<'a>(head: &[u8], payloads: &'a [u8]) -> Option<(RedBlock<'a>, &'a [u8])>
    requires { 4 ≤ length head.now }
    ensures { option_map (λ x. (block_of x.0, x.1.now)) result ≡ first_block head.now payloads.now }
{
    let header = wire::word(head, 0);
    let len = (header % 1024) as usize;
    if payloads.len() < len {
        return None;
    }
    let (payload, rest) = payloads.split_at(len);
    let block = RedBlock {
        pt: Pt::from((header / 0x100_0000 % 128) as u8),
        timestamp_offset: (header / 1024 % 0x4000) as u16,
        payload,
        is_primary: false,
    };
    Some((block, rest))
}

fn primary_block<'a>(head: &[u8], payload: &'a [u8]) -> RedBlock<'a>
    requires { 1 ≤ length head.now }
    ensures { block_of result ≡ primary_block head.now payload.now }
{
    RedBlock {
        pt: Pt::from(head[0] % 128),
        timestamp_offset: 0,
        payload,
        is_primary: true,
    }
}

/// Reads RED.
#[derive(Clone, Copy, Debug)]
pub struct RedDecoder;

impl RedDecoder {
    ghost use Rattle.payload_core.specs.Red.{red_of};
    ghost use Rattle.payload_core.specs.RedReading.{Gives};
    ghost use Rattle.payload_core.specs.declared.red.RedError.TheVariants.{BadRed};

    /// The blocks of a payload, the primary one last; they borrow it. BadRed where a header is cut
    /// (no memory is asked for then) or the lengths pass the end.
    #[tactic(auto, unfolding(crate::specs::Red::red_of))]
    pub fn decode(alloc: Global, bytes: &[u8]) -> Result<Vec<RedBlock<'_>>, RedError>
        ensures blocks { Gives (λ v. blocks_of v.items) result (red_of bytes.now) }
        ensures cut { redundant_count bytes.now ≡ None → result ≡ Err BadRed }
    {
        let Some(count) = redundant_count(bytes) else {
            return Err(RedError::BadRed);
        };
        let (heads, payloads) = (bytes, &bytes[4 * count + 1..]);
        Self::blocks(alloc, count, heads, payloads)
    }

    fn blocks<'a>(
        alloc: Global,
        count: usize,
        heads: &'a [u8],
        payloads: &'a [u8],
    ) -> Result<Vec<RedBlock<'a>>, RedError>
        requires { 4 * count + 1 ≤ length heads.now }
        ensures { Gives (λ v. blocks_of v.items) result (blocks_from count heads.now payloads.now) }
    {
        let mut blocks = Vec::with_capacity(alloc, count + 1)?;
        let mut head = heads;
        let mut rest = payloads;
        for _ in 0..count {
            let Some((block, after)) = first_block(head, rest) else {
                return Err(RedError::BadRed);
            };
            blocks.push_reserved(block);
            (_, head) = head.split_at(4);
            rest = after;
        }
        blocks.push_reserved(primary_block(head, rest));
        Ok(blocks)
    }
}

/// Keeps the blocks of a type: those of the primary's are frames of the same format.
pub fn red_same_pt_blocks(mut blocks: Vec<RedBlock<'_>>, pt: Pt) -> Vec<RedBlock<'_>>
    ensures { blocks_of result.items ≡ of_type pt (blocks_of blocks.entry.items) }
{
    blocks.retain(|block| block.pt == pt);
    blocks
}

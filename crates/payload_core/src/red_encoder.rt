//! Writing redundant audio data (RED, RFC 2198).
ghost use Rattle.std.specs.Prelude.{◌≡◌, ◌++◌, Some, IfOk, OnOk};
ghost use Rattle.payload_core.specs.Red.{block_of, blocks_of, red_of};
ghost use Rattle.payload_core.specs.RedWriting.{header_word, header_bytes, red_bytes, IsRed, RedReadsBack};

use crate::red::RedBlock;
use std::alloc::{AllocError, Global};

fn header_word(block: &RedBlock<'_>) -> u32
    ensures { result ≡ header_word (block_of block.now) }
{
    let pt = u32::from(u8::from(block.pt) % 128);
    let offset = u32::from(block.timestamp_offset % 0x4000);
    let len = (block.payload.len() % 1024) as u32;
    0x8000_0000 + pt * 0x100_0000 + offset * 1024 + len
}

fn push_header(out: &mut Vec<u8>, block: &RedBlock<'_>) -> Result<(), AllocError>
    ensures { OnOk result (out.new.items ≡ out.old.items ++ header_bytes (block_of block.now)) }
{
    if block.is_primary {
        out.push(u8::from(block.pt) % 128)?;
    } else {
        out.extend_from_slice(&header_word(block).to_be_bytes())?;
    }
    Ok(())
}

// How many bytes the blocks take at most.
fn room_for(blocks: &[RedBlock<'_>]) -> usize {
    let mut room = 0usize;
    for block in blocks {
        room = room.saturating_add(4).saturating_add(block.payload.len());
    }
    room
}

/// Writes RED.
#[derive(Clone, Copy, Debug)]
pub struct RedEncoder;

impl RedEncoder {
    /// The payload of these blocks, the primary one last. Each payload is copied once.
    pub fn encode(alloc: Global, blocks: &[RedBlock<'_>]) -> Result<Vec<u8>, AllocError>
        requires { IsRed (blocks_of blocks.now) }
        ensures bytes { IfOk result (λ v. v.items ≡ red_bytes (blocks_of blocks.now)) }
        ensures reads { IfOk result (λ v. red_of v.items ≡ Some (blocks_of blocks.now)) }
    {
        written_red_is_read_again();
        red_bytes(alloc, blocks)
    }
}

#[tactic(auto, unfolding(crate::specs::RedWriting::red_bytes))]
pub(crate) fn red_bytes(alloc: Global, blocks: &[RedBlock<'_>]) -> Result<Vec<u8>, AllocError>
    ensures { IfOk result (λ v. v.items ≡ red_bytes (blocks_of blocks.now)) }
{
    let mut out = Vec::with_capacity(alloc, room_for(blocks))?;
    for block in blocks {
        push_header(&mut out, block)?;
    }
    for block in blocks {
        out.extend_from_slice(block.payload)?;
    }
    Ok(out)
}

/// What is written as RED is read again.
#[tactic(auto, using(crate::proofs::RedAgain::red_again))]
pub fn written_red_is_read_again()
    ensures { RedReadsBack }
{}

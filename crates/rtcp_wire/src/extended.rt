//! Extended reports (RFC 3611).
ghost use Rattle.std.specs.Prelude.{◌≡◌, ◌++◌, length, IfOk, Option};
ghost use Rattle.std.specs.Int.{w16, to_be_bytes};
ghost use Rattle.std.specs.Option.{option_map};
ghost use Rattle.rtp_base.specs.Wire.{Puts};
ghost use Rattle.rtcp_wire.specs.Wire.{some_if};
ghost use Rattle.rtcp_wire.specs.Extended.{with_blocks, kept, block_of, block_at, block_kind, block_content, block_text, blocks_of, extended_report_of, extended_report_body};

use crate::row::{Put, Row, read_many, rows_len, write_rows};
use media_base::Listed;
use media_units::{SystemTime, SystemTimeExt};
use rtcp_items::{Dlrr, DlrrItem, ExtendedReport, ReportBlock, Rrtr};
use rtp_base::MAX_REPORTS;
use rtp_base::wire::{double, half, put, word};
use std::alloc::{AllocError, Global};

/// The type of a block that tells the moment of a receiver (RFC 3611 section 4.4).
pub const RRTR_BLOCK_TYPE: u8 = 4;

/// The type of a block that tells how long ago the moments of receivers came in (RFC 3611 section
/// 4.5).
pub const DLRR_BLOCK_TYPE: u8 = 5;

/// The most receivers of which such a block tells: its length in words has 16 bits, and each takes
/// three words (RFC 3611 sections 3 and 4.5).
pub const MAX_DLRR_ITEMS: usize = 21_845;

impl Row for DlrrItem {
    ghost use Rattle.rtcp_wire.specs.Extended.{dlrr_item_at};

    ghost size = { 12 };

    ghost row_of = { dlrr_item_at };

    fn size() -> usize {
        12
    }

    #[tactic(auto, unfolding(crate::specs::Extended::dlrr_item_at))]
    fn read(bytes: &[u8]) -> Self {
        DlrrItem {
            ssrc: word(bytes, 0).into(),
            last_rr_time: word(bytes, 4),
            last_rr_delay: word(bytes, 8),
        }
    }
}

impl Put for DlrrItem {
    ghost use Rattle.rtcp_wire.specs.Extended.{dlrr_item_text};

    ghost text_of = { dlrr_item_text };

    #[tactic(auto, unfolding(crate::specs::Extended::dlrr_item_text))]
    fn len(&self) -> usize {
        12
    }

    #[tactic(auto, unfolding(crate::specs::Extended::dlrr_item_text))]
    fn write(&self, out: &mut [u8], at: usize) -> Option<usize> {
        let words = [self.ssrc.into(), self.last_rr_time, self.last_rr_delay];
        write_rows(&words, out, at)
    }
}

// Reads the contents of a block, and adds it, if its type is known; false where it is too short.
#[tactic(auto, unfolding(crate::specs::Extended::block_of))]
fn read_block(
    alloc: Global,
    kind: u8,
    content: &[u8],
    blocks: &mut Listed<ReportBlock>,
) -> Result<bool, AllocError>
    ensures { IfOk result (λ read. option_map (λ new. blocks.old ++ new) (block_of kind content.now) ≡ some_if read blocks.new) }
{
    match kind {
        RRTR_BLOCK_TYPE => {
            if content.len() < 8 {
                return Ok(false);
            }
            let ntp_time = SystemTime::from_ntp_64(double(content, 0));
            blocks.push(ReportBlock::Rrtr(Rrtr { ntp_time }))?;
        }
        DLRR_BLOCK_TYPE => {
            let items = read_many(alloc, content, content.len() / 12)?;
            blocks.push(ReportBlock::Dlrr(Dlrr { items }))?;
        }
        _ => {}
    }
    Ok(true)
}

// Reads the block at the front, and gives what follows it, or None where it is too short.
#[tactic(auto, unfolding(crate::specs::Extended::block_at))]
fn read_first_block<'a>(
    alloc: Global,
    bytes: &'a [u8],
    blocks: &mut Listed<ReportBlock>,
) -> Result<Option<&'a [u8]>, AllocError>
    ensures { IfOk result (λ next. option_map (with_blocks blocks.old) (block_at bytes.now) ≡ option_map (λ r. kept blocks.new r.now) next) }
{
    if bytes.len() < 4 {
        return Ok(None);
    }
    let len = 4 * usize::from(half(bytes, 2)) + 4;
    if bytes.len() < len {
        return Ok(None);
    }
    let (block, rest) = bytes.split_at(len);
    let (_, content) = block.split_at(4);
    if read_block(alloc, bytes[0], content, blocks)? {
        Ok(Some(rest))
    } else {
        Ok(None)
    }
}

// Reads the first 31 blocks of known types, or None where a block before the last of these is too
// short.
fn read_blocks(alloc: Global, bytes: &[u8]) -> Result<Option<Listed<ReportBlock>>, AllocError>
    ensures { IfOk result (λ blocks. blocks ≡ blocks_of bytes.now) }
{
    let mut blocks = Listed::new(alloc);
    let mut rest = bytes;
    for _ in 0..bytes.len() {
        if rest.is_empty() || blocks.as_slice().len() >= MAX_REPORTS {
            return Ok(Some(blocks));
        }
        match read_first_block(alloc, rest, &mut blocks) {
            Ok(Some(after)) => rest = after,
            Ok(None) => return Ok(None),
            Err(error) => return Err(error),
        }
    }
    Ok(Some(blocks))
}

#[tactic(auto, unfolding(crate::specs::Extended::extended_report_of))]
pub(crate) fn read_extended_report(
    alloc: Global,
    body: &[u8],
) -> Result<Option<ExtendedReport>, AllocError>
    ensures { IfOk result (λ r. r ≡ extended_report_of body.now) }
{
    if body.len() < 4 {
        return Ok(None);
    }
    let (_, rest) = body.split_at(4);
    let Some(blocks) = read_blocks(alloc, rest)? else {
        return Ok(None);
    };
    Ok(Some(ExtendedReport {
        ssrc: word(body, 0).into(),
        blocks,
    }))
}

fn kind(block: &ReportBlock) -> u8
    ensures { result ≡ block_kind block.now }
{
    match block {
        ReportBlock::Rrtr(_) => RRTR_BLOCK_TYPE,
        ReportBlock::Dlrr(_) => DLRR_BLOCK_TYPE,
    }
}

#[tactic(auto, unfolding(crate::specs::Extended::block_content))]
fn write_content(block: &ReportBlock, out: &mut [u8]) -> Option<usize>
    ensures { Puts out.old 0 (block_content block.now) out.new result }
{
    match block {
        ReportBlock::Rrtr(rrtr) => put(out, 0, &rrtr.ntp_time.as_ntp_64().to_be_bytes()),
        ReportBlock::Dlrr(dlrr) => write_rows(dlrr.items.as_slice(), out, 0),
    }
}

// A number of words, modulo 2^16.
fn count_of_words(words: usize) -> [u8; 2]
    ensures { result ≡ to_be_bytes w16 words }
{
    ((words % 0x1_0000) as u16).to_be_bytes()
}

impl Put for ReportBlock {
    ghost text_of = { block_text };

    #[tactic(auto, unfolding(crate::specs::Extended::block_text, crate::specs::Extended::block_content))]
    fn len(&self) -> usize {
        match self {
            ReportBlock::Rrtr(_) => 12,
            ReportBlock::Dlrr(dlrr) => 4 + rows_len(dlrr.items.as_slice()),
        }
    }

    #[tactic(auto, unfolding(crate::specs::Extended::block_text))]
    fn write(&self, out: &mut [u8], at: usize) -> Option<usize> {
        if out.len() < at || out.len() - at < 4 {
            return None;
        }
        let (_, room) = out.split_at_mut(at);
        let (head, body) = room.split_at_mut(4);
        let len = write_content(self, body)?;
        let words = count_of_words(len / 4);
        head.copy_from_slice(&[kind(self), 0, words[0], words[1]]);
        Some(at + 4 + len)
    }
}

#[tactic(auto, unfolding(crate::specs::Extended::extended_report_body))]
pub(crate) fn write_extended_report(report: &ExtendedReport, out: &mut [u8]) -> Option<usize>
    ensures { Puts out.old 0 (extended_report_body report.now) out.new result }
{
    let at = put(out, 0, &u32::from(report.ssrc).to_be_bytes())?;
    write_rows(report.blocks.as_slice(), out, at)
}

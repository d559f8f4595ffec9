//! Laws of what is read and written.
ghost use Rattle.rtcp_wire.specs.Laws.{FramesReadBack, ItemsReadBack, ItemsFitByLengths};

use twcc_core::{feedback_is_whole, feedback_reads_back};

/// The frame of a written item is read again, whatever follows it.
#[tactic(auto, using(crate::proofs::ReadBack::frame_again))]
pub fn frames_read_back()
    ensures { FramesReadBack }
{}

/// Reports, descriptions, goodbyes and feedback, written one after another, are read again, in
/// order, each field as its wire form holds it: moments and rates as they are rounded, of blocks
/// and of a source's items the first 31, all else as it was.
pub fn items_read_back()
    ensures { ItemsReadBack }
{
    feedback_reads_back();
}

/// Items whose counts and lengths fit their fields can be written: at most 31 entries, blocks,
/// sources or items of a source, texts of at most 255 bytes whose types have numbers other than 0,
/// at most 255 SSRCs of a REMB, at most 65,535 packets of transport-wide feedback, whole words of
/// an application.
pub fn items_fit_by_lengths()
    ensures { ItemsFitByLengths }
{
    feedback_is_whole();
}

//! The text of transcripts.
use media_base::Bytes;
use media_model::*;
use media_script::{end_line, entries_text, write_transcript};
use media_units::Instant;
use rtp_wire::{Pt, SeqNo, Ssrc};
use std::alloc::Global;
use std::test::Fail;

// One packet sealed by A.
fn one_sealed(alloc: Global) -> Result<Entry, Fail> {
    let plain = Bytes::from_slice(alloc, &[1])?;
    Ok(Entry::Sealed(Sealed {
        side: Side::A,
        kind: Kind::Rtp,
        ssrc: Ssrc::from(42),
        index: SeqNo::from(1),
        plain,
        bytes: Bytes::from_slice(alloc, &[1, 2])?,
    }))
}

// It comes to B.
fn one_got(alloc: Global) -> Result<Entry, Fail> {
    Ok(Entry::Got(Got {
        side: Side::B,
        time: Instant::from_nanos(1),
        kind: Kind::Rtp,
        bytes: Bytes::from_slice(alloc, &[1, 2])?,
    }))
}

// B opens it.
fn one_opened(alloc: Global) -> Result<Entry, Fail> {
    Ok(Entry::Opened(Opened {
        side: Side::B,
        kind: Kind::Rtp,
        ssrc: Ssrc::from(42),
        index: SeqNo::from(1),
        plain: Bytes::from_slice(alloc, &[1])?,
    }))
}

// And yields its packet.
fn one_yielded(alloc: Global) -> Result<Entry, Fail> {
    Ok(Entry::Yielded(
        Side::B,
        Packet {
            ssrc: Ssrc::from(42),
            number: SeqNo::from(1),
            pt: Pt::from(96),
            rtp_time: 0,
            marker: false,
            csrc: Sources::none(),
            payload: Bytes::from_slice(alloc, &[1])?,
        },
    ))
}

// A call of A, and one packet sealed by it, opened and yielded by B.
fn push_entries(alloc: Global, transcript: &mut Transcript) -> Result<(), Fail> {
    transcript.push(Entry::Called(Side::A, Instant::from_nanos(1), Call::Application))?;
    transcript.push(one_sealed(alloc)?)?;
    transcript.push(one_got(alloc)?)?;
    transcript.push(one_opened(alloc)?)?;
    transcript.push(one_yielded(alloc)?)?;
    Ok(())
}

const LINES: &str =
    "called A app\nsealed A rtp 42 1 0102\ngot B rtp 2\nopened B rtp 42 1\nyielded B 42 1 96 0 0 01\n";

// Whether the entries are written so.
fn has_lines(alloc: Global, transcript: &Transcript) -> Result<bool, Fail> {
    let text = entries_text(alloc, transcript.entries())?;
    Ok(text.as_str() == LINES)
}

// Whether the whole is written so, where it holds, and the last line where the repairs do not.
fn has_ends(alloc: Global, transcript: &Transcript) -> Result<bool, Fail> {
    let whole = write_transcript(alloc, true, transcript)?;
    let last = end_line(alloc, false, transcript)?;
    let end = whole.as_str().strip_prefix(LINES);
    Ok(
        end == Some("end genuine=yes repairs=yes\n")
            && last.as_str() == "end genuine=yes repairs=no\n",
    )
}

fn is_written(alloc: Global, transcript: &mut Transcript) -> Result<bool, Fail> {
    push_entries(alloc, transcript)?;
    let lines = has_lines(alloc, transcript)?;
    let ends = has_ends(alloc, transcript)?;
    Ok(lines && ends && transcript.genuine(alloc)?)
}

#[test]
fn transcripts_are_written(rt: HostRuntime) -> Result<(), Fail> {
    let mut transcript = Transcript::new(rt.alloc());
    let written = is_written(rt.alloc(), &mut transcript)?;
    assert!(rt; written);
    Ok(())
}

ghost use Rattle.std.specs.Prelude.{◌+◌, ◌%◌, slice_index};
ghost use Rattle.rand_core.specs.Steps.{stream_of, steps_u32};
ghost use Rattle.leaf_tests.specs.declared.drawn_ssrcs.Draws.{Draws as Drawn};

use mapping_core::{IncomingStream, MappedStreams, SsrcError, UsedSsrcs, new_ssrc_pair};
use rand_core::utils::NextWord;
use rand_core::{Rng, utils};
use rtp_base::{Mid, Ssrc};
use std::alloc::{AllocError, Global};

// A generator that gives four numbers, one after another, again and again.
#[derive(Drop)]
struct Draws {
    numbers: [u32; 4],
    at: usize,
}

impl NextWord<u32> for Draws {
    ghost step = { λ d. (slice_index d.numbers (d.at % 4), record d { at = (d.at + 1) % 4 }) };

    fn next_word(&mut self) -> u32 {
        let at = self.at % 4;
        self.at = (at + 1) % 4;
        self.numbers[at]
    }
}

impl Rng for Draws {
    ghost stream = { stream_of (steps_u32 (λ (d : Drawn).
        (slice_index d.numbers (d.at % 4), record d { at = (d.at + 1) % 4 }))) };

    fn next_u32(&mut self) -> u32 {
        self.next_word()
    }

    fn next_u64(&mut self) -> u64 {
        utils::next_u64_via_u32(self)
    }

    fn fill_bytes(&mut self, dst: &mut [u8]) {
        utils::fill_bytes_via_u32(self, dst)
    }
}

/// Four numbers, and the pair that is drawn of them.
type Row = ([u32; 4], Option<(u32, u32)>);

// Where 42 and 43 are in use: what is in use and the first of the two are passed over.
static DRAWN: [Row; 2] = [([42, 7, 7, 8], Some((7, 8))), ([42, 42, 42, 42], None)];

// A stream on SSRC 42, with repairs on 43.
fn streams(alloc: Global) -> Result<MappedStreams, AllocError> {
    let mut streams = MappedStreams::new(alloc);
    if let Some(mid) = Mid::from_slice(b"v") {
        streams.expect(&IncomingStream {
            ssrc: Ssrc::from(42),
            rtx: Some(Ssrc::from(43)),
            mid,
            rid: None,
            previous: None,
            suppress_nack: false,
        })?;
    }
    Ok(streams)
}

// Whether a row's numbers draw its pair.
fn draw_so(streams: &MappedStreams, row: &Row) -> bool {
    let mut draws = Draws {
        numbers: row.0,
        at: 0,
    };
    let pair = new_ssrc_pair(streams, &mut draws);
    match row.1 {
        Some((ssrc, rtx)) => pair == Ok((Ssrc::from(ssrc), Ssrc::from(rtx))),
        None => pair == Err(SsrcError::NoFreeSsrc),
    }
}

fn all_draw_so(alloc: Global) -> Result<bool, AllocError> {
    let streams = streams(alloc)?;
    for row in &DRAWN {
        if !draw_so(&streams, row) {
            return Ok(false);
        }
    }
    Ok(streams.is_used(Ssrc::from(43)))
}

#[test]
fn draws_free_pairs(rt: HostRuntime) {
    assert!(rt; all_draw_so(rt.alloc()) == Ok(true));
}

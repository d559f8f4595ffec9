//! Rounds, in which an end asks for what is missing (RFC 4585 section 6.2.1).
use crate::calls::tick;
use crate::carrying::{Ids, map_of};
use crate::ends::{End, at, config, expect_stream, give_keys, new_end};
use crate::leaving::leaves;
use crate::packets::{opens, packet_of};
use std::alloc::Global;

// SSRC 2, that of the end while it sends nothing, asks on SSRC 42 for the number 11 (RFC 4585
// section 6.2.1).
static ASKS_11: [u8; 16] = [0x81, 0xcd, 0, 3, 0, 0, 0, 2, 0, 0, 0, 42, 0, 11, 0, 0];

// Moments of ticks in nanoseconds, and whether the end asks then.
static TICKS: [(u64, bool); 3] = [(33_000_000, true), (66_000_000, false), (138_000_000, true)];

// Whether a packet on SSRC 42 opens.
fn comes(alloc: Global, end: &mut End, number: u8) -> bool {
    match packet_of(alloc, 42, number) {
        Some(bytes) => opens(end, at(1_000_000), bytes.as_slice()),
        None => false,
    }
}

// Whether an end to which 10 and 12 came asks for 11, and again 105 ms later, where no round trip
// is known.
fn asks_again(alloc: Global, end: &mut End) -> bool {
    let keyed = give_keys(alloc, end, false);
    let expected = expect_stream(end);
    let first = comes(alloc, end, 10);
    let mut held = keyed & expected & first & comes(alloc, end, 12);
    for (now, asks) in &TICKS {
        let plain = if *asks { ASKS_11.as_slice() } else { &[] };
        held &= tick(end, at(*now)).is_ok();
        held &= leaves(end, at(*now), plain);
    }
    held
}

// Makes an end, and asks it: the one function that owns a session, with one exit.
fn play(alloc: Global) -> bool {
    let Some(config) = config(alloc, map_of(Ids::Nothing)) else {
        return false;
    };
    let Some(mut end) = new_end(alloc, config) else {
        return false;
    };
    asks_again(alloc, &mut end)
}

#[test]
fn rounds_hold(rt: HostRuntime) {
    assert!(rt; play(rt.alloc()));
}

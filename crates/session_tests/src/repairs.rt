//! Repairs that are sent (RFC 4588).
mod steps;

use crate::carrying::{Ids, map_of};
use crate::ends::{config, new_end};
use crate::repairs::steps::Out::{Again, First, Plain};
use crate::repairs::steps::Step::{
    Asks, Drains, Ends, EndsAtOnce, Hears, Keeps, Resets, SendsThree, Ticks, Writes,
};
use crate::repairs::steps::{ASKS_2, REPAIR_OF_2, Row, Step, go_through};
use std::alloc::Global;

// The least number that is one too many, 2^48.
const PAST_LAST: u64 = 281_474_976_710_656;

static REPAIRED: [Row; 4] = [
    (
        "lost and repaired",
        5,
        &[
            Keeps(2000, 3_000_000_000, None),
            SendsThree,
            Hears(20_000_000, ASKS_2),
            Drains(20_000_000, &[]),
            Drains(30_000_000, &[]),
            Ticks(30_000_000, &[Plain(43, 5, REPAIR_OF_2)]),
            Ticks(40_000_000, &[]),
        ],
    ),
    (
        "numbers of repairs begin anew",
        5,
        &[
            Keeps(10, 3_000_000_000, None),
            Writes(42, 1, &[1]),
            Ticks(10_000_000, &[First(42, 1, &[1])]),
            Asks(20_000_000, 42, 1, 0),
            Ticks(30_000_000, &[Again(43, 5, 1, &[1])]),
            Resets(50, 9),
            Writes(50, 1, &[2]),
            Ticks(40_000_000, &[First(50, 1, &[2])]),
            Asks(50_000_000, 50, 1, 0),
            Asks(50_000_000, 50, 1, 0),
            Ticks(60_000_000, &[Again(51, 9, 1, &[2]), Again(51, 10, 1, &[2])]),
        ],
    ),
    (
        "the last number of repairs",
        281_474_976_710_655,
        &[
            SendsThree,
            Asks(20_000_000, 42, 2, 1),
            Writes(42, 4, &[4]),
            Ends(30_000_000, &[Again(43, 281_474_976_710_655, 2, &[2])]),
        ],
    ),
    (
        "no number of repairs",
        PAST_LAST,
        &[
            SendsThree,
            Asks(20_000_000, 42, 2, 0),
            EndsAtOnce(30_000_000),
        ],
    ),
];

// Makes an end, and takes it through the steps: the one function that owns a session, with one
// exit.
fn play(alloc: Global, first: u64, steps: &[Step]) -> bool {
    let Some(config) = config(alloc, map_of(Ids::Nothing)) else {
        return false;
    };
    let Some(mut end) = new_end(alloc, config) else {
        return false;
    };
    go_through(alloc, &mut end, first, steps)
}

#[test]
fn repairs_hold(rt: HostRuntime) {
    for (name, first, steps) in &REPAIRED {
        assert!(rt; play(rt.alloc(), *first, steps), "{name}");
    }
}

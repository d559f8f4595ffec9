ghost use Rattle.std.specs.Prelude.{◌≡◌};

use red_core::RedMemory;
use repair_core::{GapWindow, NackRegister};
use rtp_base::SeqNo;
use std::alloc::{AllocError, Global};

// A stream on which numbers came at these times, and numbers that came whose times are forgotten.
#[derive(Drop)]
struct Stream {
    window: NackRegister,
    memory: RedMemory,
}

fn number(number: u32) -> SeqNo
    ensures { result ≡ number }
{
    SeqNo::from(u64::from(number))
}

fn stream_of(alloc: Global, came: &[(u32, u64)], alone: &[u32]) -> Result<Stream, AllocError> {
    let mut window = NackRegister::new(alloc, None)?;
    let mut memory = RedMemory::new();
    for (n, time) in came {
        let _ = window.update(number(*n));
        memory.took(number(*n), *time);
    }
    for n in alone {
        let _ = window.update(number(*n));
    }
    Ok(Stream { window, memory })
}

fn place(stream: &Stream, datagram: u32, time: u64) -> Option<u64> {
    let place = stream.memory.place(&stream.window, number(datagram), time)?;
    Some(u64::from(place))
}

/// What is done with a stream, or asked of it.
#[derive(Clone, Copy)]
enum Step {
    /// A block of this time, that comes in this datagram, has this place.
    Place(u32, u64, Option<u64>),
    /// The packet of this number and time is recovered.
    Recovers(u32, u64),
    /// This number came at this time.
    Took(u32, u64),
    /// The numbers from this one up to the other came 960 ticks after one another.
    TookEach(u32, u32),
    /// All times are forgotten.
    Clears,
}

use Step::{Clears, Place, Recovers, Took, TookEach};

/// The numbers that came and their times, those that came and whose times are forgotten, and what
/// then is done.
type Row = (&'static [(u32, u64)], &'static [u32], &'static [Step]);

fn goes(stream: &mut Stream, step: Step) -> bool {
    match step {
        Place(datagram, time, wanted) => return place(stream, datagram, time) == wanted,
        Recovers(n, time) => stream.memory.recovered(&mut stream.window, number(n), time),
        Took(n, time) => stream.memory.took(number(n), time),
        TookEach(first, end) => {
            for n in first..end {
                stream.memory.took(number(n), u64::from(n) * 960);
            }
        }
        Clears => stream.memory.clear(),
    }
    true
}

fn goes_through(stream: &mut Stream, steps: &[Step]) -> bool {
    for step in steps {
        if !goes(stream, *step) {
            return false;
        }
    }
    true
}

// Whether each row goes so: the one function that owns streams.
fn hold(alloc: Global, rows: &[Row]) -> Result<bool, AllocError> {
    for (came, alone, steps) in rows {
        let mut stream = stream_of(alloc, came, alone)?;
        if !goes_through(&mut stream, steps) {
            return Ok(false);
        }
    }
    Ok(true)
}

// A block whose time a number has, and one a tick beside it.
static KNOWN: [Row; 1] = [(
    &[(1, 0), (4, 2880)],
    &[],
    &[
        Place(4, 0, None),
        Place(4, 2880, None),
        Place(4, 960, Some(2)),
        Recovers(2, 960),
        Place(4, 960, None),
        Place(4, 959, None),
        Place(4, 961, Some(3)),
    ],
)];

#[test]
fn a_known_time_has_no_place(rt: HostRuntime) {
    assert!(rt; hold(rt.alloc(), &KNOWN) == Ok(true));
}

// A number on each side, and the lower one at most 9 below the datagram.
static BOTH_SIDES: [Row; 4] = [
    (
        &[(5, 1000), (7, 3000)],
        &[],
        &[
            Place(7, 999, None),
            Place(7, 1001, Some(6)),
            Place(7, 3001, None),
        ],
    ),
    (
        &[(1, 0), (3, 1920), (6, 4800), (9, 7680)],
        &[],
        &[Place(9, 3840, Some(5))],
    ),
    (&[(1, 0), (10, 8640)], &[], &[Place(10, 960, Some(2))]),
    (&[(1, 0), (11, 9600)], &[], &[Place(11, 8640, None)]),
];

#[test]
fn numbers_stand_on_both_sides(rt: HostRuntime) {
    assert!(rt; hold(rt.alloc(), &BOTH_SIDES) == Ok(true));
}

// One number between takes any time between, also where others there came.
static ONE_BETWEEN: [Row; 3] = [
    (
        &[(1, 0), (3, 5000)],
        &[],
        &[Place(3, 1, Some(2)), Place(3, 4999, Some(2))],
    ),
    (&[(1, 0), (4, 3001)], &[3], &[Place(4, 17, Some(2))]),
    (&[(1, 0), (2, 1000)], &[], &[Place(2, 500, None)]),
];

#[test]
fn one_number_takes_any_time(rt: HostRuntime) {
    assert!(rt; hold(rt.alloc(), &ONE_BETWEEN) == Ok(true));
}

// Of several numbers the one at the time, where both divisions are exact and it did not come.
static SEVERAL_BETWEEN: [Row; 3] = [
    (
        &[(1, 0), (4, 2880)],
        &[],
        &[
            Place(4, 960, Some(2)),
            Place(4, 1920, Some(3)),
            Place(4, 1000, None),
        ],
    ),
    (&[(1, 0), (4, 2881)], &[], &[Place(4, 960, None)]),
    (
        &[(1, 0), (5, 3840)],
        &[3],
        &[
            Place(5, 960, Some(2)),
            Place(5, 1920, None),
            Place(5, 2880, Some(4)),
        ],
    ),
];

#[test]
fn several_numbers_rise_evenly(rt: HostRuntime) {
    assert!(rt; hold(rt.alloc(), &SEVERAL_BETWEEN) == Ok(true));
}

// A place is not above the datagram.
static BELOW_ITS_DATAGRAM: [Row; 1] = [(
    &[(1, 0), (4, 2880)],
    &[],
    &[
        Place(2, 960, Some(2)),
        Place(2, 1920, None),
        Place(0, 960, None),
    ],
)];

#[test]
fn a_block_came_before_its_datagram(rt: HostRuntime) {
    assert!(rt; hold(rt.alloc(), &BELOW_ITS_DATAGRAM) == Ok(true));
}

// The 32 numbers that came last are remembered, and a cleared memory has none.
static LAST_32: [Row; 1] = [(
    &[(1, 0), (3, 1920)],
    &[],
    &[
        TookEach(4, 34),
        Place(3, 960, Some(2)),
        Took(34, 32640),
        Place(3, 960, None),
        Clears,
        Took(1, 0),
        Place(3, 960, None),
        Took(3, 1920),
        Place(3, 960, Some(2)),
    ],
)];

#[test]
fn the_last_32_are_remembered(rt: HostRuntime) {
    assert!(rt; hold(rt.alloc(), &LAST_32) == Ok(true));
}

//! Reports (RFC 3550 section 6.4, RFC 3611 sections 4.4 and 4.5) and requests to senders: when they
//! leave, and what they tell.
mod steps;
mod told;

use crate::carrying::{Ids, map_of};
use crate::ends::{End, config, give_keys, new_end};
use crate::reports::steps::{Step, goes};
use crate::reports::told::TOLD;
use media_units::Duration;
use session_core::ReportIntervals;
use std::alloc::Global;

fn goes_through(alloc: Global, end: &mut End, steps: &[Step]) -> bool {
    let mut held = give_keys(alloc, end, false);
    for step in steps {
        held = held && goes(alloc, end, *step);
    }
    held
}

// Makes an end that reports every 5 s and every 1 s, and takes it through the steps: the one
// function that owns a session, with one exit.
fn play(alloc: Global, steps: &[Step]) -> bool {
    let Some(mut made) = config(alloc, map_of(Ids::Nothing)) else {
        return false;
    };
    made.intervals = ReportIntervals {
        audio: Duration::from_secs(5),
        video: Duration::from_secs(1),
    };
    let Some(mut end) = new_end(alloc, made) else {
        return false;
    };
    goes_through(alloc, &mut end, steps)
}

#[test]
fn reports_hold(rt: HostRuntime) {
    for (name, steps) in &TOLD {
        assert!(rt; play(rt.alloc(), steps), "{name}");
    }
}

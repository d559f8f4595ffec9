use crate::arriving::tells_first;
use crate::carrying::{Ids, carries, map_of};
use crate::ends::{End, FIRST_REPORT, config, expect_stream, give_keys, new_end, prepare_sender};
use crate::feedback::{is_exchanged, opens_clear};
use crate::leaving::{drains, sends, write};
use crate::packets::{SEALED, WITH_MID};
use crate::sections::are_taken_out;
use rtp_wire::{Extension, ExtensionValues};
use std::alloc::Global;

/// What is asked of two fresh ends, one that sends and one that receives.
#[derive(Clone, Copy)]
enum Row {
    /// A packet is sealed as `SEALED`, which opens and is told.
    Seals,
    /// A packet with its mid is sealed as `WITH_MID`.
    SealsWithMid,
    /// A drain gives `SEALED`.
    Drains,
    /// Packets carry the values of all extensions.
    Carries,
    /// Feedback is sealed, opens and is told, as often as it comes.
    Exchanges,
    /// Feedback that is not encrypted opens under its tag alone.
    OpensClear,
    /// Nothing that may want memory is told.
    TellsNothing,
    /// Streams and a media section are taken out.
    TakesOut,
}

static ROWS: [(&str, Row); 8] = [
    ("a packet", Row::Seals),
    ("a packet with its mid", Row::SealsWithMid),
    ("a drain", Row::Drains),
    ("all extensions", Row::Carries),
    ("feedback", Row::Exchanges),
    ("feedback in the clear", Row::OpensClear),
    ("what may want memory", Row::TellsNothing),
    ("streams and a media section", Row::TakesOut),
];

// Writes the packet of `SEALED`.
fn writes(alloc: Global, a: &mut End) -> bool {
    write(alloc, a, 1, ExtensionValues::none())
}

fn tells_nothing(end: &mut End) -> bool {
    match end.poll_event_fallible() {
        Ok(told) => told.is_none(),
        Err(_) => false,
    }
}

// Whether two ends answer as a row says, of which one sends and the other receives.
fn answer(alloc: Global, a: &mut End, b: &mut End, row: Row) -> bool {
    match row {
        Row::Seals => writes(alloc, a) && sends(a, &SEALED) && tells_first(b),
        Row::SealsWithMid => writes(alloc, a) && sends(a, &WITH_MID),
        Row::Drains => writes(alloc, a) && drains(a, &SEALED, FIRST_REPORT),
        Row::Carries => carries(alloc, a, b),
        Row::Exchanges => is_exchanged(alloc, a, b),
        Row::OpensClear => opens_clear(b),
        Row::TellsNothing => tells_nothing(a),
        Row::TakesOut => are_taken_out(a, b),
    }
}

// Whether two fresh ends with keys answer as a row says.
fn hold(alloc: Global, a: &mut End, b: &mut End, row: Row) -> bool {
    let prepared = prepare_sender(alloc, a);
    let expected = expect_stream(b);
    let left = give_keys(alloc, a, true);
    let right = give_keys(alloc, b, false);
    prepared & expected & left & right & answer(alloc, a, b, row)
}

// Makes two ends, and asks them a row: the one function that owns sessions, with one exit.
fn play(alloc: Global, row: Row) -> bool {
    let exts = match row {
        Row::Carries => map_of(Ids::All),
        Row::SealsWithMid => map_of(Ids::Only(Extension::RtpMid)),
        _ => map_of(Ids::Nothing),
    };
    let Some(sender) = config(alloc, exts) else {
        return false;
    };
    let Some(receiver) = config(alloc, exts) else {
        return false;
    };
    let Some(mut a) = new_end(alloc, sender) else {
        return false;
    };
    let Some(mut b) = new_end(alloc, receiver) else {
        return false;
    };
    hold(alloc, &mut a, &mut b, row)
}

#[test]
fn rows_hold(rt: HostRuntime) {
    for (name, row) in &ROWS {
        assert!(rt; play(rt.alloc(), *row), "{name}");
    }
}

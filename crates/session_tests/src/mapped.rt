//! Datagrams that come: what maps to a stream, and which packets repairs restore (RFC 4588). Type
//! 97 repairs type 96.
use crate::coming::Brings::{Nothing, Opens, Tells};
use crate::coming::Expects::{Any, Only};
use crate::coming::Step::{Comes, Has, Lacks, Receives, Ticks};
use crate::coming::{Came, Names, Row};

// No names.
const NONE: Names = &[];

// The mid v alone.
const V: Names = &[0x40, b'v', 0, 0];

// The mid v, and a rid.
const HI: Names = &[0x40, b'v', 0x51, b'h', b'i', 0, 0, 0];

const LO: Names = &[0x40, b'v', 0x51, b'l', b'o', 0, 0, 0];

// The mid v, and the rid of what is repaired.
const OF_HI: Names = &[0x40, b'v', 0x61, b'h', b'i', 0, 0, 0];

const OF_LO: Names = &[0x40, b'v', 0x61, b'l', b'o', 0, 0, 0];

// SSRC 2 asks on SSRC 42 for the number 2 (RFC 4585 section 6.2.1).
const ASKS_2: &[u8] = &[0x81, 0xcd, 0, 3, 0, 0, 0, 2, 0, 0, 0, 42, 0, 2, 0, 0];

/// Datagrams under an SSRC that no stream has, and repairs under that of a stream's.
pub static CAME: [Row; 7] = [
    (
        "a packet declares a stream, behind the others",
        Any,
        &[
            Lacks(50),
            Comes(Came(50, 96, 7, V, &[1]), Tells(50, 96, 7, &[1])),
            Has(50, 0, 0),
            Comes(Came(50, 96, 8, NONE, &[2]), Tells(50, 96, 8, &[2])),
            Comes(Came(40, 100, 1, LO, &[3]), Tells(40, 100, 1, &[3])),
            Has(40, 1, 0),
        ],
    ),
    (
        "a rid that is carried is expected",
        Only(&["hi"]),
        &[
            Comes(Came(50, 96, 1, LO, &[1]), Nothing),
            Comes(Came(50, 96, 1, OF_LO, &[1]), Nothing),
            Lacks(50),
            Comes(Came(50, 96, 1, HI, &[1]), Tells(50, 96, 1, &[1])),
            Has(50, 0, 0),
        ],
    ),
    (
        "repairs map once their stream is known",
        Any,
        &[
            Comes(Came(51, 97, 1, V, &[0, 7, 9]), Nothing),
            Comes(Came(51, 97, 1, OF_HI, &[0, 7, 9]), Nothing),
            Lacks(51),
            Comes(Came(50, 96, 6, HI, &[1]), Tells(50, 96, 6, &[1])),
            Comes(Came(51, 97, 1, V, &[0, 7, 9]), Tells(50, 96, 7, &[9])),
            Has(50, 0, 51),
            Comes(Came(51, 97, 2, NONE, &[0, 8, 9]), Tells(50, 96, 8, &[9])),
        ],
    ),
    (
        "a stream changes its SSRC, in its place",
        Any,
        &[
            Comes(Came(50, 96, 300, V, &[1]), Tells(50, 96, 300, &[1])),
            Comes(Came(40, 96, 1, LO, &[1]), Tells(40, 96, 1, &[1])),
            Comes(Came(60, 96, 1, V, &[1]), Tells(60, 96, 1, &[1])),
            Has(60, 0, 0),
            Has(40, 1, 0),
            Lacks(50),
            Comes(Came(70, 96, 9, V, &[1]), Tells(70, 96, 9, &[1])),
            Has(70, 0, 0),
            Comes(Came(50, 96, 299, V, &[1]), Nothing),
            Lacks(50),
            Comes(Came(50, 96, 301, V, &[1]), Tells(50, 96, 301, &[1])),
            Has(50, 0, 0),
            Lacks(70),
        ],
    ),
    (
        "repairs change their SSRC, and begin anew",
        Any,
        &[
            Comes(Came(50, 96, 1, V, &[1]), Tells(50, 96, 1, &[1])),
            Comes(Came(51, 97, 500, V, &[]), Opens),
            Has(50, 0, 51),
            Comes(Came(61, 97, 3, V, &[0, 2, 9]), Tells(50, 96, 2, &[9])),
            Has(50, 0, 61),
            Lacks(51),
            Comes(Came(51, 97, 500, V, &[]), Nothing),
            Comes(Came(51, 97, 501, V, &[0, 3, 9]), Tells(50, 96, 3, &[9])),
            Has(50, 0, 51),
            Lacks(61),
        ],
    ),
    (
        "a lost packet is restored once",
        Any,
        &[
            Receives(42, 43),
            Comes(Came(42, 96, 1, NONE, &[1]), Tells(42, 96, 1, &[1])),
            Comes(Came(42, 96, 3, NONE, &[3]), Tells(42, 96, 3, &[3])),
            Ticks(1_500_000_000, ASKS_2),
            Comes(Came(43, 97, 5, NONE, &[0, 2, 2]), Tells(42, 96, 2, &[2])),
            Ticks(1_700_000_000, &[]),
            Comes(Came(43, 97, 5, NONE, &[0, 2, 2]), Nothing),
            Comes(Came(43, 97, 6, NONE, &[0, 2, 2]), Opens),
            Comes(Came(42, 96, 2, NONE, &[2]), Nothing),
            Comes(Came(42, 96, 4, NONE, &[4]), Tells(42, 96, 4, &[4])),
        ],
    ),
    (
        "repairs of no, one and two bytes",
        Any,
        &[
            Receives(42, 43),
            Comes(Came(43, 97, 9, NONE, &[]), Opens),
            Comes(Came(43, 97, 11, NONE, &[7]), Opens),
            Comes(Came(43, 97, 10, NONE, &[0, 5]), Tells(42, 96, 5, &[])),
        ],
    ),
];

ghost use Rattle.std.specs.Prelude.{◌≡◌};

use crate::{
    MAX_BURST_SIZE, MAX_DEBT_IN_TIME, MAX_PACKET, MAX_PACKET_IN_TIME, MINIMAL_DELTA, PACING,
    PADDING_BURST_INTERVAL, QUEUE_LIMIT, SHORTEST_DRAIN,
};

/// Which numbers the names have that contracts of this crate speak of.
pub fn named_numbers()
    ensures debt { MAX_DEBT_IN_TIME ≡ 500000000 }
    ensures padding { PADDING_BURST_INTERVAL ≡ 5000000 }
    ensures pacing { PACING ≡ 40000000 }
    ensures burst { MAX_BURST_SIZE ≡ 504000000000000 }
    ensures delta { MINIMAL_DELTA ≡ 1000 }
    ensures time { MAX_PACKET_IN_TIME ≡ 460000000 }
    ensures wait { QUEUE_LIMIT ≡ 2000000000 }
    ensures drain { SHORTEST_DRAIN ≡ 1000000 }
    ensures packet { MAX_PACKET ≡ 2000 }
{}

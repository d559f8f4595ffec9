// How many bytes feedback takes.
ghost use Rattle.std.specs.Prelude.{◌≡◌, ◌<◌, ◌^◌, [], length};
ghost use Rattle.twcc_core.specs.Feedback.{twcc_bytes};

use crate::chunk::{MAX_RUN, VECTOR_LEN};
use crate::{PacketStatus, Twcc};

// The size of feedback whose rows come one after another.
#[derive(Drop)]
pub struct Size {
    chunks: usize,
    // How many rows the last chunk tells, the symbol of the first of them, and whether all have it.
    told: usize,
    symbol: u8,
    is_run: bool,
    deltas: usize,
}

impl Size {
    ghost use Rattle.twcc_core.specs.Sizes.{IsCounted, after_row, bytes_of};

    pub fn new() -> Self
        ensures { IsCounted result [] }
    {
        Size {
            chunks: 0,
            told: 0,
            symbol: 0,
            is_run: false,
            deltas: 0,
        }
    }

    // Counts another row.
    pub fn add(&mut self, row: PacketStatus)
        requires chunks { self.old.chunks < 2 ^ 32 }
        requires deltas { self.old.deltas < 2 ^ 32 }
        ensures { self.new ≡ after_row self.old row }
    {
        let symbol = row.symbol();
        self.deltas += row.delta_len();
        let is_same = symbol == self.symbol;
        if 0 < self.told
            && (self.told < VECTOR_LEN || (self.is_run && is_same && self.told < MAX_RUN))
        {
            self.told += 1;
            self.is_run = self.is_run && is_same;
        } else {
            self.chunks += 1;
            self.told = 1;
            self.symbol = symbol;
            self.is_run = true;
        }
    }

    // The bytes, with the header and the fill.
    pub fn bytes(&self) -> usize
        requires chunks { self.now.chunks < 2 ^ 33 }
        requires deltas { self.now.deltas < 2 ^ 33 }
        ensures { result ≡ bytes_of self.now }
    {
        let len = 20 + 2 * self.chunks + self.deltas;
        len + (4 - len % 4) % 4
    }
}

/// How many bytes `write_twcc` writes.
pub fn twcc_len(twcc: &Twcc) -> usize
    requires { length twcc.now.rows < 65536 }
    ensures { result ≡ length (twcc_bytes twcc.now) }
{
    let mut size = Size::new();
    for row in twcc.rows.iter() {
        size.add(row);
    }
    size.bytes() - 4
}

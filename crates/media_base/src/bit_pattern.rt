// Patterns of the bits of a byte.
ghost use Rattle.std.specs.Prelude.{◌≡◌, ◌-◌, ◌/◌, ◌%◌, ◌^◌, ◌<◌, ◌↔◌, ℕ, length, SomeIff, IsTrue, slice_index};
ghost use Rattle.media_base.specs.BitPattern.{IsPattern, IsSymbol, FitsBit, FitsPattern, bit_of};

use std::marker::Model;

/// What the bits of a byte have to be: a text of eight of `0`, `1` and `x` (either), from the
/// highest bit down. Contracts see the text.
#[derive(Clone, Copy, Debug, PartialEq, Eq)]
pub struct BitPattern {
    symbols: [u8; 8],
}

impl Model for BitPattern {
    ghost use Rattle.std.specs.Prelude.{List, ℕ};

    ghost Value = { List ℕ };

    ghost view = { λ p. p.symbols };

    ghost inverse = { λ s. record { symbols = s } };
}

impl BitPattern {
    /// The pattern of this text, or None where a byte of it is not `0`, `1` or `x`.
    pub fn new(pattern: [u8; 8]) -> Option<Self>
        ensures { SomeIff result (IsPattern pattern) pattern }
    {
        for symbol in &pattern {
            if !is_symbol(*symbol) {
                return None;
            }
        }
        Some(BitPattern { symbols: pattern })
    }

    /// Whether each bit of the byte is as the pattern asks.
    pub fn matches(&self, byte: u8) -> bool
        ensures { IsTrue result ↔ FitsPattern self.now byte }
    {
        for (k, symbol) in self.symbols.iter().enumerate() {
            if !fits_bit(*symbol, byte >> (7 - k) & 1) {
                return false;
            }
        }
        true
    }
}

fn is_symbol(symbol: u8) -> bool
    ensures { IsTrue result ↔ IsSymbol symbol }
{
    matches!(symbol, b'0' | b'1' | b'x')
}

fn fits_bit(symbol: u8, bit: u8) -> bool
    ensures { IsTrue result ↔ FitsBit symbol bit }
{
    match symbol {
        b'0' => bit == 0,
        b'1' => bit == 1,
        _ => true,
    }
}

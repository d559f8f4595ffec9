//! Fields in bytes, the high byte first (RFC 3550 section 4).
ghost use Rattle.std.specs.Prelude.{◌≡◌, ◌+◌, ◌^◌, ◌<◌, ◌≤◌, ◌++◌, length, take, drop, None};
ghost use Rattle.std.specs.Int.{w32, to_be_bytes};
ghost use Rattle.rtp_base.specs.Fields.{signed24};
ghost use Rattle.rtp_base.specs.Wire.{half_at, triple_at, triple_bytes, word_at, double_at, Puts, LeavesBehind};

/// The number in the two bytes at a place.
pub fn half(bytes: &[u8], at: usize) -> u16
    requires { at + 2 ≤ length bytes.now }
    ensures { result ≡ half_at bytes.now at }
{
    let (_, rest) = bytes.split_at(at);
    u16::from_be_bytes([rest[0], rest[1]])
}

/// The number in the three bytes at a place, below 2^24.
pub fn triple(bytes: &[u8], at: usize) -> u32
    requires { at + 3 ≤ length bytes.now }
    ensures value { result ≡ triple_at bytes.now at }
    ensures bound { result < 2 ^ 24 }
{
    let (_, rest) = bytes.split_at(at);
    u32::from_be_bytes([0, rest[0], rest[1], rest[2]])
}

/// The number in the four bytes at a place.
pub fn word(bytes: &[u8], at: usize) -> u32
    requires { at + 4 ≤ length bytes.now }
    ensures { result ≡ word_at bytes.now at }
{
    let (_, rest) = bytes.split_at(at);
    u32::from_be_bytes([rest[0], rest[1], rest[2], rest[3]])
}

/// The number in the eight bytes at a place.
pub fn double(bytes: &[u8], at: usize) -> u64
    requires { at + 8 ≤ length bytes.now }
    ensures { result ≡ double_at bytes.now at }
{
    let (_, rest) = bytes.split_at(at);
    u64::from_be_bytes([
        rest[0], rest[1], rest[2], rest[3], rest[4], rest[5], rest[6], rest[7],
    ])
}

/// 24 bits as a signed number (RFC 3550 section 6.4.1).
pub fn signed(bits: u32) -> i32
    requires { bits < 2 ^ 24 }
    ensures { result ≡ signed24 bits }
{
    if bits < 0x80_0000 {
        bits as i32
    } else {
        bits as i32 - 0x100_0000
    }
}

/// The three bytes of a number's low 24 bits.
pub fn triple_bytes(number: u32) -> [u8; 3]
    ensures { result ≡ triple_bytes number }
{
    let [_, high, middle, low] = number.to_be_bytes();
    [high, middle, low]
}

/// Puts a number into the four bytes at a place.
pub fn put_word(bytes: &mut [u8], at: usize, number: u32)
    requires { at + 4 ≤ length bytes.old }
    ensures { bytes.new ≡ take at bytes.old ++ to_be_bytes w32 number ++ drop (at + 4) bytes.old }
{
    let (_, rest) = bytes.split_at_mut(at);
    let (word, _) = rest.split_at_mut(4);
    word.copy_from_slice(&number.to_be_bytes());
}

/// Puts bytes at a place and says where they end, or None where there is no room for them.
pub fn put(out: &mut [u8], at: usize, bytes: &[u8]) -> Option<usize>
    ensures text { Puts out.old at bytes.now out.new result }
    ensures behind { LeavesBehind out.old out.new result }
    ensures unchanged { result ≡ None → out.new ≡ out.old }
{
    if out.len() < at || out.len() - at < bytes.len() {
        return None;
    }
    let end = at + bytes.len();
    out[at..end].copy_from_slice(bytes);
    Some(end)
}

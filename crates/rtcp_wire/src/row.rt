// Rows of fields of a fixed length.
ghost use Rattle.std.specs.Prelude.{◌≡◌, ◌+◌, ◌*◌, ◌<◌, ◌≤◌, List, ℕ, length, IfOk};
ghost use Rattle.std.specs.List.{flat_map};
ghost use Rattle.rtp_base.specs.Wire.{Puts};
ghost use Rattle.rtcp_wire.specs.Wire.{rows_of};

use media_base::Listed;
use rtp_base::{MAX_REPORTS, ReportList, wire};
use std::alloc::{AllocError, Global};
use twcc_core::BODY_LIMIT;

// What is put in bytes.
pub trait Put {
    // The bytes of it.
    ghost text_of: { Self → List ℕ };

    // How many bytes it takes.
    fn len(&self) -> usize
        requires { length (text_of self.now) < BODY_LIMIT }
        ensures { result ≡ length (text_of self.now) };

    fn write(&self, out: &mut [u8], at: usize) -> Option<usize>
        ensures { Puts out.old at (text_of self.now) out.new result };
}

// Fields of a fixed length, of which an item has as many rows as it says.
pub trait Row: Copy {
    // How many bytes a row has.
    ghost size: { ℕ };

    // The row at the front of these bytes.
    ghost row_of: { List ℕ → Self };

    fn size() -> usize
        ensures { result ≡ size };

    fn read(bytes: &[u8]) -> Self
        requires { size ≤ length bytes.now }
        ensures { result ≡ row_of bytes.now };
}

impl Put for u32 {
    ghost use Rattle.std.specs.Int.{w32, to_be_bytes};

    ghost text_of = { to_be_bytes w32 };

    fn len(&self) -> usize {
        4
    }

    fn write(&self, out: &mut [u8], at: usize) -> Option<usize> {
        wire::put(out, at, &self.to_be_bytes())
    }
}

// The first rows of some bytes, at most 31.
pub fn read_rows<T: Row + Default>(bytes: &[u8], count: usize) -> ReportList<T>
    requires few { count ≤ MAX_REPORTS }
    requires long { count * T.size ≤ length bytes.now }
    ensures { result ≡ rows_of T.row_of T.size count bytes.now }
{
    let mut rows = ReportList::new();
    let mut rest = bytes;
    for _ in 0..count {
        rows.push(T::read(rest));
        let (_, after) = rest.split_at(T::size());
        rest = after;
    }
    rows
}

// The first rows of some bytes, in just the memory that they need.
pub fn read_many<T: Row>(alloc: Global, bytes: &[u8], count: usize) -> Result<Listed<T>, AllocError>
    requires { count * T.size ≤ length bytes.now }
    ensures { IfOk result (λ rows. rows ≡ rows_of T.row_of T.size count bytes.now) }
{
    let mut rows = Vec::with_capacity(alloc, count)?;
    let mut rest = bytes;
    for _ in 0..count {
        rows.push_reserved(T::read(rest));
        let (_, after) = rest.split_at(T::size());
        rest = after;
    }
    Ok(Listed::from_vec(rows))
}

// How many bytes values take one after another.
pub fn rows_len<T: Put>(rows: &[T]) -> usize
    requires { length (flat_map T.text_of rows.now) < BODY_LIMIT }
    ensures { result ≡ length (flat_map T.text_of rows.now) }
{
    let mut len = 0;
    for row in rows {
        len += row.len();
    }
    len
}

// Puts values one after another, or says that there is no room for them.
pub fn write_rows<T: Put>(rows: &[T], out: &mut [u8], at: usize) -> Option<usize>
    ensures { Puts out.old at (flat_map T.text_of rows.now) out.new result }
{
    if out.len() < at {
        return None;
    }
    let mut end = at;
    for row in rows {
        match row.write(out, end) {
            Some(next) => end = next,
            None => return None,
        }
    }
    Some(end)
}

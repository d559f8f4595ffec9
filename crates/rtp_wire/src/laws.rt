ghost use Rattle.rtp_wire.specs.HeaderLaws.{ReadsOwnBytes, WrittenIsReadAgain, PlainIsReadAgain, PlainIsAsLong, HasFixedBytes, HasFewBytes};

/// The header at the front of some bytes is read off its own bytes alone.
pub fn header_reads_own_bytes()
    ensures { ReadsOwnBytes }
{}

/// A header whose fields are in their ranges is read again as its wire form: each value that is
/// there and whose extension has an id, as its place on the wire holds it.
pub fn written_header_is_read_again()
    ensures { WrittenIsReadAgain }
{}

/// A header without values, whose fields fit their places, is read again as it was written, under
/// each map.
pub fn plain_header_is_read_again()
    ensures { PlainIsReadAgain }
{}

/// A header without values has twelve bytes and four for each source; each header has at least
/// twelve bytes, and at most 160 where it has at most 15 sources.
pub fn headers_are_as_long()
    ensures plain { PlainIsAsLong }
    ensures fixed { HasFixedBytes }
    ensures few { HasFewBytes }
{}

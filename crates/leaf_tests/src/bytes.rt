use media_base::{
    BitPattern, Bytes, Failed, Listed, MemSink, MemSource, ReadError, ReaderSource, Sink, Source,
    WriterSink, read_all, write_all,
};
use std::alloc::{AllocError, Global};
use std::io::{self, Read, Write};
use std::test::Fail;

// A reader and a writer that fail at each third call.
#[derive(Drop)]
struct Halting<T> {
    inner: T,
    calls: u8,
}

impl<T> Halting<T> {
    fn turn(&mut self) -> io::Result<()> {
        self.calls = self.calls % 3 + 1;
        if self.calls == 3 {
            return Err(io::Error::from(io::ErrorKind::Other));
        }
        Ok(())
    }
}

impl<T: Read> Read for Halting<T> {
    fn read(&mut self, buf: &mut [u8]) -> io::Result<usize> {
        self.turn()?;
        self.inner.read(buf)
    }
}

impl<T: Write> Write for Halting<T> {
    fn write(&mut self, buf: &[u8]) -> io::Result<usize> {
        self.turn()?;
        self.inner.write(buf)
    }

    fn flush(&mut self) -> io::Result<()> {
        self.inner.flush()
    }
}

// Whether a read into so many bytes of a room gives this count, or fails where there is none, and
// leaves the room so.
fn reads<S: Source>(source: &mut S, len: usize, count: Option<usize>, wanted: [u8; 6]) -> bool {
    let mut room = [b'-'; 6];
    let read = source.read(&mut room[..len.min(6)]);
    let same = match (read, count) {
        (Ok(read), Some(count)) => read == count,
        (Err(_), None) => true,
        _ => false,
    };
    same && room == wanted
}

// Whether reading to the end gives these bytes.
fn reads_all<S: Source>(alloc: Global, source: &mut S, limit: u16, wanted: &[u8]) -> bool {
    match read_all(alloc, source, usize::from(limit)) {
        Ok(bytes) => bytes.as_slice() == wanted,
        Err(_) => false,
    }
}

// Why reading to the end fails, if it does.
fn why_not_all<S: Source>(alloc: Global, source: &mut S, limit: u16) -> Option<ReadError> {
    match read_all(alloc, source, usize::from(limit)) {
        Ok(_) => None,
        Err(error) => Some(error),
    }
}

// Whether a write gives this count, or fails where there is none.
fn writes<K: Sink>(sink: &mut K, bytes: &[u8], count: Option<usize>) -> bool {
    match (sink.write(bytes), count) {
        (Ok(written), Some(count)) => written == count,
        (Err(_), None) => true,
        _ => false,
    }
}

// A source of bytes in pieces, whose calls of these numbers fail.
fn source_of(
    alloc: Global,
    bytes: &[u8],
    piece: usize,
    failing: &[u64],
) -> Result<MemSource, AllocError> {
    let bytes = bytes.to_vec(alloc)?;
    let failing = failing.to_vec(alloc)?;
    Ok(MemSource::new(bytes, piece, failing))
}

fn fill(list: &mut Listed<u8>) -> Result<(), AllocError> {
    list.push(7)?;
    list.push(8)
}

#[test]
fn surface_ample(rt: HostRuntime) -> Result<(), Fail> {
    let bytes = Bytes::from_slice(rt.alloc(), b"media")?;
    assert!(rt; bytes.as_slice() == b"media".as_slice());
    let mut source = MemSource::new(bytes.into_vec(), 2, Vec::new(rt.alloc()));
    assert!(rt; reads_all(rt.alloc(), &mut source, 5, b"media") && source.faults() == 0);
    Ok(())
}

#[test]
fn lists_and_sinks_with_ample_memory(rt: HostRuntime) -> Result<(), Fail> {
    let mut list = Listed::new(rt.alloc());
    let filled = fill(&mut list);
    assert!(rt; filled.is_ok() && list.as_slice() == [7, 8].as_slice());
    let mut sink = MemSink::new(rt.alloc(), 5, 2, Vec::new(rt.alloc()))?;
    assert!(rt; write_all(&mut sink, b"media").is_ok());
    assert!(rt; sink.bytes() == b"media".as_slice() && sink.faults() == 0);
    Ok(())
}

fn matches(pattern: [u8; 8], byte: u8) -> Option<bool> {
    match BitPattern::new(pattern) {
        Some(pattern) => Some(pattern.matches(byte)),
        None => None,
    }
}

static PATTERNS: [([u8; 8], u8, Option<bool>); 3] = [
    (*b"1x0x1x01", 0b1101_1001, Some(true)),
    (*b"1x0x1x01", 0b1101_1011, Some(false)),
    (*b"1x0x1x02", 0, None),
];

#[test]
fn patterns_ask_for_bits(rt: HostRuntime) {
    for (pattern, byte, wanted) in &PATTERNS {
        assert!(rt;
            matches(*pattern, *byte) == *wanted,
            "{byte} in {pattern:?}"
        );
    }
}

// Reads of a source of ten bytes in pieces of 4, whose second and fourth calls fail.
static READS: [(usize, Option<usize>, [u8; 6]); 6] = [
    (6, Some(4), *b"0123--"),
    (6, None, *b"------"),
    (3, Some(3), *b"456---"),
    (6, None, *b"------"),
    (6, Some(3), *b"789---"),
    (6, Some(0), *b"------"),
];

#[test]
fn a_source_in_memory_fails_in_mid_stream_and_goes_on(rt: HostRuntime) -> Result<(), Fail> {
    let mut source = source_of(rt.alloc(), b"0123456789", 4, &[1, 3])?;
    for (len, count, room) in READS {
        assert!(rt; reads(&mut source, len, count, room), "{room:?}");
    }
    assert!(rt; source.faults() == 2);
    Ok(())
}

#[test]
fn reading_all_fails_in_mid_stream_and_goes_on(rt: HostRuntime) -> Result<(), Fail> {
    let mut source = source_of(rt.alloc(), b"0123456789", 4, &[2])?;
    let failed = why_not_all(rt.alloc(), &mut source, 100);
    assert!(rt; failed == Some(ReadError::Failed) && source.faults() == 1);
    assert!(rt; reads_all(rt.alloc(), &mut source, 100, b"89"));
    Ok(())
}

// Writes behind the first four bytes, to a sink of nine bytes in pieces of 4.
static WRITES: [(&[u8], Option<usize>); 4] = [
    (b"4567", Some(4)),
    (b"89", None),
    (b"8", Some(1)),
    (b"", Some(0)),
];

#[test]
fn a_sink_in_memory_fails_in_mid_stream_and_when_full(rt: HostRuntime) -> Result<(), Fail> {
    let failing = [1].to_vec(rt.alloc())?;
    let mut sink = MemSink::new(rt.alloc(), 9, 4, failing)?;
    assert!(rt; write_all(&mut sink, b"0123456789").is_err());
    assert!(rt; sink.bytes() == b"0123".as_slice());
    for (bytes, count) in WRITES {
        assert!(rt; writes(&mut sink, bytes, count), "{bytes:?}");
    }
    assert!(rt; sink.bytes() == b"012345678".as_slice() && sink.faults() == 2);
    Ok(())
}

#[test]
fn a_reader_fails_in_mid_stream_and_goes_on(rt: HostRuntime) {
    let inner = b"0123".as_slice();
    let mut source = ReaderSource::new(Halting { inner, calls: 0 });
    assert!(rt; reads(&mut source, 3, Some(3), *b"012---"));
    assert!(rt; reads(&mut source, 0, Some(0), *b"------"));
    assert!(rt; reads(&mut source, 3, None, *b"------") && source.faults() == 1);
    assert!(rt; reads_all(rt.alloc(), &mut source, 100, b"3"));
}

#[test]
fn a_writer_that_fails_or_takes_nothing_is_at_fault(rt: HostRuntime) {
    let mut room = [b'-'; 4];
    let inner = room.as_mut_slice();
    let mut sink = WriterSink::new(Halting { inner, calls: 0 });
    assert!(rt; writes(&mut sink, b"01", Some(2)) && writes(&mut sink, b"", Some(0)));
    assert!(rt; writes(&mut sink, b"23", None) && sink.faults() == 1);
    assert!(rt; writes(&mut sink, b"234", Some(2)));
    assert!(rt; writes(&mut sink, b"4", None) && sink.faults() == 2);
}

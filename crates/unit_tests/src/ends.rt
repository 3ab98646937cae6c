use ports::{
    CalmSink, CalmSource, MemSink, MemSource, More, Put, ReadSource, Sink, Source, WriteSink,
};
use std::alloc::{AllocError, Global};
use std::io;
use std::io::{Read, Write};
use std::test::Fail;

// Gives at most two bytes a call, and fails once where so many bytes are left.
#[derive(Drop)]
struct Halting {
    bytes: &'static [u8],
    cut: Option<usize>,
}

impl Read for Halting {
    fn read(&mut self, buf: &mut [u8]) -> io::Result<usize> {
        if self.cut == Some(self.bytes.len()) {
            self.cut = None;
            return Err(io::ErrorKind::Other.into());
        }
        let count = self.bytes.len().min(buf.len()).min(2);
        buf[..count].copy_from_slice(&self.bytes[..count]);
        self.bytes = &self.bytes[count..];
        Ok(count)
    }
}

// Takes at most `step` bytes a call, fails once where it holds so many bytes, and fails to flush
// where it holds `unflushed` bytes.
#[derive(Drop)]
struct Torn {
    got: Vec<u8>,
    step: usize,
    cut: Option<usize>,
    unflushed: Option<usize>,
    flushes: u8,
}

impl Write for Torn {
    fn write(&mut self, buf: &[u8]) -> io::Result<usize> {
        if self.cut == Some(self.got.len()) {
            self.cut = None;
            return Err(io::ErrorKind::Other.into());
        }
        let count = buf.len().min(self.step);
        self.got.extend_from_slice(&buf[..count])?;
        Ok(count)
    }

    fn flush(&mut self) -> io::Result<()> {
        if self.unflushed == Some(self.got.len()) {
            return Err(io::ErrorKind::Other.into());
        }
        self.flushes = self.flushes.saturating_add(1);
        Ok(())
    }
}

// What five calls with a buffer of this size answer: the bytes and `|`, `.` for the end and `!` for
// a fault.
fn five_calls<S: Source>(
    alloc: Global,
    source: &mut S,
    size: usize,
) -> Result<Vec<u8>, AllocError> {
    let mut buf = vec![in alloc; 0u8; size]?;
    let mut log = Vec::new(alloc);
    for _ in 0..5 {
        match source.more(&mut buf) {
            More::Got(count) => {
                log.extend_from_slice(&buf[..count])?;
                log.push(b'|')?;
            }
            More::End => log.push(b'.')?,
            More::Failed => log.push(b'!')?,
        }
    }
    Ok(log)
}

// What the sink answers to `ab`, `cde`, nothing, and `f`: `.` where it took all, `!` for a fault.
fn four_puts<K: Sink>(alloc: Global, sink: &mut K) -> Result<Vec<u8>, AllocError> {
    let mut log = Vec::new(alloc);
    for piece in [b"ab".as_slice(), b"cde", b"", b"f"] {
        log.push(match sink.put(piece) {
            Put::Ok => b'.',
            Put::Failed => b'!',
        })?;
    }
    Ok(log)
}

/// Where a reader fails, the size of the buffer, and what five calls answer.
static SHORT: [(Option<usize>, usize, &'static [u8]); 4] = [
    (None, 8, b"ab|cd|e|||"),
    (Some(3), 8, b"ab|!cd|e||"),
    (Some(5), 1, b"!a|b|c|d|"),
    (None, 0, b"|||||"),
];

#[test]
fn reads_short_and_goes_on_after_a_fault(rt: HostRuntime) -> Result<(), Fail> {
    for row in SHORT.iter() {
        let (cut, size, want) = *row;
        let mut source = ReadSource::new(Halting {
            bytes: b"abcde",
            cut,
        });
        let log = five_calls(rt.alloc(), &mut source, size)?;
        assert_eq!(rt; log.as_slice(), want);
    }
    Ok(())
}

/// A writer that takes so many bytes a call, and fails there.
fn torn_writer(alloc: Global, step: usize, cut: Option<usize>, unflushed: Option<usize>) -> Torn {
    Torn {
        got: Vec::new(alloc),
        step,
        cut,
        unflushed,
        flushes: 0,
    }
}

/// How a writer is torn, what four calls answer, what it got, and how often it was flushed.
static TEARS: [(
    usize,
    Option<usize>,
    Option<usize>,
    &'static [u8],
    &'static [u8],
    u8,
); 5] = [
    (2, None, None, b"....", b"abcdef", 4),
    (2, Some(4), None, b".!..", b"abcdf", 3),
    (9, Some(0), None, b"!...", b"cdef", 3),
    (1, None, Some(5), b".!!.", b"abcdef", 2),
    (0, None, None, b"!!.!", b"", 1),
];

#[test]
fn writes_on_until_a_fault(rt: HostRuntime) -> Result<(), Fail> {
    for row in TEARS.iter() {
        let (step, cut, unflushed, want, got, flushes) = *row;
        let mut writer = torn_writer(rt.alloc(), step, cut, unflushed);
        let log = four_puts(rt.alloc(), &mut WriteSink::new(&mut writer))?;
        assert_eq!(rt; log.as_slice(), want);
        assert_eq!(rt; writer.got.as_slice(), got);
        assert_eq!(rt; writer.flushes, flushes);
    }
    Ok(())
}

fn mem_source(alloc: Global, piece: usize, fails: &[u64]) -> Result<MemSource, AllocError> {
    let bytes = b"abcde".to_vec(alloc)?;
    Ok(MemSource::new(bytes, piece, fails.to_vec(alloc)?))
}

/// The size of a piece and of the buffer, the calls that fail, what five calls answer, and what is left.
static PIECES: [(usize, usize, &'static [u64], &'static [u8], &'static [u8]); 5] = [
    (2, 8, &[0, 0], b"ab|cd|e|..", b""),
    (0, 8, &[0, 0], b"a|b|c|d|e|", b""),
    (17, 3, &[2, 9], b"abc|!de|..", b""),
    (1, 8, &[1, 5], b"!a|b|c|!", b"de"),
    (9, 0, &[3, 3], b"||!||", b"abcde"),
];

#[test]
fn a_source_in_memory_gives_pieces(rt: HostRuntime) -> Result<(), Fail> {
    for row in PIECES.iter() {
        let (piece, size, fails, want, left) = *row;
        let mut source = mem_source(rt.alloc(), piece, fails)?;
        let log = five_calls(rt.alloc(), &mut source, size)?;
        assert_eq!(rt; log.as_slice(), want);
        assert_eq!(rt; source.left(), left);
    }
    Ok(())
}

fn mem_sink(alloc: Global, room: usize, fails: &[u64]) -> Result<MemSink, AllocError> {
    MemSink::new(alloc, room, fails.to_vec(alloc)?)
}

/// The room, the calls that fail, what four calls answer, and what is written.
static ROOMS: [(usize, &'static [u64], &'static [u8], &'static [u8]); 4] = [
    (6, &[0, 0], b"....", b"abcdef"),
    (4, &[0, 0], b".!.!", b"abcd"),
    (9, &[1, 3], b"!.!.", b"cdef"),
    (0, &[9, 9], b"!!.!", b""),
];

#[test]
fn a_sink_in_memory_takes_what_fits(rt: HostRuntime) -> Result<(), Fail> {
    for row in ROOMS.iter() {
        let (room, fails, want, written) = *row;
        let mut sink = mem_sink(rt.alloc(), room, fails)?;
        let log = four_puts(rt.alloc(), &mut sink)?;
        assert_eq!(rt; log.as_slice(), want);
        assert_eq!(rt; sink.written(), written);
    }
    Ok(())
}

fn calm_source(alloc: Global, piece: usize) -> Result<CalmSource, AllocError> {
    Ok(CalmSource::new(b"abcde".to_vec(alloc)?, piece))
}

/// The size of a piece and of the buffer, what five calls answer, and what is left.
static CALM: [(usize, usize, &'static [u8], &'static [u8]); 4] = [
    (2, 8, b"ab|cd|e|..", b""),
    (0, 8, b"a|b|c|d|e|", b""),
    (17, 3, b"abc|de|...", b""),
    (9, 0, b"|||||", b"abcde"),
];

#[test]
fn a_calm_source_gives_all(rt: HostRuntime) -> Result<(), Fail> {
    for row in CALM.iter() {
        let (piece, size, want, left) = *row;
        let mut source = calm_source(rt.alloc(), piece)?;
        let log = five_calls(rt.alloc(), &mut source, size)?;
        assert_eq!(rt; log.as_slice(), want);
        assert_eq!(rt; source.left(), left);
    }
    Ok(())
}

#[test]
fn a_calm_sink_takes_all(rt: HostRuntime) -> Result<(), Fail> {
    let log = four_puts(rt.alloc(), &mut CalmSink)?;
    assert_eq!(rt; log.as_slice(), b"....".as_slice());
    Ok(())
}

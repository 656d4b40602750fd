//! Texts read and written whole, calls that fail, limits, and the adapters over std.
use crate::fixtures::{check_row, sink};
use lock_io::{
    CopiedSink, Failed, MemSource, ReadAllError, Sink, Source, StdSink, StdSource, read_all,
    write_all,
};
use std::alloc::{AllocError, Global};
use std::io;
use std::io::{ErrorKind, Read, Write};
use std::test::Fail;

// The limit, the call that fails, and the answer, where ten bytes come in pieces of four.
const READINGS: &[(&str, usize, u32, Option<ReadAllError>)] = &[
    ("a byte too many", 9, 9, Some(ReadAllError::TooBig)),
    ("as many bytes as may be", 10, 9, None),
    (
        "the second call fails",
        9,
        1,
        Some(ReadAllError::Fault(Failed)),
    ),
    (
        "the call at the end fails",
        10,
        3,
        Some(ReadAllError::Fault(Failed)),
    ),
];

// The room, the call that fails, the answer, and the bytes that are held then, where ten go in pieces of four.
type Writing = (&'static str, usize, u32, Result<(), Failed>, &'static [u8]);

const WRITINGS: &[Writing] = &[
    ("as much room as it needs", 10, 9, Ok(()), b"0 t lock m"),
    ("the last write fails", 20, 2, Err(Failed), b"0 t lock"),
    ("the first write fails", 20, 0, Err(Failed), b""),
    ("too little room", 6, 9, Err(Failed), b"0 t lo"),
    ("the flush fails", 20, 3, Err(Failed), b"0 t lock m"),
];

#[test]
fn ends_in_memory(rt: HostRuntime) -> Result<(), Fail> {
    for &(row, limit, fails_at, error) in READINGS {
        check_row(row, is_read(rt.alloc(), limit, fails_at, error)?)?;
    }
    for row in WRITINGS {
        check_row(row.0, is_written(rt.alloc(), row)?)?;
        check_row(row.0, is_copied(rt.alloc(), row)?)?;
    }
    Ok(())
}

fn is_read(
    alloc: Global,
    limit: usize,
    fails_at: u32,
    error: Option<ReadAllError>,
) -> Result<bool, Fail> {
    let bytes = Vec::from_slice(alloc, b"0123456789")?;
    let mut source = MemSource::new(bytes, 4, vec![in alloc; fails_at]?);
    Ok(read_all(alloc, &mut source, limit).err() == error)
}

fn is_written(alloc: Global, row: &Writing) -> Result<bool, AllocError> {
    let (_, room, fails_at, answer, held) = *row;
    let mut sink = sink(alloc, room, 4, fails_at)?;
    let written = write_all(&mut sink, b"0 t lock m");
    Ok(written == answer && sink.bytes() == held)
}

fn is_copied(alloc: Global, row: &Writing) -> Result<bool, AllocError> {
    let (_, room, fails_at, answer, held) = *row;
    let mut copied = CopiedSink::new(alloc, sink(alloc, room, 4, fails_at)?);
    let written = write_all(&mut copied, b"0 t lock m");
    Ok(written == answer && copied.copy() == held)
}

// A reader and writer of std that is interrupted at its first call, moves a byte at its second, breaks at its third,
// and moves none then.
#[derive(Drop)]
struct Scripted {
    calls: u8,
}

impl Scripted {
    fn turn(&mut self) -> io::Result<usize> {
        self.calls = self.calls.saturating_add(1);
        match self.calls {
            1 => Err(io::Error::from(ErrorKind::Interrupted)),
            2 => Ok(1),
            3 => Err(io::Error::from(ErrorKind::BrokenPipe)),
            _ => Ok(0),
        }
    }
}

impl Read for Scripted {
    fn read(&mut self, buf: &mut [u8]) -> io::Result<usize> {
        Ok(self.turn()?.min(buf.len()))
    }
}

impl Write for Scripted {
    fn write(&mut self, buf: &[u8]) -> io::Result<usize> {
        Ok(self.turn()?.min(buf.len()))
    }

    fn flush(&mut self) -> io::Result<()> {
        self.turn()?;
        Ok(())
    }
}

// What a read answers, and what a write. A call that is interrupted is made again.
const CALLS: &[(Result<usize, Failed>, Result<usize, Failed>)] = &[
    (Ok(1), Ok(1)),
    (Err(Failed), Err(Failed)),
    (Ok(0), Err(Failed)),
];

#[test]
fn calls_of_std(rt: HostRuntime) {
    let mut reader = StdSource::new(Scripted { calls: 0 });
    let mut writer = StdSink::new(Scripted { calls: 0 });
    let mut into = [0; 4];
    for (read, written) in CALLS {
        assert!(rt; reader.read(&mut into) == *read);
        assert!(rt; writer.write(b"ab") == *written);
    }
    assert!(rt; writer.flush() == Ok(()));
    let mut broken = StdSink::new(Scripted { calls: 2 });
    assert!(rt; broken.flush() == Err(Failed));
}

#[test]
fn streams_of_std(rt: HostRuntime) {
    let mut source = StdSource::new(b"lockrun 1\n".as_slice());
    let read = read_all(rt.alloc(), &mut source, 10);
    assert!(rt; read.map(|text| text.len()) == Ok(10));
    let mut sink = StdSink::new(Vec::new(rt.alloc()));
    assert!(rt; write_all(&mut sink, b"ok\n") == Ok(()));
}

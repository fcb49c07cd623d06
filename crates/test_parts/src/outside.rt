//! Readers and writers of std as sources and sinks, with failures at their places.

use sdh_outside::{Failed, Sink, Source, StdSink, StdSource, WriteFault, read_all, write_text};
use std::io;
use std::io::{ErrorKind, Read, Write};
use std::test::Fail;

// The text that is read and written.
const TEXT: &[u8] = b"port c1 a ais\n";

// A reader that gives `OK`, and fails at its second call.
#[derive(Drop)]
struct Reader {
    calls: u8,
}

impl Read for Reader {
    fn read(&mut self, buf: &mut [u8]) -> io::Result<usize> {
        self.calls = self.calls.saturating_add(1);
        if self.calls == 2 {
            return Err(io::Error::from(ErrorKind::BrokenPipe));
        }
        match buf {
            [first, second, ..] => {
                *first = b'O';
                *second = b'K';
                Ok(2)
            }
            _ => Ok(0),
        }
    }
}

// A writer that takes a byte at each call, none at its second, and fails at its third.
#[derive(Drop)]
struct Writer {
    calls: u8,
}

impl Write for Writer {
    fn write(&mut self, buf: &[u8]) -> io::Result<usize> {
        self.calls = self.calls.saturating_add(1);
        match self.calls {
            2 => Ok(0),
            3 => Err(io::Error::from(ErrorKind::BrokenPipe)),
            _ => Ok(buf.len().min(1)),
        }
    }

    fn flush(&mut self) -> io::Result<()> {
        Ok(())
    }
}

// Returns what three reads of a reader that fails at the second one give, and the first bytes.
fn three_reads(buf: &mut [u8]) -> [Result<usize, Failed>; 3] {
    let mut source = StdSource::new(Reader { calls: 0 });
    [source.read(buf), source.read(buf), source.read(buf)]
}

// Returns what four writes of a writer that takes none at the second and fails at the third give.
fn four_writes() -> ([Result<usize, Failed>; 4], Result<(), WriteFault>) {
    let mut sink = StdSink::new(Writer { calls: 0 });
    let each = [
        sink.write(TEXT),
        sink.write(TEXT),
        sink.write(TEXT),
        sink.write(b""),
    ];
    (each, write_text(&mut sink, TEXT))
}

#[test]
fn adapts_readers_and_writers(rt: HostRuntime) -> Result<(), Fail> {
    let mut source = StdSource::new(TEXT);
    let bytes = read_all(rt.alloc(), &mut source).map_err(|_| "not read")?;
    assert!(rt; bytes.as_slice() == TEXT);
    let mut buf = [0; 4];
    assert!(rt; three_reads(&mut buf) == [Ok(2), Err(Failed), Ok(2)] && buf == *b"OK\0\0");
    assert!(rt; four_writes() == ([Ok(1), Err(Failed), Err(Failed), Ok(0)], Ok(())));
    Ok(())
}

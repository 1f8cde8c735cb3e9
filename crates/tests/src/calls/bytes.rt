//! Tests that whole inputs are read and whole outputs are written, with each kind of source and
//! sink.

use byte_streams::{
    InputError, IoFault, MemorySink, MemorySource, Sink, Source, StdSink, StdSource, read_up_to,
    write_all,
};
use std::io;
use std::io::{ErrorKind, Read, Write};
use std::test::Fail;

/// Cases: a limit, the bytes of `one two three` that are read with this limit, and the bytes that
/// are left unread.
const LIMITED: &[(usize, &[u8], &[u8])] = &[
    (100, b"one two three", b""),
    (7, b"one two", b" three"),
];

/// Tests that `read_up_to` reads all bytes up to the limit in pieces, and no byte after the limit.
/// If a source fails before its end, `read_up_to` returns the fault of the source.
#[test]
fn inputs_of_memory(rt: HostRuntime) -> Result<(), Fail> {
    for (limit, read, left) in LIMITED.iter().copied() {
        let mut source = MemorySource::new(b"one two three").at_most(4);
        let bytes = read_up_to(rt.alloc(), &mut source, limit)?;
        assert_eq!(rt; bytes.as_slice(), read);
        assert_eq!(rt; source.remaining(), left);
    }
    let input = vec![in rt.alloc(); 7u8; 100_000]?;
    let mut source = MemorySource::new(input.as_slice()).at_most(3_000);
    let bytes = read_up_to(rt.alloc(), &mut source, 2_097_156)?;
    assert_eq!(rt; bytes.as_slice(), input.as_slice());
    let mut source = MemorySource::new(b"one two").at_most(2).failing_after(2);
    let outcome = read_up_to(rt.alloc(), &mut source, 100);
    assert!(rt; matches!(&outcome, Err(InputError::Fault)));
    assert_eq!(rt; source.failures(), 1);
    assert_eq!(rt; source.remaining(), b"two".as_slice());
    Ok(())
}

/// Tests that `write_all` writes all bytes in pieces, and stops at the first call that fails. A
/// sink that accepts no byte counts as a failure.
#[test]
fn outputs_of_memory(rt: HostRuntime) -> Result<(), Fail> {
    let mut sink = MemorySink::new(rt.alloc()).at_most(3);
    write_all(&mut sink, b"one two three")?;
    assert_eq!(rt; sink.written(), b"one two three".as_slice());
    assert_eq!(rt; sink.failures(), 0);
    let mut sink = MemorySink::new(rt.alloc()).at_most(3).failing_after(2);
    assert_eq!(rt; write_all(&mut sink, b"one two three"), Err(IoFault));
    assert_eq!(rt; sink.written(), b"one tw".as_slice());
    assert_eq!(rt; sink.failures(), 1);
    let mut sink = MemorySink::new(rt.alloc()).at_most(0);
    assert_eq!(rt; sink.write(b""), Ok(0));
    assert_eq!(rt; sink.write(b"one"), Err(IoFault));
    assert_eq!(rt; sink.failures(), 1);
    Ok(())
}

/// A reader that is interrupted before each byte. It fails after it has returned `left` bytes.
struct InterruptedSource {
    is_next: bool,
    left: u8,
}

impl Read for InterruptedSource {
    fn read(&mut self, buf: &mut [u8]) -> io::Result<usize> {
        self.is_next = !self.is_next;
        if self.is_next {
            return Err(ErrorKind::Interrupted.into());
        }
        if self.left == 0 {
            return Err(ErrorKind::BrokenPipe.into());
        }
        if buf.is_empty() {
            return Ok(0);
        }
        self.left -= 1;
        buf[0] = self.left;
        Ok(1)
    }
}

/// Tests that `StdSource` reads a reader of `std` to its end, and retries interrupted calls.
#[test]
fn std_readers(rt: HostRuntime) -> Result<(), Fail> {
    let mut source = StdSource::new(b"one two three".as_slice());
    let bytes = read_up_to(rt.alloc(), &mut source, 100)?;
    assert_eq!(rt; bytes.as_slice(), b"one two three".as_slice());
    let mut source = StdSource::new(InterruptedSource {
        is_next: false,
        left: 2,
    });
    let mut piece = [9, 9];
    assert_eq!(rt; source.read(&mut piece), Ok(1));
    assert_eq!(rt; piece, [1, 9]);
    assert_eq!(rt; source.read(&mut piece), Ok(1));
    assert_eq!(rt; source.read(&mut piece), Err(IoFault));
    let InterruptedSource { is_next: _, left } = source.into_inner();
    assert_eq!(rt; left, 0);
    Ok(())
}

/// A writer of `std` that accepts no byte.
struct FullSink;

impl Write for FullSink {
    fn write(&mut self, _buf: &[u8]) -> io::Result<usize> {
        Ok(0)
    }

    fn flush(&mut self) -> io::Result<()> {
        Ok(())
    }
}

/// Tests that `StdSink` writes all bytes to a writer of `std`, and fails if the writer accepts no
/// byte.
#[test]
fn std_writers(rt: HostRuntime) -> Result<(), Fail> {
    let mut sink = StdSink::new(Vec::new(rt.alloc()));
    write_all(&mut sink, b"one two three")?;
    assert_eq!(rt; sink.into_inner().as_slice(), b"one two three".as_slice());
    let mut sink = StdSink::new(FullSink);
    assert_eq!(rt; sink.write(b""), Ok(0));
    assert_eq!(rt; write_all(&mut sink, b"one"), Err(IoFault));
    let FullSink = sink.into_inner();
    Ok(())
}

#[test]
fn errors_say_what_failed(rt: HostRuntime) -> Result<(), Fail> {
    let text = format!(in rt.alloc(); "{IoFault}/{}/{}", InputError::Memory, InputError::Fault)?;
    assert_eq!(rt;
        text.as_str(),
        "input or output failed/out of memory/the input could not be read"
    );
    Ok(())
}

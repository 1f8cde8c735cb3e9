//! A test of a source that fails at the limit of an input's length.

ghost use Rattle.std.specs.Prelude.{None, if◌then◌else◌};

use sizing_cli::{IoFault, MemorySink, ReviewCommand, ServeFault, Source, Status, serve_alone};
use std::test::Fail;

/// A source of `left` bytes that returns one byte in each call. The call after the last byte fails,
/// and any later call returns no byte.
#[derive(Drop)]
struct Failing {
    left: usize,
    has_failed: bool,
}

impl Source for Failing {
    ghost remaining = { λ _. None };

    ghost failures = { λ source. if source.has_failed then 1 else 0 };

    fn read(&mut self, piece: &mut [u8]) -> Result<usize, IoFault> {
        if piece.is_empty() || self.has_failed {
            return Ok(0);
        }
        if self.left == 0 {
            self.has_failed = true;
            return Err(IoFault);
        }
        piece[0] = b'\n';
        self.left -= 1;
        Ok(1)
    }
}

/// Tests a source that fails after a number of bytes. If it fails after 2,097,155 bytes, the
/// program reports the failure. If it would fail after 2,097,156 bytes, the program reports that
/// the input is too long, and does not make the call that would fail.
#[test]
fn a_source_that_fails_at_the_limit(rt: HostRuntime) -> Result<(), Fail> {
    for (left, ended, written) in [
        (2_097_155, Err(ServeFault { number: 60 }), ""),
        (2_097_156, Ok(Status::BadText), "fault 52 InputTooLong\n"),
    ] {
        let mut source = Failing {
            left,
            has_failed: false,
        };
        let mut sink = MemorySink::new(rt.alloc());
        let outcome = serve_alone(rt.alloc(), ReviewCommand::Replay, &mut source, &mut sink);
        assert!(rt; outcome == ended, "after {left} bytes");
        assert!(rt; sink.written() == written.as_bytes(), "after {left} bytes");
    }
    Ok(())
}

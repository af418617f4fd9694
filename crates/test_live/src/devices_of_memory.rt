//! `Trickle` and `Narrow`: a byte source and a byte sink in memory, by which whole runs of the
//! program are tested, and which fail on demand.

ghost use Rattle.std.specs.Prelude.{◌≡◌, [], false, true, Some, ◌==◌};

use snap_program::{ByteSink, ByteSource, Failed};
use std::alloc::Global;

/// A source that gives one byte a call, and fails after a number of calls.
#[derive(Drop)]
pub struct Trickle<'a> {
    rest: &'a [u8],
    calls: u64,
    failed: bool,
}

impl<'a> Trickle<'a> {
    pub fn new(bytes: &'a [u8], calls: u64) -> Trickle<'a>
        ensures { result.failed ≡ false }
    {
        Trickle {
            rest: bytes,
            calls,
            failed: false,
        }
    }
}

impl ByteSource for Trickle<'_> {
    ghost state = { λ s. record { left = Some s.rest.now; failed = s.failed } };

    fn read(&mut self, buffer: &mut [u8]) -> Result<usize, Failed> {
        if self.calls == 0 {
            self.failed = true;
            return Err(Failed);
        }
        self.calls -= 1;
        if self.rest.is_empty() || buffer.is_empty() {
            return Ok(0);
        }
        let (first, others) = self.rest.split_at(1);
        buffer[0] = first[0];
        self.rest = others;
        Ok(1)
    }
}

/// A sink that takes a number of bytes a call, and fails after a number of calls.
#[derive(Drop)]
pub struct Narrow {
    pub taken: Vec<u8>,
    step: usize,
    calls: u64,
    failed: bool,
    stalled: bool,
}

impl Narrow {
    pub fn new(alloc: Global, step: usize, calls: u64) -> Narrow
        ensures well { result.failed ≡ false }
        ensures goes_on { result.stalled ≡ false }
    {
        Narrow {
            taken: Vec::new(alloc),
            step,
            calls,
            failed: false,
            stalled: false,
        }
    }
}

impl ByteSink for Narrow {
    ghost state = { λ s. record {
      taken = Some s.taken.items;
      failed = s.failed;
      stalled = s.stalled;
    } };

    fn write(&mut self, bytes: &[u8]) -> Result<usize, Failed> {
        let count = self.step.min(bytes.len());
        if self.calls == 0 || self.taken.extend_from_slice(&bytes[..count]).is_err() {
            self.failed = true;
            return Err(Failed);
        }
        self.calls -= 1;
        self.stalled = count == 0;
        Ok(count)
    }
}

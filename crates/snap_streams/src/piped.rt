//! `Piped`: a writer of the standard library as a `ByteSink` that keeps why it failed.
ghost use Rattle.std.specs.Prelude.{◌≡◌, None, Ok, false, true, is_err, is_some, IfErr, IfOk, ◌==◌};
ghost use Rattle.snap_streams.specs.Ended.{failure_of, is_gone};

use crate::Failed;
use crate::byte_sink::ByteSink;
use std::io;
use std::io::{ErrorKind, Write};

/// A writer of the standard library, as a sink that tells what `device` tells, and keeps the kind
/// of the error with which `device` failed.
#[derive(Drop)]
pub struct Piped<D> {
    device: D,
    failure: Option<ErrorKind>,
    stalled: bool,
}

impl<D> Piped<D> {
    /// Returns a sink of what `device` takes.
    pub fn new(device: D) -> Piped<D>
        ensures device { result.device ≡ device }
        ensures well { result.failure ≡ None }
        ensures goes_on { result.stalled ≡ false }
    {
        Piped {
            device,
            failure: None,
            stalled: false,
        }
    }

    /// Returns whether the reader of this output has gone away.
    pub fn has_lost_reader(&self) -> bool
        ensures { result ≡ is_gone self.now.failure }
    {
        match self.failure {
            Some(kind) => kind == ErrorKind::BrokenPipe,
            None => false,
        }
    }

    /// Keeps what came of a write, and returns how many bytes were written.
    fn note(&mut self, written: io::Result<usize>) -> Result<usize, Failed>
        ensures count { IfOk result (λ count. written ≡ Ok count) }
        ensures fails { IfErr result (λ _. is_err written ≡ true) }
        ensures failure { self.new.failure ≡ failure_of written }
        ensures stalls { IfOk result (λ count. self.new.stalled ≡ (count == 0)) }
        ensures device { self.new.device ≡ self.old.device }
    {
        match written {
            Ok(count) => {
                self.failure = None;
                self.stalled = count == 0;
                Ok(count)
            }
            Err(error) => {
                self.failure = Some(error.kind());
                Err(Failed)
            }
        }
    }
}

impl<W: Write> ByteSink for Piped<W> {
    ghost state = { λ s. record {
      taken = W.contents s.device;
      failed = is_some s.failure;
      stalled = s.stalled;
    } };

    fn write(&mut self, bytes: &[u8]) -> Result<usize, Failed> {
        let written = self.device.write(bytes);
        self.note(written)
    }
}

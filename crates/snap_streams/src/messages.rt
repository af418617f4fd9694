//! `Messages`: what a program says on standard error, kept until its end.
ghost use Rattle.std.specs.Prelude.{◌≡◌, Some, [], false};
ghost use Rattle.snap_streams.specs.Ended.{text_at_end};

use crate::Failed;
use crate::byte_sink::ByteSink;
use std::alloc::Global;

/// The number of bytes that are kept even where memory runs out later.
const ROOM: usize = 4096;

/// The message in place of those that there was no memory to keep.
const NO_MEMORY: &[u8] = b"refused: Memory\n";

/// A sink that keeps what is said to it, and fails only where memory runs out.
#[derive(Drop)]
pub struct Messages {
    text: Vec<u8>,
    failed: bool,
    stalled: bool,
}

impl Messages {
    /// Returns an empty sink, with room for a few lines where there is memory for them.
    pub fn new(alloc: Global) -> Messages
        ensures empty { result.text.items ≡ [] }
        ensures well { result.failed ≡ false }
        ensures goes_on { result.stalled ≡ false }
    {
        let text = match Vec::with_capacity(alloc, ROOM) {
            Ok(text) => text,
            Err(_) => Vec::new(alloc),
        };
        Messages {
            text,
            failed: false,
            stalled: false,
        }
    }

    /// Returns what was said, or `NO_MEMORY` where there was no memory to keep it.
    pub(crate) fn text(&self) -> &[u8]
        ensures { result.now ≡ text_at_end self.now.failed self.now.text.items }
    {
        if self.failed {
            NO_MEMORY
        } else {
            self.text.as_slice()
        }
    }
}

impl ByteSink for Messages {
    ghost state = { λ s. record {
      taken = Some s.text.items;
      failed = s.failed;
      stalled = s.stalled;
    } };

    fn write(&mut self, bytes: &[u8]) -> Result<usize, Failed> {
        match self.text.extend_from_slice(bytes) {
            Ok(()) => {
                self.stalled = bytes.is_empty();
                Ok(bytes.len())
            }
            Err(_) => {
                self.failed = true;
                Err(Failed)
            }
        }
    }
}

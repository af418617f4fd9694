//! `Terminal`: a console for dialogs, made of a byte source and a byte sink.
ghost use Rattle.std.specs.Prelude.{◌≡◌};
ghost use Rattle.snap_streams.specs.Failures.{failure_in};

use crate::byte_sink::ByteSink;
use crate::byte_source::ByteSource;
use crate::console::Console;
use crate::dialog_fault::DialogFault;
use crate::sending::write_all;
use crate::typed_line::read_line;
use std::alloc::Global;

/// A console of two devices, as those of the process: a source of what is typed and a sink of what
/// is shown.
#[derive(Drop)]
pub struct Terminal<R, W> {
    reader: R,
    writer: W,
}

impl<R, W> Terminal<R, W> {
    /// Returns a console that reads from `reader` and shows on `writer`.
    pub fn new(reader: R, writer: W) -> Terminal<R, W>
        ensures reader { result.reader ≡ reader }
        ensures writer { result.writer ≡ writer }
    {
        Terminal { reader, writer }
    }

    /// Returns the sink of what is shown.
    pub fn writer(&self) -> &W
        ensures { result.now ≡ self.now.writer }
    {
        &self.writer
    }
}

impl<R: ByteSource, W: ByteSink> Console for Terminal<R, W> {
    ghost left = { λ t. (R.state t.reader).left };

    ghost shown = { λ t. (W.state t.writer).taken };

    ghost failure = { λ t. failure_in (R.state t.reader).failed
        (W.state t.writer).failed (W.state t.writer).stalled };

    fn say(&mut self, text: &[u8]) -> Result<(), DialogFault> {
        Ok(write_all(&mut self.writer, text)?)
    }

    fn line(&mut self, alloc: Global) -> Result<Vec<u8>, DialogFault> {
        read_line(alloc, &mut self.reader)
    }
}

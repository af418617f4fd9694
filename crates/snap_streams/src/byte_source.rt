//! `ByteSource`: from which a whole run of the program reads its input, such as standard input.
ghost use Rattle.std.specs.Prelude.{◌≡◌, ◌≤◌, false, length, is_err, IfOk};
ghost use Rattle.std.specs.Io.KnownBytes.{ReadConsumes};
ghost use Rattle.snap_streams.specs.State.{SourceState};

use crate::Failed;

/// A source of bytes.
pub trait ByteSource {
    /// What is seen of a source: the bytes that are left, and whether it has failed. Only an error
    /// makes a source fail, for good.
    ghost state: { Self → SourceState };

    /// Reads some of the bytes that are left into the front of `buffer`, and returns how many: 0
    /// only at their end, or where `buffer` is empty.
    ///
    /// # Errors
    ///
    /// `Failed` where the device fails.
    fn read(&mut self, buffer: &mut [u8]) -> Result<usize, Failed>
        requires { (state self.old).failed ≡ false }
        ensures bound { IfOk result (λ count. count ≤ length buffer.old) }
        ensures bytes { ReadConsumes (state self.old).left (state self.new).left result
            buffer.new }
        ensures fails { (state self.new).failed ≡ is_err result };
}

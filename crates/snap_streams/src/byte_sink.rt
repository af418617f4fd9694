//! `ByteSink`: to which a whole run of the program writes its output or its messages, such as
//! standard output.
ghost use Rattle.std.specs.Prelude.{◌≡◌, ◌≤◌, false, length, is_err, IfOk, ◌==◌};
ghost use Rattle.std.specs.Io.KnownBytes.{WriteAppends};
ghost use Rattle.snap_streams.specs.State.{SinkState};

use crate::Failed;

/// A sink of bytes.
pub trait ByteSink {
    /// What is seen of a sink: the bytes that it has taken, whether it has failed, and whether the
    /// last write took nothing. Only an error makes a sink fail, for good.
    ghost state: { Self → SinkState };

    /// Writes some of `bytes`, from the first on, and returns how many.
    ///
    /// # Errors
    ///
    /// `Failed` where the device fails.
    fn write(&mut self, bytes: &[u8]) -> Result<usize, Failed>
        requires { (state self.old).failed ≡ false }
        ensures bound { IfOk result (λ count. count ≤ length bytes.now) }
        ensures bytes { WriteAppends (state self.old).taken (state self.new).taken result
            bytes.now }
        ensures fails { (state self.new).failed ≡ is_err result }
        ensures stalls { IfOk result (λ count. (state self.new).stalled ≡ (count == 0)) };
}

//! Consoles: where lines are typed, and texts are shown.
ghost use Rattle.std.specs.Prelude.{◌≡◌, ℕ, List, Option, None, IfErr, IfOk, IfSome, OnOk};
ghost use Rattle.std.specs.Io.BufRead.{take_through, DropsThrough};
ghost use Rattle.snap_streams.specs.Event.{Event, Says, Shows, Types};
ghost use Rattle.snap_streams.specs.Failures.{MayEndLine, failure_of};
ghost use Rattle.snap_streams.specs.TypedLines.{kept};
ghost use Rattle.snap_streams.specs.declared.dialog_fault.DialogFault.{DialogFault};
ghost use Rattle.snap_streams.specs.declared.dialog_fault.DialogFault.TheVariants.{Write};

use crate::dialog_fault::DialogFault;
use std::alloc::Global;

/// A place where lines are typed and texts are shown.
pub trait Console {
    /// What has passed so far, in order, if it is known.
    ghost passed: { Self → Option (List Event) } = { λ _. None };

    /// The bytes that are still to be typed, if they are known.
    ghost left: { Self → Option (List ℕ) } = { λ _. None };

    /// The bytes that were shown, if they are known.
    ghost shown: { Self → Option (List ℕ) } = { λ _. None };

    /// The device of the console that has failed, if one has.
    ghost failure: { Self → Option DialogFault };

    /// Shows `text` at once.
    ///
    /// # Errors
    ///
    /// The fault of the device that failed; a beginning of `text` was shown then.
    fn say(&mut self, text: &[u8]) -> Result<(), DialogFault>
        requires { failure self.old ≡ None }
        ensures event { Says result (passed self.old) (passed self.new) text.now }
        ensures shows { Shows result (shown self.old) (shown self.new) text.now }
        ensures left { left self.new ≡ left self.old }
        ensures failure { failure self.new ≡ failure_of result }
        ensures fails { IfErr result (λ fault. fault ≡ Write) };

    /// Waits for a line, and returns it with its line feed; an empty line is returned only at the
    /// end of the input. Of a line that is too long, one byte more is returned than a line may
    /// have.
    ///
    /// # Errors
    ///
    /// The fault of the device that failed; `Memory` where memory runs out; `Endless` where the
    /// line has more bytes than can be counted.
    fn line(&mut self, alloc: Global) -> Result<Vec<u8>, DialogFault>
        requires { failure self.old ≡ None }
        ensures event { Types result (passed self.old) (passed self.new) }
        ensures line { IfOk result (λ line.
            IfSome (left self.old) (λ xs. line.items ≡ kept (take_through 10 xs))) }
        ensures left { OnOk result (DropsThrough (left self.old) (left self.new) 10) }
        ensures shows { shown self.new ≡ shown self.old }
        ensures failure { failure self.new ≡ failure_of result }
        ensures fails { IfErr result (λ fault. MayEndLine fault (left self.old)) };
}

//! `Checkpoint`: a machine of the debugger, and its position in the run (how many items are done).
ghost use Rattle.std.specs.Prelude.{◌≡◌, IfOk};

use snap_machine::Machine;
use snap_words::Kind;
use std::alloc::AllocError;

/// A machine, and how many items of a run are done: kept for later, or on its way from there.
pub struct Checkpoint<K: Kind> {
    pub machine: Machine<K>,
    pub position: u64,
}

impl<K: Kind> Drop for Checkpoint<K> {
    // A drop that is written out is one call: it is proved once, and not again at each drop.
    fn drop(self) {
        let Checkpoint {
            machine: _,
            position: _,
        } = self;
    }
}

impl<K: Kind> Checkpoint<K> {
    /// Returns a copy of the machine at the same position.
    ///
    /// # Errors
    ///
    /// `AllocError` where memory runs out.
    pub fn copy(&self) -> Result<Checkpoint<K>, AllocError>
        ensures { IfOk result (λ s. s ≡ self.now) }
    {
        Ok(Checkpoint {
            machine: self.machine.copy()?,
            position: self.position,
        })
    }
}

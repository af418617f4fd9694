//! `Script` and `Scripts`: the operations that each process of a live run calls, and the turn at
//! which it crashes.
ghost use Rattle.std.specs.Prelude.{◌≡◌, length};
ghost use Rattle.snap_sched.specs.ScriptText.{AreScripts};

use snap_semantics::Op;
use snap_words::Shape;
use std::marker::Model;

/// The operations that a process calls, in order, and the turn at which it crashes, counted from 1,
/// if it does.
pub struct Script {
    operations: Vec<Op>,
    crash: Option<u64>,
}

impl Drop for Script {
    // A drop that is written out is one call: it is proved once, and not again at each drop.
    fn drop(self) {
        let Script {
            operations: _,
            crash: _,
        } = self;
    }
}

impl Model for Script {
    ghost use Rattle.snap_sched.specs.ScriptText.{Script};

    ghost Value = { Script };

    ghost view = { λ s. record { operations = s.operations.items; crash = s.crash } };
}

/// A shape, and a script for each of its processes.
pub struct Scripts {
    shape: Shape,
    scripts: Vec<Script>,
}

impl Drop for Scripts {
    // A drop that is written out is one call: it is proved once, and not again at each drop.
    fn drop(self) {
        let Scripts {
            shape: _,
            scripts: _,
        } = self;
    }
}

impl Model for Scripts {
    ghost use Rattle.snap_sched.specs.ScriptText.{Scripts, AreScripts};

    ghost Value = { Scripts };

    ghost view = { λ s. record { shape = s.shape; scripts = s.scripts.items } };

    ghost invariant = { λ s. AreScripts (record { shape = s.shape; scripts = s.scripts.items }) };
}

impl Script {
    /// Returns the script of `operations`, with a crash at turn `crash` if there is one.
    pub fn new(operations: Vec<Op>, crash: Option<u64>) -> Script
        ensures { result ≡ record { operations = operations.items; crash = crash } }
    {
        Script { operations, crash }
    }

    /// Returns the operations in order.
    pub fn operations(&self) -> &[Op]
        ensures { result.now ≡ self.now.operations }
    {
        self.operations.as_slice()
    }

    /// Returns the turn at which the process crashes, counted from 1, if it does.
    pub fn crash(&self) -> Option<u64>
        ensures { result ≡ self.now.crash }
    {
        self.crash
    }
}

impl Scripts {
    /// Returns the scripts of the processes of `shape`, that of process 1 first.
    pub fn new(shape: Shape, scripts: Vec<Script>) -> Scripts
        requires { AreScripts (record { shape = shape; scripts = scripts.items }) }
        ensures { result ≡ record { shape = shape; scripts = scripts.items } }
    {
        Scripts { shape, scripts }
    }

    /// Returns the numbers of processes and of words.
    pub fn shape(&self) -> Shape
        ensures shape { result ≡ self.now.shape }
        ensures scripts { AreScripts self.now }
    {
        self.shape
    }

    /// Returns the scripts, that of process 1 first.
    pub fn scripts(&self) -> &[Script]
        ensures scripts { result.now ≡ self.now.scripts }
        ensures each { length result.now ≡ self.now.shape.n }
    {
        self.scripts.as_slice()
    }
}

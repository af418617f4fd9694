//! `StepContext`: in what a process evaluates a line: where memory comes from, the program, the
//! shape, its own number, its operation and line, and the place of a quantifier.
use snap_asm_program::Program;
use snap_semantics::Activity;
use snap_words::Shape;
use std::alloc::Global;

/// The context of a step: where memory comes from, the program, the process, its operation and
/// line, and the place of a quantifier.
#[derive(Clone, Copy)]
pub struct StepContext<'a> {
    /// Where copies and new values take their memory from.
    pub alloc: Global,
    pub program: &'a Program,
    pub shape: Shape,
    /// The number of the process.
    pub me: u32,
    pub activity: &'a Activity,
    /// The place of the quantifier that the line goes over, counted from 1; 0 outside of one.
    pub place: u64,
}

//! `Shows`: what is shown at the debugger's prompt beside the answers.
ghost use Rattle.std.specs.Prelude.{◌≡◌};
ghost use Rattle.snap_prompt.specs.Shows.{greets, places};

/// What is shown beside the answers.
#[derive(Clone, Copy, PartialEq, Eq)]
pub enum Shows {
    /// Nothing.
    Answers,
    /// The position, before each line.
    Positions,
    /// The position, a greeting before the first line, and a question before what was added is
    /// lost.
    Greeting,
}

impl Shows {
    /// Returns whether the position stands before each line.
    pub(crate) fn places(self) -> bool
        ensures { result ≡ places self }
    {
        match self {
            Shows::Answers => false,
            Shows::Positions | Shows::Greeting => true,
        }
    }

    /// Returns whether a person is greeted, and asked before what was added is lost.
    pub(crate) fn greets(self) -> bool
        ensures { result ≡ greets self }
    {
        match self {
            Shows::Answers | Shows::Positions => false,
            Shows::Greeting => true,
        }
    }
}

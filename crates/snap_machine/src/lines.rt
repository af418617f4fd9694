//! `Continuation` and `Halt`: where a process goes on after a line, or how its operation ends; and
//! why a line was not run.
ghost use Rattle.std.specs.Prelude.{◌≡◌};
ghost use Rattle.snap_semantics.specs.Source.{following};
ghost use Rattle.snap_machine.specs.Lines.{cause_of, next_line};
ghost use Rattle.snap_machine.specs.declared.lines.Halt.TheVariants.{Trap, NoMemory};

use crate::step_context::StepContext;
use snap_regs::RegisterFault;
use snap_semantics::Cause;
use snap_words::View;
use std::alloc::AllocError;

/// How a process goes on behind a line: at which line, or with the end of its operation.
#[derive(Drop)]
pub enum Continuation {
    Line { line: u64, link: Option<u64> },
    Answer(View),
    Finish,
}

/// Why a line was not run.
#[derive(Drop)]
pub enum Halt {
    Trap(Cause),
    NoMemory(AllocError),
}

impl From<Cause> for Halt {
    ghost from_gives = { λ cause halt. halt ≡ Trap cause };

    fn from(cause: Cause) -> Halt {
        Halt::Trap(cause)
    }
}

impl From<AllocError> for Halt {
    ghost from_gives = { λ e halt. halt ≡ NoMemory e };

    fn from(e: AllocError) -> Halt {
        Halt::NoMemory(e)
    }
}

impl From<RegisterFault> for Halt {
    ghost from_gives = { λ fault halt. halt ≡ Trap (cause_of fault) };

    fn from(fault: RegisterFault) -> Halt {
        match fault {
            RegisterFault::Index => Halt::Trap(Cause::Index),
            RegisterFault::Owner => Halt::Trap(Cause::Owner),
            RegisterFault::NotABit => Halt::Trap(Cause::NotABit),
        }
    }
}

/// Returns the line behind that of the process.
#[inline(always)]
pub(crate) fn next_line(context: &StepContext<'_>) -> Result<Continuation, Cause>
    ensures { result ≡ next_line context.now.activity.now
        (following context.now.program.now.lines context.now.activity.now.line) }
{
    match context.program.following(context.activity.line) {
        Some(line) => Ok(goto(context, line)),
        None => Err(Cause::OffEnd),
    }
}

/// Returns a line, with the same link.
pub fn goto(context: &StepContext<'_>, line: u64) -> Continuation
    ensures { result ≡ Continuation.Line line context.now.activity.now.link }
{
    Continuation::Line {
        line,
        link: context.activity.link,
    }
}

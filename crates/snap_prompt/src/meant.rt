//! What lines at the prompt mean: the last request again or a new one, and whether it moves the
//! session.
ghost use Rattle.std.specs.Prelude.{◌≡◌};
ghost use Rattle.snap_prompt.specs.Prompt.{meant, moves};

use crate::ask::Ask;
use snap_debug::Command;

/// Returns whether a command moves.
pub(crate) fn moves(command: &Command) -> bool
    ensures { result ≡ moves command.now }
{
    match command {
        Command::Step(_)
        | Command::Back(_)
        | Command::Goto(_)
        | Command::Run
        | Command::ReverseRun => true,
        Command::Break(_)
        | Command::Clear(_)
        | Command::Watch(_)
        | Command::Unwatch(_)
        | Command::ShowRegister(_)
        | Command::ShowProcess(_)
        | Command::Values
        | Command::Events
        | Command::Where => false,
    }
}

/// Returns the request that a line means: the last one again, or its own.
pub(crate) fn meant(last: Option<Ask>, ask: Ask) -> Option<Ask>
    ensures { result ≡ meant last ask }
{
    match ask {
        Ask::Nothing => None,
        Ask::Again => last,
        Ask::Quit
        | Ask::Help
        | Ask::All
        | Ask::Report
        | Ask::Save
        | Ask::ListLast
        | Ask::List(_)
        | Ask::Why(_)
        | Ask::Add(_)
        | Ask::Until { .. }
        | Ask::End { .. }
        | Ask::Do(_) => Some(ask),
    }
}

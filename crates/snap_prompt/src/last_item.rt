//! The last item before the position of a prompt's session, as it is shown after a move: its
//! outcome, and the line that it ran.
ghost use Rattle.std.specs.Prelude.{◌≡◌, ◌<◌, ◌≤◌, ◌-◌, IfOk, OnOk, Some, length, map};
ghost use Rattle.snap_text.specs.Drafted.{Adds};
ghost use Rattle.std.specs.List.{AllByRecursion};
ghost use Rattle.snap_words.specs.Shape.{IsOneOf};
ghost use Rattle.snap_semantics.specs.Readers.{line_of};
ghost use Rattle.snap_semantics.specs.State.{process_at};
ghost use Rattle.snap_semantics.specs.Table.{who};
ghost use Rattle.snap_runs.specs.Run.{state};
ghost use Rattle.snap_listing.specs.LineTexts.{written};
ghost use Rattle.snap_debug.specs.Session.{Obeys, at_position};
ghost use Rattle.snap_prompt.specs.Changed.{item_text};
ghost use Rattle.snap_prompt.specs.Changed.{line_run, ran};

use snap_debug::{Command, Reply, Session};
use snap_listing::LineTexts;
use snap_report::outcome_line;
use snap_semantics::{CommandRefusal, Fault, Outcome};
use snap_text::Draft;
use snap_words::Kind;
use std::alloc::AllocError;

/// Does a command; the run stays the same.
pub(crate) fn do_command<K: Kind>(
    session: &mut Session<K>,
    command: &Command,
) -> Result<Reply, Fault<CommandRefusal>>
    ensures obeys { Obeys (λ r. r) result session.old command.now session.new }
    ensures run { session.new.run ≡ session.old.run }
{
    session.command(command)
}

/// Goes to a position.
pub(crate) fn go_to<K: Kind>(session: &mut Session<K>, position: u64) -> Result<(), AllocError>
    requires { position ≤ length session.old.run.items }
    ensures moved { OnOk result (session.new ≡ at_position position session.old) }
    ensures run { session.new.run ≡ session.old.run }
{
    match do_command(session, &Command::Goto(position)) {
        Ok(_) => Ok(()),
        Err(_) => Err(AllocError),
    }
}

/// Returns the line at which a process was before the last item.
fn line_before<K: Kind>(session: &mut Session<K>, process: u32) -> Result<Option<u64>, AllocError>
    requires later { 0 < session.old.position }
    requires process { IsOneOf session.old.run.shape.n process }
    ensures line { IfOk result (λ line. line
        ≡ line_of (process_at (state session.old.run (session.old.position - 1)) process).status) }
    ensures same { OnOk result (session.new ≡ session.old) }
    ensures run { session.new.run ≡ session.old.run }
{
    let position = session.position();
    go_to(session, position - 1)?;
    let line = session.machine().line(process);
    go_to(session, position)?;
    Ok(line)
}

/// Returns whether an item of this outcome ran a line.
fn ran(outcome: &Outcome) -> bool
    ensures { result ≡ ran outcome.now }
{
    match outcome {
        Outcome::Stepped | Outcome::Answered(_) | Outcome::Finished | Outcome::Trapped(_) => true,
        Outcome::Called | Outcome::Crashed | Outcome::Skipped(_) => false,
    }
}

/// Returns the line that the last item ran.
fn line_run<K: Kind>(
    session: &mut Session<K>,
    process: u32,
    outcome: &Outcome,
) -> Result<Option<u64>, AllocError>
    requires later { 0 < session.old.position }
    requires process { IsOneOf session.old.run.shape.n process }
    ensures line { IfOk result (λ line. line
        ≡ line_run session.old.run session.old.position (Some (process, outcome.now))) }
    ensures same { OnOk result (session.new ≡ session.old) }
    ensures run { session.new.run ≡ session.old.run }
{
    if ran(outcome) {
        line_before(session, process)
    } else {
        Ok(None)
    }
}

/// Appends the text on the last item, if there is one.
#[tactic(auto, using(crate::proofs::LastItems::last_process_is_one), unfolding(crate::specs::Changed::item_text))]
pub(crate) fn push_item<K: Kind>(
    out: &mut Draft,
    texts: &LineTexts,
    session: &mut Session<K>,
) -> Result<(), AllocError>
    requires texts { texts.now ≡ map written session.old.run.source.lines }
    requires processes { AllByRecursion
        (λ x. IsOneOf session.old.run.shape.n (who x)) session.old.run.items }
    ensures text { OnOk result (Adds out.old out.new
        (item_text session.old.run session.old.position)) }
    ensures same { OnOk result (session.new ≡ session.old) }
    ensures run { session.new.run ≡ session.old.run }
{
    let position = session.position();
    let Some((process, outcome)) = session.last()? else {
        return Ok(());
    };
    let line = line_run(session, process, &outcome)?;
    outcome_line(out, texts, position, process, &outcome, line);
    Ok(())
}

//! `perform`: what is written for a listing, a schedule and debugger commands, each command with
//! its reply.
ghost use Rattle.std.specs.Prelude.{◌≡◌, ◌++◌, IfOk, OnOk};
ghost use Rattle.snap_text.specs.Drafted.{Adds};
ghost use Rattle.snap_runs.specs.Run.{run_over};
ghost use Rattle.snap_semantics.specs.Answers.{Answers, refused_as};
ghost use Rattle.snap_semantics.specs.declared.refusal.Refusal.TheVariants as refusal;
ghost use Rattle.snap_debug_commands.specs.Commands.{commands_of};
ghost use Rattle.snap_debug.specs.Session.{after_commands, answer, performance};
ghost use Rattle.snap_debug.specs.Session.{replies_text, session_report};
ghost use Rattle.snap_input.specs.RefusesAtOnce.{IsRefusedAtOnce};
ghost use Rattle.snap_output.specs.AtOnce.{long_text};
ghost use Rattle.snap_output.specs.Perform.{perform_listing, perform_of};
ghost use Rattle.snap_output.specs.Replies.{command_reply};

use snap_asm_program::Program;
use snap_debug::{Command, Session, push_command, push_refusal_line};
use snap_input::{program_of, schedule_for};
use snap_sched::Schedule;
use snap_semantics::{Fault, ListingRefusal, Refusal};
use snap_text::Draft;
use snap_words::{Bits, Kind, KindTag, Multi, Seq};
use std::alloc::{AllocError, Global};

/// The most bytes of a listing's text.
const MOST_LISTING_BYTES: usize = 65_536;

/// Reads commands.
fn read_commands(alloc: Global, text: &[u8]) -> Result<Vec<Command>, Fault<Refusal>>
    ensures { Answers (λ commands. commands.items) result
        (refused_as refusal.Commands (commands_of text.now)) }
{
    Ok(snap_debug::read_commands(alloc, text)?)
}

/// Appends a command behind `> `, and the reply of a session.
fn push_answer<K: Kind>(
    out: &mut Draft,
    session: &mut Session<K>,
    command: &Command,
) -> Result<(), AllocError>
    ensures reply { OnOk result (Adds out.old out.new (command_reply session.old command.now)) }
    ensures session { OnOk result (session.new ≡ (answer session.old command.now).0) }
{
    out.push(b"> ");
    push_command(out, command);
    match session.command(command) {
        Ok(reply) => {
            out.push(reply.as_slice());
            Ok(())
        }
        Err(Fault::Refused(refusal)) => {
            push_refusal_line(out, &refusal);
            Ok(())
        }
        Err(Fault::Memory) => Err(AllocError),
    }
}

/// Appends commands, each with the reply of a session.
fn push_answers<K: Kind>(
    out: &mut Draft,
    session: &mut Session<K>,
    commands: &[Command],
) -> Result<(), AllocError>
    ensures replies { OnOk result (Adds out.old out.new (replies_text session.old commands.now)) }
    ensures session { OnOk result (session.new ≡ after_commands session.old commands.now) }
{
    for command in commands {
        push_answer(out, session, command)?;
    }
    Ok(())
}

/// Appends the report of the position of a session.
fn push_session_report<K: Kind>(out: &mut Draft, session: &Session<K>) -> Result<(), AllocError>
    ensures { OnOk result (Adds out.old out.new (session_report session.now)) }
{
    let report = session.report()?;
    out.push(report.as_slice());
    Ok(())
}

/// Returns the replies of a session to commands, and the report of the position that they reach.
fn answers<K: Kind>(
    alloc: Global,
    session: &mut Session<K>,
    commands: &[Command],
) -> Result<Vec<u8>, AllocError>
    ensures { IfOk result (λ out. out.items ≡ replies_text session.old commands.now
        ++ session_report (after_commands session.old commands.now)) }
{
    let mut out = Draft::new(alloc);
    push_answers(&mut out, session, commands)?;
    push_session_report(&mut out, session)?;
    out.finish()
}

/// Returns the replies to commands on a program under a schedule, and the report of the position
/// that they reach.
fn performance<K: Kind>(
    alloc: Global,
    program: &Program,
    schedule: Schedule,
    commands: &[Command],
) -> Result<Vec<u8>, AllocError>
    requires { program.now.kind ≡ K.TAG }
    ensures { IfOk result (λ out. out.items ≡ performance (run_over program.now schedule)
        commands.now) }
{
    let mut session = Session::<K>::over(alloc, program, schedule)?;
    answers(alloc, &mut session, commands)
}

/// Returns the replies to commands on a program of a kind under a schedule, and the report of the
/// position that they reach.
#[tactic(auto, unfolding(crate::specs::Perform::perform_listing))]
fn perform_kind<K: Kind>(
    alloc: Global,
    program: &Program,
    schedule: &[u8],
    commands: &[u8],
) -> Result<Vec<u8>, Fault<Refusal>>
    requires { program.now.kind ≡ K.TAG }
    ensures { Answers (λ out. out.items) result (perform_listing program.now schedule.now
        commands.now) }
{
    let schedule = schedule_for::<K>(alloc, program, schedule)?;
    let commands = read_commands(alloc, commands)?;
    Ok(performance::<K>(alloc, program, schedule, commands.as_slice())?)
}

/// Returns the replies to commands on `program` under `schedule`, and the report of the position
/// that they reach.
///
/// # Errors
///
/// `Refused` with the reason why a text is refused; `Memory` where memory runs out.
pub fn perform_program(
    alloc: Global,
    program: &Program,
    schedule: &[u8],
    commands: &[u8],
) -> Result<Vec<u8>, Fault<Refusal>>
    ensures { Answers (λ out. out.items) result (perform_listing program.now schedule.now
        commands.now) }
{
    match program.kind() {
        KindTag::Seq => perform_kind::<Seq>(alloc, program, schedule, commands),
        KindTag::Bits => perform_kind::<Bits>(alloc, program, schedule, commands),
        KindTag::Multi => perform_kind::<Multi>(alloc, program, schedule, commands),
    }
}

/// Returns the replies to commands on a listing, which is given as its text.
#[tactic(auto, unfolding(crate::specs::Perform::perform_of))]
fn perform_texts(
    alloc: Global,
    listing: &[u8],
    schedule: &[u8],
    commands: &[u8],
) -> Result<Vec<u8>, Fault<Refusal>>
    ensures { Answers (λ out. out.items) result (perform_of listing.now schedule.now commands.now) }
{
    let program = program_of(alloc, listing)?;
    perform_program(alloc, &program, schedule, commands)
}

/// Returns the replies to commands on `listing` under `schedule`, and the report of the position
/// that they reach.
///
/// # Errors
///
/// `Refused` with the reason why a text is refused; `Memory` where memory runs out. A listing that
/// is too long is refused even then.
#[tactic(auto, using(crate::proofs::AtOnce::of_text), unfolding(crate::specs::Perform::perform_of, snap_semantics::specs::Listing::listing_of))]
pub fn perform(
    alloc: Global,
    listing: &[u8],
    schedule: &[u8],
    commands: &[u8],
) -> Result<Vec<u8>, Fault<Refusal>>
    ensures output { Answers (λ out. out.items) result
        (perform_of listing.now schedule.now commands.now) }
    ensures at_once { IsRefusedAtOnce (long_text listing.now) result }
{
    if listing.len() > MOST_LISTING_BYTES {
        return Err(Fault::Refused(Refusal::Listing(ListingRefusal::TooLong)));
    }
    perform_texts(alloc, listing, schedule, commands)
}

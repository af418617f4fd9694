//! `Setup`: what a live run plays, which is a listing and a script for each process; and how an
//! input is read as one.
ghost use Rattle.std.specs.Prelude.{◌≡◌, ◌<◌, ◌≤◌, Err, length, map};
ghost use Rattle.snap_semantics.specs.Answers.{Answers};
ghost use Rattle.snap_semantics.specs.declared.fault.Fault.TheVariants.{Refused};
ghost use Rattle.snap_semantics.specs.declared.refusal.Refusal.TheVariants as refusal;
ghost use Rattle.snap_sched.specs.ScriptText.{AreScripts};
ghost use Rattle.snap_live_output.specs.LiveOutput.{scripts_for, setup_for, setup_of, setup_text};
ghost use Rattle.snap_input.specs.Input.{checked_parts};
ghost use Rattle.snap_input.specs.Parts.{max_input, parts_of};
ghost use Rattle.snap_input.specs.RefusesAtOnce.{RefusesAtOnce};

use snap_asm_program::Program;
use snap_input::{MAX_INPUT, Prepared, fits, prepare};
use snap_sched::{Scripts, read_scripts};
use snap_semantics::{Fault, Refusal};
use snap_tasks::Subject;
use snap_words::WordFault;
use std::alloc::Global;
use std::marker::Model;

/// A program, and a script for each process.
pub struct Setup {
    program: Program,
    scripts: Scripts,
}

impl Drop for Setup {
    // A drop that is written out is one call: it is proved once, and not again at each drop.
    fn drop(self) {
        let Setup {
            program: _,
            scripts: _,
        } = self;
    }
}

impl Model for Setup {
    ghost use Rattle.snap_live_output.specs.LiveOutput.{Setup};

    ghost Value = { Setup };

    ghost view = { λ s. record { source = s.program; scripts = s.scripts } };
}

impl Setup {
    /// Returns the program that runs.
    pub fn program(&self) -> &Program
        ensures { result.now ≡ self.now.source }
    {
        &self.program
    }

    /// Returns the scripts that are played.
    pub fn scripts(&self) -> &Scripts
        ensures scripts { result.now ≡ self.now.scripts }
        ensures there { AreScripts self.now.scripts }
    {
        // What `shape` promises: the scripts keep the rules of scripts.
        let _shape = self.scripts.shape();
        &self.scripts
    }
}

/// Reads scripts whose shape fits the kind of a program.
#[tactic(auto, unfolding(crate::specs::LiveOutput::scripts_for))]
fn scripts_for(alloc: Global, program: &Program, text: &[u8]) -> Result<Scripts, Fault<Refusal>>
    ensures { Answers (λ s. s) result (scripts_for program.now text.now) }
{
    let scripts = read_scripts(alloc, text)?;
    if !fits(program.kind(), scripts.shape()) {
        return Err(Fault::Refused(Refusal::Words(WordFault::BadShape)));
    }
    Ok(scripts)
}

/// Returns a program with the scripts of a text.
#[tactic(auto, unfolding(crate::specs::LiveOutput::setup_text))]
fn setup_texts(alloc: Global, program: Program, texts: &[&[u8]]) -> Result<Setup, Fault<Refusal>>
    requires { 0 < length texts.now }
    ensures { Answers (λ s. s) result (setup_text program (map (λ text. text.now) texts.now)) }
{
    let scripts = scripts_for(alloc, &program, texts[0])?;
    Ok(Setup { program, scripts })
}

/// Returns what the parts of an input say to play.
#[tactic(auto, unfolding(snap_input::specs::Input::parted, snap_input::specs::Input::prepared))]
fn setup_for(alloc: Global, subject: Subject, input: &[u8]) -> Result<Setup, Fault<Refusal>>
    requires { length input.now ≤ max_input }
    ensures setup { Answers (λ s. s) result (setup_for subject (parts_of input.now)) }
    ensures at_once { RefusesAtOnce (checked_parts subject 1 (parts_of input.now)) result }
{
    let Prepared { program, texts } = prepare(alloc, subject, 1, input)?;
    setup_texts(alloc, program, texts.as_slice())
}

/// Returns what `input` says to play: a listing, or the shipped one, and scripts.
///
/// # Errors
///
/// `Refused` with the reason why `input` is refused; `Memory` where memory runs out. An input that
/// is too long or has a wrong number of parts is refused even then.
pub fn setup_of(alloc: Global, subject: Subject, input: &[u8]) -> Result<Setup, Fault<Refusal>>
    ensures setup { Answers (λ s. s) result (setup_of subject input.now) }
    ensures too_long { max_input < length input.now → result ≡ Err (Refused refusal.InputTooLong) }
    ensures at_once { length input.now ≤ max_input →
        RefusesAtOnce (checked_parts subject 1 (parts_of input.now)) result }
{
    if input.len() > MAX_INPUT {
        return Err(Fault::Refused(Refusal::InputTooLong));
    }
    setup_for(alloc, subject, input)
}

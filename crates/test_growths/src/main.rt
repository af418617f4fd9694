//! Calls that may want memory, one scene of them after another. A call that wanted memory is made
//! once more, so that what is printed is the same whichever growth is refused.
#![tactic(auto)]

mod batches;
mod debug_outputs;
mod inputs;
mod items;
mod outcomes;
mod scene_trouble;
mod scripts;
mod seats;
mod sessions;
mod texts;
mod trials;

use inputs::Inputs;
use scene_trouble::SceneTrouble;
use std::io::Write;
use std::process::ExitCode;
use std::sync::Wait;
use std::thread::Threads;

/// The scenes, in the order in which `all` goes through them.
const SCENES: &[&str] = &[
    "perform", "texts", "apply", "undo", "session", "batch", "seats", "scripts",
];

/// Plays the scene of this name.
fn play(
    rt: &HostRuntime,
    threads: &(impl Threads + Wait + Sync),
    inputs: &Inputs,
    name: &str,
) -> Result<(), SceneTrouble> {
    match name {
        "perform" => debug_outputs::play(rt, inputs),
        "texts" => texts::play(rt, inputs),
        "apply" => items::play(rt),
        "undo" => items::play_back(rt),
        "session" => sessions::play(rt),
        "batch" => batches::play(rt, threads),
        "seats" => seats::play(rt, threads),
        "scripts" => scripts::play(rt, threads),
        _ => Err(SceneTrouble::Unknown),
    }
}

/// Plays the scenes of these names, each behind a line with its name.
fn play_each(
    rt: &HostRuntime,
    threads: &(impl Threads + Wait + Sync),
    inputs: &Inputs,
    names: &[&str],
) -> Result<(), SceneTrouble> {
    for name in names {
        println!(rt; "{name}")?;
        play(rt, threads, inputs, name)?;
    }
    Ok(())
}

/// Plays what the first word of the command line names.
fn play_asked(
    rt: &HostRuntime,
    threads: &(impl Threads + Wait + Sync),
) -> Result<(), SceneTrouble> {
    let words = std::env::args(rt)?.collect::<Vec<String>>(rt.alloc())?;
    let Some(name) = words.get(1) else {
        return Err(SceneTrouble::Unknown);
    };
    let input = inputs::read(rt)?;
    let inputs = Inputs::of(rt.alloc(), input.as_slice())?;
    match name.as_str() {
        "all" => play_each(rt, threads, &inputs, SCENES),
        name => play(rt, threads, &inputs, name),
    }
}

/// Says why a scene was not played to its end, and gives the status of that.
fn complain(rt: &HostRuntime, fault: SceneTrouble) -> u8 {
    let _said = rt.stderr().write_all(fault.line());
    fault.status()
}

fn main(rt: HostRuntime) -> ExitCode {
    match play_asked(&rt, &rt) {
        Ok(()) => ExitCode::from(0),
        Err(fault) => ExitCode::from(complain(&rt, fault)),
    }
}

//! A scene of calls that may want memory: a listing under a schedule, with debugger commands.
use crate::inputs::{BORROWED, COMMANDS, Inputs};
use crate::scene_trouble::SceneTrouble;
use crate::trials::{tell, tried};
use snap_output::perform;

/// Plays commands over a scan that borrows its view.
pub fn play(rt: &HostRuntime, inputs: &Inputs) -> Result<(), SceneTrouble> {
    let text = tried!(rt, perform(rt.alloc(), inputs.single, BORROWED, COMMANDS));
    tell(rt, text.as_slice())
}

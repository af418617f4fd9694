//! A scene of calls that may want memory: an image is assembled, loaded as a program, and listed
//! back.
use crate::inputs::Inputs;
use crate::scene_trouble::SceneTrouble;
use crate::trials::{tell, tried};
use snap_asm::{Program, assemble, list, load};

/// Assembles an image, loads it, and lists it back.
pub fn play(rt: &HostRuntime, inputs: &Inputs) -> Result<(), SceneTrouble> {
    let image = tried!(rt, assemble(rt.alloc(), inputs.multi));
    let program: Program = tried!(rt, load(rt.alloc(), image.as_slice()));
    let text = tried!(rt, list(rt.alloc(), image.as_slice()));
    println!(rt;
        "{} bytes, {} lines",
        image.len(),
        program.listing().lines().len()
    )?;
    tell(rt, text.as_slice())
}

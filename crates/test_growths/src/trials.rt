//! Makes a call once more if it wanted memory, and says so on standard error.
use crate::scene_trouble::SceneTrouble;
use std::io::Write;

/// Makes a call, and once more if it wanted memory, which is said on standard error; and returns
/// its result.
macro_rules! tried {
    ($rt:expr, $call:expr) => {
        match $call {
            Ok(answer) => answer,
            Err(error) => {
                $crate::trials::wants_memory($rt, $crate::scene_trouble::SceneTrouble::from(error))?;
                $call?
            }
        }
    };
}

pub(crate) use tried;

/// Says that a call wanted memory; any other fault is handed back.
pub fn wants_memory(rt: &HostRuntime, fault: SceneTrouble) -> Result<(), SceneTrouble> {
    if fault != SceneTrouble::Memory {
        return Err(fault);
    }
    Ok(rt.stderr().write_all(b"again\n")?)
}

/// Writes a text to standard output.
pub fn tell(rt: &HostRuntime, text: &[u8]) -> Result<(), SceneTrouble> {
    Ok(rt.stdout().write_all(text)?)
}

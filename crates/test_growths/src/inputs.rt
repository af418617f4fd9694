//! The inputs of the scenes of calls that may want memory: listings, schedules, commands and
//! scripts.
ghost use Rattle.std.specs.Prelude.{◌≡◌, IfOk};
ghost use Rattle.snap_words.specs.declared.kind.KindTag.TheVariants.{Seq};

use crate::scene_trouble::SceneTrouble;
use snap_asm::load_listing;
use snap_asm_program::Program;
use snap_input::split_parts;
use snap_words::KindTag;
use std::alloc::Global;
use std::io::Read;

/// A scan of U that borrows its view, between two updates.
pub const BORROWED: &[u8] =
    b"shape 2 2\n1 scan\n1*6\n2 update 2 5\n2*17\n1*8\n1*4\n2 update 2 6\n2*17\n1*9\n";

/// Forward to each write of a register, and back again.
pub const COMMANDS: &[u8] = b"watch r 2\nrun\nrun\nrun\nrrun\nback 1\ngoto 0\ngoto 65\n";

/// Two quick updates, of B, that leave the handshake bits as they were.
pub const QUICK: &[u8] = b"shape 3 3\n2 update 2 1\n2*43\n3 update 3 1\n3*43\n\
2 update 2 2\n2*41\n3 update 3 2\n3*41\n1 scan\n1*24\n2\n3\n1*33\n";

/// A scan of U by its one process, and an update.
pub const SCAN: &[u8] = b"shape 1 1\n1 scan\n1*9\n";

pub const UPDATE: &[u8] = b"shape 1 1\n1 update 1 7\n1*13\n";

/// The scripts of one process.
pub const SCRIPTS: &[u8] = b"shape 1 1\n1 update 1 7\n1 scan\n";

/// The texts of two listings.
#[derive(Drop)]
pub struct Inputs<'a> {
    /// The unbounded single-writer snapshot listing.
    pub single: &'a [u8],
    /// The bounded multi-writer snapshot listing.
    pub multi: &'a [u8],
}

/// Reads standard input.
pub fn read(rt: &HostRuntime) -> Result<Vec<u8>, SceneTrouble> {
    let mut input = Vec::new(rt.alloc());
    let _count = rt.reader().read_to_end(&mut input)?;
    Ok(input)
}

impl<'a> Inputs<'a> {
    /// Returns the two parts of an input.
    pub fn of(alloc: Global, input: &'a [u8]) -> Result<Inputs<'a>, SceneTrouble> {
        let parts = split_parts(alloc, input)?;
        match (parts.get(0), parts.get(1)) {
            (Some(single), Some(multi)) => Ok(Inputs { single, multi }),
            _ => Err(SceneTrouble::Unknown),
        }
    }
}

/// Returns the program of the unbounded single-writer listing.
pub fn single(alloc: Global) -> Result<Program, SceneTrouble>
    ensures { IfOk result (λ p. p.kind ≡ Seq) }
{
    let program = load_listing(alloc, snap_single::listing(alloc)?.into_listing())?;
    if program.kind() != KindTag::Seq {
        return Err(SceneTrouble::Refused);
    }
    Ok(program)
}

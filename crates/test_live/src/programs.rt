//! The program that the tests of desks and live runs play: that of listing U.
ghost use Rattle.std.specs.Prelude.{◌≡◌, IfOk};
ghost use Rattle.snap_words.specs.declared.kind.KindTag.TheVariants.{Seq};

use snap_asm::load_listing;
use snap_asm_program::Program;
use snap_words::KindTag;
use std::alloc::Global;
use std::process::Abort;
use std::test::Fail;

/// Returns the program of the unbounded single-writer listing.
pub(crate) fn program(rt: &impl Abort, alloc: Global) -> Result<Program, Fail>
    ensures { IfOk result (λ p. p.kind ≡ Seq) }
{
    let program = load_listing(alloc, snap_single::listing(alloc)?.into_listing())?;
    assert!(rt; program.kind() == KindTag::Seq);
    Ok(program)
}

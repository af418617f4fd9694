//! `play`: plays a live run's scripts, each process in a thread, and gives the text of its history
//! and what is said of the calls that it skipped.
ghost use Rattle.std.specs.Prelude.{◌≡◌, ◌≤◌, IfErr, IfOk};
ghost use Rattle.snap_words.specs.Shape.{max_items};
ghost use Rattle.snap_live.specs.LiveRun.{MayFault};
ghost use Rattle.snap_live_output.specs.LiveOutput.{setting};
ghost use Rattle.snap_live_output.specs.Uncalled.{IsGatedOutput};

use crate::output::LiveOutput;
use crate::setup::Setup;
use crate::uncalled::uncalled_text;
use crate::written::history_text;
use snap_live::{Gate, LiveFault, run_live};
use snap_words::{Bits, Kind, KindTag, Multi, Seq};
use std::alloc::Global;
use std::sync::Wait;
use std::thread::Threads;

/// Plays scripts over registers of a kind, and returns the history as text, with the text on the
/// calls that were skipped.
fn play_kind<K: Kind, G: Gate, R: Threads + Wait + Sync>(
    rt: &R,
    alloc: Global,
    setup: &Setup,
    limit: u64,
    gate: &G,
) -> Result<LiveOutput, LiveFault>
    requires kind { setup.now.source.kind ≡ K.TAG }
    requires limit { (1 ≤ limit) × (limit ≤ max_items) }
    ensures text { IfOk result (λ out.
        IsGatedOutput (G.may_answer gate.now) setup.now limit out.text.items out.uncalled.items) }
    ensures fault { IfErr result (λ f. MayFault (G.may_answer gate.now) (setting setup.now)
        setup.now.scripts.scripts limit f) }
{
    let live = run_live::<K, G, R>(rt, alloc, setup.program(), setup.scripts(), limit, gate)?;
    let items = live.kept.items();
    let text = history_text(alloc, &live.kept)?;
    let uncalled = uncalled_text(alloc, setup, items)?;
    Ok(LiveOutput { text, uncalled })
}

/// Plays scripts, and returns the history as text, with the text on the calls that were skipped.
///
/// # Errors
///
/// `Refused` with the reason why the live run fails; `Memory` where memory runs out.
pub fn play<G: Gate, R: Threads + Wait + Sync>(
    rt: &R,
    alloc: Global,
    setup: &Setup,
    limit: u64,
    gate: &G,
) -> Result<LiveOutput, LiveFault>
    requires { (1 ≤ limit) × (limit ≤ max_items) }
    ensures text { IfOk result (λ out.
        IsGatedOutput (G.may_answer gate.now) setup.now limit out.text.items out.uncalled.items) }
    ensures fault { IfErr result (λ f. MayFault (G.may_answer gate.now) (setting setup.now)
        setup.now.scripts.scripts limit f) }
{
    match setup.program().kind() {
        KindTag::Seq => play_kind::<Seq, G, R>(rt, alloc, setup, limit, gate),
        KindTag::Bits => play_kind::<Bits, G, R>(rt, alloc, setup, limit, gate),
        KindTag::Multi => play_kind::<Multi, G, R>(rt, alloc, setup, limit, gate),
    }
}

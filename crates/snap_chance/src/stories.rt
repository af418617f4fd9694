//! Stories: turns of a schedule made by chance in which a few processes move in a fixed order, and
//! chance decides how far each goes.
ghost use Rattle.std.specs.Prelude.{◌≡◌, ◌≤◌};
ghost use Rattle.snap_chance.specs.Stories.{
  duel_scenes,
  duel_turn,
  scan_scene,
  scene_op,
  scene_turn,
  extent_of,
  update_scene,
  witness_scenes,
  witness_turn,
};

use crate::draws::Draws;
use crate::plan::Plan;
use crate::turns::{Turn, round_process, whole_update, word_of};
use snap_semantics::Op;

/// How far a process goes in a scene: the steps of a whole update, up to half of them, from half of
/// them on, up to all of them, or all of them as often as fewer.
#[derive(Clone, Copy)]
pub(crate) enum Extent {
    Whole,
    Early,
    Late,
    Part,
    Any,
}

/// One turn of a story: which of its processes moves, by a number from 0 on, whether an operation
/// that it calls is an update or a scan, and how far it goes.
#[derive(Clone, Copy)]
pub(crate) struct Scene {
    pub(crate) number: u64,
    pub(crate) updates: bool,
    pub(crate) extent: Extent,
}

/// Returns the scene of an update that goes as far as `extent`.
fn update_scene(number: u64, extent: Extent) -> Scene
    ensures { result ≡ update_scene number extent }
{
    Scene {
        number,
        updates: true,
        extent,
    }
}

/// Returns the scene of a scan that goes as far as `extent`.
fn scan_scene(number: u64, extent: Extent) -> Scene
    ensures { result ≡ scan_scene number extent }
{
    Scene {
        number,
        updates: false,
        extent,
    }
}

/// Returns the scenes of witnesses: process 0 updates and process 1 scans, in parts; process 2
/// updates in between, and then scans.
fn witness_scenes() -> [Scene; 8]
    ensures { result ≡ witness_scenes }
{
    [
        update_scene(0, Extent::Part),
        update_scene(2, Extent::Any),
        scan_scene(1, Extent::Part),
        update_scene(2, Extent::Any),
        scan_scene(2, Extent::Whole),
        update_scene(0, Extent::Any),
        update_scene(0, Extent::Part),
        scan_scene(1, Extent::Any),
    ]
}

/// Returns the scenes of a duel. Process 0 comes near the end of an update. Process 1 makes an
/// update of its own, and begins a scan, which goes on bit by bit while process 0 ends its update
/// and makes another one.
fn duel_scenes() -> [Scene; 10]
    ensures { result ≡ duel_scenes }
{
    [
        update_scene(0, Extent::Whole),
        update_scene(0, Extent::Late),
        update_scene(1, Extent::Whole),
        scan_scene(1, Extent::Early),
        update_scene(0, Extent::Whole),
        scan_scene(1, Extent::Late),
        update_scene(0, Extent::Early),
        scan_scene(1, Extent::Late),
        update_scene(0, Extent::Late),
        scan_scene(1, Extent::Whole),
    ]
}

/// Returns how many steps an extent is, of an update of `whole` steps.
fn extent_of(extent: Extent, whole: u64, draws: &Draws) -> u64
    requires some { 24 ≤ whole }
    requires few { whole ≤ 128 }
    ensures { result ≡ extent_of extent whole draws.now }
{
    let half = whole / 2;
    match extent {
        Extent::Whole => whole,
        Extent::Early => draws.length % half + 1,
        Extent::Late => half + draws.length % half + 1,
        Extent::Part => draws.length % whole + 1,
        Extent::Any => {
            if draws.scale % 2 == 0 {
                draws.length % whole + 1
            } else {
                whole
            }
        }
    }
}

/// Returns the operation that a process calls in a scene: an update, of a value that no other has,
/// or a scan.
fn scene_op(plan: &Plan, turn: u64, process: u32, updates: bool, draws: &Draws) -> Op
    ensures { result ≡ scene_op plan.now turn process updates draws.now }
{
    if updates {
        Op::Update {
            word: word_of(plan, process, draws),
            value: turn,
        }
    } else {
        Op::Scan
    }
}

/// Returns the turn of a scene.
fn scene_turn(plan: &Plan, run: u64, turn: u64, scene: Scene, draws: &Draws) -> Turn
    requires { scene.number ≤ 2 }
    ensures { result ≡ scene_turn plan.now run turn scene draws.now }
{
    let process = round_process(plan, run, scene.number);
    Turn {
        process,
        call: Some(scene_op(plan, turn, process, scene.updates, draws)),
        steps: extent_of(scene.extent, whole_update(plan), draws),
    }
}

/// Returns a turn with witnesses.
pub(crate) fn witness_turn(plan: &Plan, run: u64, turn: u64, draws: &Draws) -> Turn
    ensures { result ≡ witness_turn plan.now run turn draws.now }
{
    let scenes = witness_scenes();
    scene_turn(plan, run, turn, scenes[(turn % 8) as usize], draws)
}

/// Returns a turn of a duel.
pub(crate) fn duel_turn(plan: &Plan, run: u64, turn: u64, draws: &Draws) -> Turn
    ensures { result ≡ duel_turn plan.now run turn draws.now }
{
    let scenes = duel_scenes();
    scene_turn(plan, run, turn, scenes[(turn % 10) as usize], draws)
}

//! `call` and `crash`: a process of a machine is called to scan or to update, which it begins or
//! skips; and a process crashes.
ghost use Rattle.std.specs.Prelude.{◌≡◌, length, map};
ghost use Rattle.snap_words.specs.Shape.{IsOneOf};
ghost use Rattle.snap_semantics.specs.Table.{call_skip, done, entry, owner_skip};
ghost use Rattle.snap_semantics.specs.declared.process.Item.TheVariants as item;
ghost use Rattle.snap_machine.specs.SeenProcesses.{seen_process, seen_state};
ghost use Rattle.snap_machine.specs.Sizes.{AllSized};

use crate::slot_process::SlotProcess;
use snap_listing_core::Listing;
use snap_regs::Registers;
use snap_semantics::{Activity, Op, Outcome, Reason, Status};
use snap_words::{Kind, KindTag, Shape};

/// Calls `op` at process `i`, which begins it or skips the call, and returns the outcome.
pub fn call<K: Kind>(
    listing: &Listing,
    registers: &Registers<K>,
    processes: &mut [SlotProcess<K>],
    i: u32,
    op: Op,
) -> Outcome
    requires process { IsOneOf (length processes.old) i }
    requires sized { AllSized listing.now registers.now.shape
        (map (seen_process K.as_word listing.now) processes.old) }
    ensures done { done listing.now registers.now.shape
        (seen_state K.as_word listing.now registers.now.memory processes.old) (item.Call i op)
        ≡ (seen_state K.as_word listing.now registers.now.memory processes.new, result) }
    ensures sized { AllSized listing.now registers.now.shape
        (map (seen_process K.as_word listing.now) processes.new) }
{
    let shape = registers.shape();
    let k = (i - 1) as usize;
    let process = &mut processes[k];
    match process.status {
        Status::Trapped(_, _) => Outcome::Skipped(Reason::Trapped),
        Status::Crashed(_) => Outcome::Skipped(Reason::Crashed),
        Status::Busy(_) => Outcome::Skipped(Reason::Busy),
        Status::Idle => match call_skip(listing.kind(), shape, u64::from(i), op) {
            Some(reason) => Outcome::Skipped(reason),
            None => {
                let line = entry(listing, op);
                process.status = Status::Busy(Activity {
                    op,
                    line,
                    link: None,
                });
                Outcome::Called
            }
        },
    }
}

/// Crashes process `i`, and returns the outcome.
pub fn crash<K: Kind>(
    listing: &Listing,
    registers: &Registers<K>,
    processes: &mut [SlotProcess<K>],
    i: u32,
) -> Outcome
    requires process { IsOneOf (length processes.old) i }
    requires sized { AllSized listing.now registers.now.shape
        (map (seen_process K.as_word listing.now) processes.old) }
    ensures done { done listing.now registers.now.shape
        (seen_state K.as_word listing.now registers.now.memory processes.old) (item.Crash i)
        ≡ (seen_state K.as_word listing.now registers.now.memory processes.new, result) }
    ensures sized { AllSized listing.now registers.now.shape
        (map (seen_process K.as_word listing.now) processes.new) }
{
    let k = (i - 1) as usize;
    let process = &mut processes[k];
    match process.status {
        Status::Trapped(_, _) => Outcome::Skipped(Reason::Trapped),
        Status::Crashed(_) => Outcome::Skipped(Reason::Crashed),
        Status::Busy(activity) => {
            process.status = Status::Crashed(Some(activity));
            Outcome::Crashed
        }
        Status::Idle => {
            process.status = Status::Crashed(None);
            Outcome::Crashed
        }
    }
}

/// Returns why an idle process skips a call: the word of an update does not exist, or it is another
/// process's.
pub fn call_skip(kind: KindTag, shape: Shape, i: u64, op: Op) -> Option<Reason>
    ensures { result ≡ call_skip kind shape i op }
{
    match op {
        Op::Scan => None,
        Op::Update { word, .. } => if 0 < word && word <= shape.w() {
            owner_skip(kind, i, word)
        } else {
            Some(Reason::NoSuchWord)
        },
    }
}

/// Returns why a process skips an update of a word that is not its own, in kinds where it may
/// update its own word alone.
fn owner_skip(kind: KindTag, i: u64, word: u64) -> Option<Reason>
    ensures { result ≡ owner_skip kind i word }
{
    match kind {
        KindTag::Seq | KindTag::Bits => if word == i {
            None
        } else {
            Some(Reason::NotOwner)
        },
        KindTag::Multi => None,
    }
}

/// Returns the line at which an operation begins.
fn entry(listing: &Listing, op: Op) -> u64
    ensures { result ≡ entry listing.now op }
{
    match op {
        Op::Scan => listing.scan(),
        Op::Update { .. } => listing.update(),
    }
}

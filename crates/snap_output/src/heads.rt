//! `Heads`: the first line of each process in a report, as it was printed last, so that a trace
//! makes each of them once.
ghost use Rattle.std.specs.Prelude.{◌≡◌, ◌-◌, [], false, IfOk, OnOk, get_or, length, slice_set};
ghost use Rattle.snap_text.specs.Drafted.{Adds};
ghost use Rattle.snap_words.specs.Shape.{IsOneOf};
ghost use Rattle.snap_semantics.specs.Report.{head_line};
ghost use Rattle.snap_semantics.specs.State.{process_at};
ghost use Rattle.snap_output.specs.Touched.{changed_line, head_texts};

use snap_machine::Machine;
use snap_report::head_line;
use snap_text::Draft;
use snap_words::Kind;
use std::alloc::{AllocError, Global};
use std::marker::Model;
use std::mem;

/// The first line of each process in a report.
#[derive(Drop)]
pub(crate) struct Heads {
    lines: Vec<Draft>,
    /// Memory for the line that comes into the place of one of them.
    next: Draft,
}

impl Model for Heads {
    ghost use Rattle.std.specs.Prelude.{List, ℕ, map};
    ghost use Rattle.snap_text.specs.Drafted.{Drafted};

    ghost Value = { List (List ℕ) };

    ghost view = { λ h. map (λ (d : Drafted). d.text) h.lines.items };
}

/// Returns the first line of process `i`.
fn head_of<K: Kind>(alloc: Global, machine: &Machine<K>, i: u32) -> Result<Draft, AllocError>
    requires { IsOneOf machine.now.shape.n i }
    ensures { IfOk result (λ d. d.text ≡ head_line i (process_at machine.now.state i).status) }
{
    let mut line = Draft::new(alloc);
    head_line(&mut line, machine, i);
    let _well = line.text()?;
    Ok(line)
}

/// Appends a line behind `- ` and the one in its place behind `+ `, if they are not the same.
fn push_changed_line(out: &mut Draft, before: &[u8], after: &[u8])
    ensures { Adds out.old out.new (changed_line before.now after.now) }
{
    if before == after {
        return;
    }
    out.push(b"- ");
    out.push(before);
    out.push(b"+ ");
    out.push(after);
}

impl Heads {
    /// Returns the first lines of the processes of `machine`.
    pub(crate) fn of<K: Kind>(alloc: Global, machine: &Machine<K>) -> Result<Heads, AllocError>
        ensures { IfOk result (λ h. h ≡ head_texts 1 machine.now.state.processes) }
    {
        let mut lines = Vec::new(alloc);
        let shape = machine.shape();
        for k in 0..shape.n() {
            lines.push(head_of(alloc, machine, k as u32 + 1)?)?;
        }
        Ok(Heads {
            lines,
            next: Draft::new(alloc),
        })
    }

    /// Puts the first line of process `i` in the place of its last one, and appends the change.
    pub(crate) fn renew<K: Kind>(
        &mut self,
        out: &mut Draft,
        machine: &Machine<K>,
        i: u32,
    ) -> Result<(), AllocError>
        requires process { IsOneOf machine.now.shape.n i }
        requires count { length self.old ≡ machine.now.shape.n }
        ensures text { OnOk result (Adds out.old out.new (changed_line (get_or self.old (i - 1) [])
            (head_line i (process_at machine.now.state i).status))) }
        ensures lines { OnOk result (self.new ≡ slice_set self.old (i - 1)
            (head_line i (process_at machine.now.state i).status)) }
    {
        self.next.clear();
        head_line(&mut self.next, machine, i);
        let line = &mut self.lines[(i - 1) as usize];
        push_changed_line(out, line.text()?, self.next.text()?);
        mem::swap(line, &mut self.next);
        Ok(())
    }
}

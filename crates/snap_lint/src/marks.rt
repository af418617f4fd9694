//! `reached`: the lines of a listing to which edges of its flow of control lead from given start
//! lines, found by marking round by round.
ghost use Rattle.std.specs.Prelude.{◌≡◌, IfOk};
ghost use Rattle.snap_lint.specs.Marks.{is_in, is_led_to, next_marks, reached};

use crate::edges::Edge;
use snap_semantics::Line;
use std::alloc::{AllocError, Global};

/// Returns whether `number` is one of `numbers`.
pub fn is_in(numbers: &[u64], number: u64) -> bool
    ensures { result ≡ is_in numbers.now number }
{
    numbers.iter().any(|other| number == *other)
}

/// Returns whether an edge leads to this line from a marked one.
fn is_led_to(edges: &[Edge], marks: &[u64], number: u64) -> bool
    ensures { result ≡ is_led_to edges.now marks.now number }
{
    edges
        .iter()
        .any(|edge| edge.to == number && is_in(marks, edge.from))
}

/// Returns the marks of the next round.
fn next_marks(
    alloc: Global,
    lines: &[Line],
    edges: &[Edge],
    starts: &[u64],
    marks: &[u64],
) -> Result<Vec<u64>, AllocError>
    ensures { IfOk result (λ v. v.items ≡ next_marks lines.now edges.now starts.now marks.now) }
{
    let mut next = Vec::new(alloc);
    for line in lines {
        if is_in(starts, line.number) || is_led_to(edges, marks, line.number) {
            next.push(line.number)?;
        }
    }
    Ok(next)
}

/// Returns the lines that are reached from `starts` along `edges`.
///
/// # Errors
///
/// `AllocError` where memory runs out.
#[tactic(auto, unfolding(crate::specs::Marks::reached))]
pub fn reached(
    alloc: Global,
    lines: &[Line],
    edges: &[Edge],
    starts: &[u64],
) -> Result<Vec<u64>, AllocError>
    ensures { IfOk result (λ v. v.items ≡ reached lines.now edges.now starts.now) }
{
    let mut marks = Vec::new(alloc);
    for round in 0..lines.len() {
        marks = next_marks(alloc, lines, edges, starts, marks.as_slice())?;
    }
    Ok(marks)
}

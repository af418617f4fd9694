//! The SVG of spots: a spot is the mark in a process's lane that shows what one item did there.
ghost use Rattle.snap_text.specs.Drafted.{Adds};
ghost use Rattle.snap_picture.specs.ShapeText.{
  crash_path,
  crash_text,
  loan_text,
  loan_title,
  loan_words,
  read_path,
  read_text,
  span_text,
  spot_text,
  test_head,
  test_text,
  test_words,
  trail_text,
  trap_path,
  trap_text,
  write_text,
  write_title,
};

use crate::elements::{dot_text, group_head, line_text, path_head};
use crate::shape::{Loan, Read, Span, Spot, Write, Written};
use crate::window::{Window, y_of};
use snap_text::Draft;

/// Appends `process I, items A to B: `.
#[tactic(auto, unfolding(crate::specs::ShapeText::span_text))]
pub(crate) fn span_text(out: &mut Draft, span: Span)
    ensures { Adds out.old out.new (span_text span) }
{
    out.push(b"process ");
    out.push_number(u64::from(span.process));
    out.push(b", items ");
    out.push_number(span.from);
    out.push(b" to ");
    out.push_number(span.to);
    out.push(b": ");
}

/// Appends `item T, process I, line L: `.
#[tactic(auto, unfolding(crate::specs::ShapeText::spot_text))]
fn spot_text(out: &mut Draft, spot: Spot)
    ensures { Adds out.old out.new (spot_text spot) }
{
    out.push(b"item ");
    out.push_number(spot.item);
    out.push(b", process ");
    out.push_number(u64::from(spot.process));
    out.push(b", line ");
    out.push_number(spot.line);
    out.push(b": ");
}

/// Appends a path from the last write of a word to its read.
#[tactic(auto, unfolding(crate::specs::ShapeText::trail_text))]
fn trail_text(out: &mut Draft, window: &Window, spot: Spot, written: Option<Written>)
    ensures { Adds out.old out.new (trail_text window.now spot written) }
{
    let Some(written) = written else {
        return;
    };
    if !window.has_reads() {
        return;
    }
    line_text(
        out,
        b"trail",
        window.x_of(written.item),
        y_of(written.process) + 39,
        window.x_of(spot.item),
        y_of(spot.process) + 39,
    );
}

/// Appends a read, in a path.
#[tactic(auto, unfolding(crate::specs::ShapeText::read_path))]
fn read_path(out: &mut Draft, spot: Spot, word: u64, x: u64, y: u64)
    ensures { Adds out.old out.new (read_path spot word x y) }
{
    path_head(out, b"read", x, y, b"v10");
    spot_text(out, spot);
    out.push(b"reads r[");
    out.push_number(word);
    out.push(b"]</title></path>");
}

/// Appends a read.
#[tactic(auto, unfolding(crate::specs::ShapeText::read_text))]
pub(crate) fn read_text(out: &mut Draft, window: &Window, read: Read)
    ensures { Adds out.old out.new (read_text window.now read) }
{
    let spot = read.spot;
    read_path(
        out,
        spot,
        read.word,
        window.x_of(spot.item),
        y_of(spot.process) + 34,
    );
    trail_text(out, window, spot, read.written);
    out.push(b"\n");
}

/// Appends what is said of a write.
#[tactic(auto, unfolding(crate::specs::ShapeText::write_title))]
fn write_title(out: &mut Draft, write: &Write)
    ensures { Adds out.old out.new (write_title write.now) }
{
    spot_text(out, write.spot);
    out.push(b"writes r[");
    out.push_number(write.word);
    out.push(b"], values");
    out.push_numbers(write.values.as_slice());
    out.push(b"</title>");
}

/// Appends a write, with a line up to the values.
#[tactic(auto, unfolding(crate::specs::ShapeText::write_text))]
pub(crate) fn write_text(out: &mut Draft, window: &Window, write: &Write)
    ensures { Adds out.old out.new (write_text window.now write.now) }
{
    let x = window.x_of(write.spot.item);
    let y = y_of(write.spot.process) + 39;
    group_head(out, b"write");
    write_title(out, write);
    line_text(out, b"up", x, y, x, 118);
    dot_text(out, x, y);
    out.push(b"</g>\n");
}

/// Appends a tick for a test that passed, a cross for another one.
#[tactic(auto, unfolding(crate::specs::ShapeText::test_head))]
fn test_head(out: &mut Draft, x: u64, y: u64, passed: bool)
    ensures { Adds out.old out.new (test_head x y passed) }
{
    if passed {
        path_head(out, b"pass", x, y, b"m-5 0l4 5 7-11")
    } else {
        path_head(out, b"fail", x, y, b"m-4-4l8 8m0-8l-8 8");
    }
}

/// Appends whether a test passed.
fn test_words(out: &mut Draft, passed: bool)
    ensures { Adds out.old out.new (test_words passed) }
{
    if passed {
        out.push(b"a test that passes</title></path>\n")
    } else {
        out.push(b"a test that fails</title></path>\n");
    }
}

/// Appends a test.
#[tactic(auto, unfolding(crate::specs::ShapeText::test_text))]
pub(crate) fn test_text(out: &mut Draft, window: &Window, spot: Spot, passed: bool)
    ensures { Adds out.old out.new (test_text window.now spot passed) }
{
    test_head(out, window.x_of(spot.item), y_of(spot.process) + 39, passed);
    spot_text(out, spot);
    test_words(out, passed);
}

/// Appends a trap, in a path.
#[tactic(auto, unfolding(crate::specs::ShapeText::trap_path))]
fn trap_path(out: &mut Draft, spot: Spot, x: u64, y: u64)
    ensures { Adds out.old out.new (trap_path spot x y) }
{
    path_head(out, b"trap", x, y, b"l13 22h-26z");
    spot_text(out, spot);
    out.push(b"a trap</title></path>\n");
}

/// Appends a trap.
#[tactic(auto, unfolding(crate::specs::ShapeText::trap_text))]
pub(crate) fn trap_text(out: &mut Draft, window: &Window, spot: Spot)
    ensures { Adds out.old out.new (trap_text window.now spot) }
{
    trap_path(out, spot, window.x_of(spot.item), y_of(spot.process) + 8);
}

/// Appends a crash, in a path.
#[tactic(auto, unfolding(crate::specs::ShapeText::crash_path))]
fn crash_path(out: &mut Draft, spot: Spot, x: u64, y: u64)
    ensures { Adds out.old out.new (crash_path spot x y) }
{
    path_head(out, b"crash", x, y, b"m-11-11l22 22m0-22l-22 22");
    spot_text(out, spot);
    out.push(b"a crash</title></path>\n");
}

/// Appends a crash.
#[tactic(auto, unfolding(crate::specs::ShapeText::crash_text))]
pub(crate) fn crash_text(out: &mut Draft, window: &Window, spot: Spot)
    ensures { Adds out.old out.new (crash_text window.now spot) }
{
    crash_path(out, spot, window.x_of(spot.item), y_of(spot.process) + 28);
}

/// Appends what is said of a loan.
#[tactic(auto, unfolding(crate::specs::ShapeText::loan_words))]
fn loan_words(out: &mut Draft, taken: Spot, lender: u64, ended: u64)
    ensures { Adds out.old out.new (loan_words taken lender ended) }
{
    out.push(b"<g class=\"loan\"><title>");
    spot_text(out, taken);
    out.push(b"borrows the view of the scan that process ");
    out.push_number(lender);
    out.push(b" ended at item ");
    out.push_number(ended);
    out.push(b"</title>");
}

/// Appends what is said of a loan.
#[tactic(auto, unfolding(crate::specs::ShapeText::loan_title))]
fn loan_title(out: &mut Draft, loan: Loan)
    ensures { Adds out.old out.new (loan_title loan) }
{
    loan_words(out, loan.taken, u64::from(loan.lender), loan.ended);
}

/// Appends a loan: an arrow from the lender to the borrower.
#[tactic(auto, unfolding(crate::specs::ShapeText::loan_text))]
pub(crate) fn loan_text(out: &mut Draft, window: &Window, loan: Loan)
    ensures { Adds out.old out.new (loan_text window.now loan) }
{
    loan_title(out, loan);
    line_text(
        out,
        b"arrow",
        window.x_of(loan.ended),
        y_of(loan.lender) + 39,
        window.x_of(loan.taken.item),
        y_of(loan.taken.process) + 39,
    );
    out.push(b"</g>\n");
}

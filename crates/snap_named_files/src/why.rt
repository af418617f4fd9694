//! `explained`: what explains why one of the texts of named files is refused.
ghost use Rattle.std.specs.Prelude.{◌≡◌, IfOk, option_map};
ghost use Rattle.snap_named_files.specs.Explained.{explained, explanation_in, schedule_alone};
ghost use Rattle.snap_named_files.specs.Texts.{view_texts};

use crate::texts::Texts;
use snap_explanation::{Layout, explanation};
use snap_faults::ProgramFault;
use snap_semantics::Refusal;
use snap_tasks::Subject;
use snap_words::KindTag;
use std::alloc::{AllocError, Global};

/// Returns the layout of an input that is a schedule alone, whichever listing is shipped.
fn schedule_alone() -> Layout
    ensures { result ≡ schedule_alone }
{
    Layout::Parts(
        Subject::Shipped(KindTag::Seq),
        snap_explanation::Texts::Schedule,
    )
}

/// Returns what explains why one of `texts` is refused, or why none was read: of the listing, or
/// else of the schedule. For the schedule of a shipped listing it is what `snaplab run --shipped
/// KIND --explain` says.
fn explanation_in(
    alloc: Global,
    texts: Option<&Texts>,
    refusal: &Refusal,
) -> Result<Vec<u8>, AllocError>
    ensures { IfOk result (λ text. text.items
        ≡ explanation_in (option_map (λ t. view_texts t.now) texts.entry) refusal.now) }
{
    match (texts, refusal) {
        (None, _) => explanation(alloc, schedule_alone(), b"", refusal),
        (Some(Texts::Files(listing, _)), Refusal::Listing(_)) => {
            explanation(alloc, Layout::NamedListing, listing.as_slice(), refusal)
        }
        (Some(Texts::Files(_, schedule)), _) => {
            explanation(alloc, Layout::NamedSchedule, schedule.as_slice(), refusal)
        }
        (Some(Texts::Shipped(_, schedule)), _) => {
            explanation(alloc, schedule_alone(), schedule.as_slice(), refusal)
        }
    }
}

/// Returns what explains `fault`, where `explains`: why one of `texts` is refused, or why none was
/// read since it is too long. Nothing explains another fault.
///
/// # Errors
///
/// `AllocError` where memory runs out.
pub fn explained(
    alloc: Global,
    explains: bool,
    texts: Option<&Texts>,
    fault: &ProgramFault,
) -> Result<Vec<u8>, AllocError>
    ensures { IfOk result (λ more. more.items
        ≡ explained explains (option_map (λ t. view_texts t.now) texts.entry) fault.now) }
{
    match fault {
        ProgramFault::Refused(refusal) if explains => explanation_in(alloc, texts, refusal),
        ProgramFault::TooLong(_) if explains => {
            explanation_in(alloc, texts, &Refusal::InputTooLong)
        }
        _ => Ok(Vec::new(alloc)),
    }
}

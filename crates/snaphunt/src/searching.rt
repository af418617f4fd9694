//! `text_of`: the text of the listing in whose runs is hunted; `hunted_text`: what is printed of
//! what a hunt came to.
ghost use Rattle.std.specs.Prelude.{◌≡◌, ◌++◌, IfOk, Ok, OnOk};
ghost use Rattle.snap_semantics.specs.Listing.{listing_of};
ghost use Rattle.snap_shipped.specs.Shipped.{shipped};
ghost use Rattle.snaphunt.specs.Searching.{GivesText, hunted_text, none_text};
ghost use Rattle.snaphunt.specs.Search.{view_listed};

use crate::arguments::Listed;
use snap_faults::{ProgramFault, Which, of_file};
use snap_hunt_output::{HuntRequest, Hunted};
use snap_shipped::{text_b, text_m, text_u};
use snap_streams::FileSource;
use snap_text::Draft;
use snap_words::KindTag;
use std::alloc::{AllocError, Global};

/// The bytes that are too many for a listing.
const TOO_MANY: u64 = 16_777_217;

/// Returns the text of the listing that is shipped for a kind.
fn shipped_text(kind: KindTag) -> &'static [u8]
    ensures { listing_of result.now ≡ Ok (shipped kind) }
{
    match kind {
        KindTag::Seq => text_u(),
        KindTag::Bits => text_b(),
        KindTag::Multi => text_m(),
    }
}

/// Returns the text of the listing that is named.
#[tactic(auto, using(crate::proofs::Searches::file_read, crate::proofs::Searches::file_unread))]
pub(crate) fn text_of<F: FileSource>(
    alloc: Global,
    files: &F,
    listed: &Listed<'_>,
) -> Result<Vec<u8>, ProgramFault>
    ensures { GivesText (F.found files.now) (view_listed listed.now) result }
{
    match listed {
        Listed::File(name) => match files.read(alloc, name, TOO_MANY) {
            Ok(text) => Ok(text),
            Err(fault) => Err(of_file(Which::Listing, fault)),
        },
        Listed::Shipped(kind) => match Vec::from_slice(alloc, shipped_text(*kind)) {
            Ok(text) => Ok(text),
            Err(_) => Err(ProgramFault::Memory),
        },
    }
}

/// Returns what is printed if none of the runs fails.
fn none_text(alloc: Global, asked: &HuntRequest) -> Result<Vec<u8>, AllocError>
    ensures { IfOk result (λ text. text.items ≡ none_text asked.now) }
{
    let mut text = Draft::new(alloc);
    text.push(b"none of ");
    text.push_number(asked.runs);
    text.push(b" runs of seed ");
    text.push_number(asked.seed);
    text.push(b" fails\n");
    text.finish()
}

/// Returns what is printed of the result of a hunt.
pub(crate) fn hunted_text(
    alloc: Global,
    asked: &HuntRequest,
    hunted: &Hunted,
) -> Result<Vec<u8>, AllocError>
    ensures { IfOk result (λ text. text.items ≡ hunted_text asked.now hunted.now) }
{
    match hunted {
        Hunted::NoneFails => none_text(alloc, asked),
        Hunted::Fails { input, .. } => Vec::from_slice(alloc, input.as_slice()),
    }
}

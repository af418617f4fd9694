//! The laws of assembling texts to images, listing images as texts, loading images as programs and
//! upgrading images.
ghost use Rattle.snap_asm.specs.Laws.{KeepsCanonical, ListsBack, Upgrades};

use snap_image::what_is_encoded_is_decoded;
use snap_listing::{what_is_printed_is_read, what_is_read_with_comments_is_a_listing};

/// What is assembled lists back as the canonical text of its listing, decodes to that listing, and
/// is upgraded to itself.
pub fn what_is_assembled_lists_back()
    ensures { ListsBack }
{
    what_is_read_with_comments_is_a_listing();
    what_is_encoded_is_decoded();
}

/// A canonical text of at most 65,536 bytes lists back as itself.
pub fn what_is_canonical_is_kept()
    ensures { KeepsCanonical }
{
    what_is_printed_is_read();
    what_is_encoded_is_decoded();
}

/// An image of either version is upgraded to the image of the same listing in the second version.
pub fn what_is_encoded_is_upgraded()
    ensures { Upgrades }
{
    what_is_encoded_is_decoded();
}

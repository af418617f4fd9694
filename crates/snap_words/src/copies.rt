//! Copies of lists of words and of lists of views: `copy_words` and `copy_views`.
ghost use Rattle.std.specs.Prelude.{◌≡◌, IfOk};

use crate::kinds::Kind;
use crate::view::View;
use std::alloc::{AllocError, Global};

/// Returns copies of `words`, in their order.
///
/// # Errors
///
/// `AllocError` where there is no memory for the copies.
pub fn copy_words<K: Kind>(alloc: Global, words: &[K::Word]) -> Result<Vec<K::Word>, AllocError>
    ensures { IfOk result (λ copies. copies.items ≡ words.now) }
{
    let mut copies = Vec::new(alloc);
    for word in words {
        copies.push(K::copy(alloc, word)?)?;
    }
    Ok(copies)
}

/// Returns copies of `views`, in their order.
///
/// # Errors
///
/// `AllocError` where there is no memory for the copies.
pub fn copy_views(alloc: Global, views: &[View]) -> Result<Vec<View>, AllocError>
    ensures { IfOk result (λ copies. copies.items ≡ views.now) }
{
    let mut copies = Vec::new(alloc);
    for view in views {
        copies.push(view.copy(alloc)?)?;
    }
    Ok(copies)
}

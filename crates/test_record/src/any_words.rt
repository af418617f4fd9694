//! Words of any kind, from which the tests build words of a kind.
ghost use Rattle.std.specs.Prelude.{◌≡◌, IfOk, length};

use snap_words::{AnyWord, View};
use std::alloc::{AllocError, Global};

/// Returns a word for 64 processes and two words: the last handshake bit is 1, all others are 0.
///
/// # Errors
///
/// `AllocError` where memory runs out.
pub fn parts_of_many(alloc: Global) -> Result<AnyWord, AllocError>
    ensures { IfOk result (λ p. (length p.handshakes ≡ 64) × (length p.view ≡ 2)) }
{
    let mut handshakes = vec![in alloc; 0; 64]?;
    handshakes[63] = 1;
    Ok(AnyWord {
        datum: 7,
        seq: 8,
        id: 9,
        toggle: 1,
        handshakes: View::of(handshakes),
        view: View::of(vec![in alloc; 5, 6]?),
    })
}

/// Returns a word for two processes and two words.
///
/// # Errors
///
/// `AllocError` where memory runs out.
pub fn parts(alloc: Global, toggle: u64, last_handshake: u64) -> Result<AnyWord, AllocError>
    ensures { IfOk result (λ p. (length p.handshakes ≡ 2) × (length p.view ≡ 2)) }
{
    Ok(AnyWord {
        datum: 7,
        seq: 8,
        id: 9,
        toggle,
        handshakes: View::of(vec![in alloc; 0, last_handshake]?),
        view: View::of(vec![in alloc; 5, 6]?),
    })
}

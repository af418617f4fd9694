//! The trait `Kind` of the kinds of registers `Seq`, `Bits`
//! and `Multi`: what their words have, and who may write them.
ghost use Rattle.std.specs.Prelude.{◌≡◌, true, false, IfOk, MatchResult, length, option_map};
ghost use Rattle.snap_words.specs.Kind.{fits, initial_word, may_write, has_bank};
ghost use Rattle.snap_words.specs.Kind.{field_in, handshake_in, has_handshakes};
ghost use Rattle.snap_words.specs.Kind.{view_in, kept, has_bits, is_sized};
ghost use Rattle.snap_words.specs.AnyWord.{word_of_any};
ghost use Rattle.snap_words.specs.Word.{Word};
ghost use Rattle.snap_words.specs.declared.kind.KindTag.{KindTag};
ghost use Rattle.snap_words.specs.declared.shape.WordFault.TheVariants.{NotABit};

mod bits;
mod multi;
mod seq;

use crate::address::{Address, Bank};
use crate::any_word::AnyWord;
use crate::kind::{Field, KindTag};
use crate::shape::{Shape, WordFault};
use crate::view::View;
pub use bits::{Bits, BitsWord};
pub use multi::{Multi, MultiWord};
pub use seq::{Seq, SeqWord};
use std::alloc::{AllocError, Global};

/// A kind of registers: what its words have, and who may write them.
pub trait Kind: Send + Sync {
    type Word: Drop + Send + Sync;

    ghost TAG: { KindTag };

    const TAG: KindTag;

    /// The fields of a word, as those of a word of any kind; what the kind lacks is 0 or empty.
    ghost as_word: { Self.Word → Word };

    /// Returns whether registers of this kind can have `shape`.
    fn fits(shape: Shape) -> bool
        ensures { result ≡ fits TAG shape };

    /// Returns the word of a register that nobody has written.
    ///
    /// # Errors
    ///
    /// `AllocError` where there is no memory for the word.
    fn initial(alloc: Global, shape: Shape) -> Result<Self::Word, AllocError>
        ensures { IfOk result (λ w. as_word w ≡ initial_word TAG shape) };

    /// Returns a field that is one number; `None` where the kind lacks it.
    fn field(word: &Self::Word, field: Field) -> Option<u64>
        ensures { result ≡ field_in TAG field (as_word word.now) };

    /// Returns handshake bit `i`, counted from 1; `None` where the word has no such bit.
    fn handshake(word: &Self::Word, i: u32) -> Option<u64>
        ensures { result ≡ handshake_in TAG i (as_word word.now) };

    /// Returns how many handshake bits the word has, 0 where the kind has none.
    fn handshake_count(word: &Self::Word) -> u32
        ensures count { result ≡ length (as_word word.now).handshakes }
        ensures lack { has_handshakes TAG ≡ false → result ≡ 0 };

    /// Returns the view of the word; `None` where the kind has none.
    fn view(word: &Self::Word) -> Option<&View>
        ensures { option_map (λ v. v.now) result ≡ view_in TAG (as_word word.now) };

    /// Returns the word that has the fields of `given` that the kind has. No memory is allocated.
    ///
    /// # Errors
    ///
    /// `NotABit` where the toggle or one of the handshake bits of the word is not 0 or 1.
    fn build(shape: Shape, given: AnyWord) -> Result<Self::Word, WordFault>
        requires { is_sized TAG shape (word_of_any given) ≡ true }
        ensures { MatchResult result
            (λ w. (as_word w ≡ kept TAG (word_of_any given))
            × (has_bits TAG (word_of_any given) ≡ true))
            (λ e. (e ≡ NotABit) × (has_bits TAG (word_of_any given) ≡ false)) };

    /// Returns a copy of `word`.
    ///
    /// # Errors
    ///
    /// `AllocError` where there is no memory for the copy.
    fn copy(alloc: Global, word: &Self::Word) -> Result<Self::Word, AllocError>
        ensures { IfOk result (λ w. w ≡ word.now) };

    /// Returns whether process `who`, counted from 1, may write the register at `address`.
    fn may_write(who: u32, address: Address) -> bool
        ensures { result ≡ may_write TAG who address.bank address.i };

    /// Returns whether registers of this kind have `bank`.
    fn has_bank(bank: Bank) -> bool
        ensures { result ≡ has_bank TAG bank };

    /// Words that are the same as words of any kind are equal.
    ghost equal: { (x y : Self.Word) → as_word x ≡ as_word y → x ≡ y };

    /// A kind keeps all of its own words.
    ghost keeps: { (x : Self.Word) → kept TAG (as_word x) ≡ as_word x };

    /// The toggle and the handshake bits of a word are bits.
    ghost has_only_bits: { (x : Self.Word) → has_bits TAG (as_word x) ≡ true };
}

//! `Draft`: a text that is put together.
ghost use Rattle.std.specs.Prelude.{◌≡◌, [], false, true, decimal, MatchResult};
ghost use Rattle.snap_semantics.specs.Report.{numbers_text};
ghost use Rattle.snap_semantics.specs.Layout.{line_text};
ghost use Rattle.snap_text.specs.Tokens.{view_tokens};
ghost use Rattle.snap_text.specs.Drafted.{Adds};

use crate::layout::push_laid_out;
use crate::lexer::Token;
use crate::push::{push_number, push_numbers, push_text};
use std::alloc::{AllocError, Global};
use std::marker::Model;

/// A text that is put together piece by piece. Once memory ran out for a piece, the draft has
/// failed, and takes no more.
#[derive(Drop)]
pub struct Draft {
    bytes: Vec<u8>,
    failed: bool,
}

impl Model for Draft {
    ghost use Rattle.snap_text.specs.Drafted.{Drafted};

    ghost Value = { Drafted };

    ghost view = { λ d. record { text = d.bytes.items; failed = d.failed } };
}

impl Draft {
    /// Returns an empty draft.
    pub fn new(alloc: Global) -> Draft
        ensures text { result.text ≡ [] }
        ensures well { result.failed ≡ false }
    {
        Draft {
            bytes: Vec::new(alloc),
            failed: false,
        }
    }

    /// Returns a draft that goes on behind `text`.
    pub fn of(text: Vec<u8>) -> Draft
        ensures text { result.text ≡ text.items }
        ensures well { result.failed ≡ false }
    {
        Draft {
            bytes: text,
            failed: false,
        }
    }

    /// Begins the draft anew, in the same memory.
    pub fn clear(&mut self)
        ensures text { self.new.text ≡ [] }
        ensures well { self.new.failed ≡ false }
    {
        self.bytes.clear();
        self.failed = false;
    }

    /// Fails, since memory ran out for a piece that was made elsewhere.
    pub fn fail(&mut self, _error: AllocError)
        ensures { self.new.failed ≡ true }
    {
        self.failed = true;
    }

    /// Appends `text`.
    #[inline(always)]
    pub fn push(&mut self, text: &[u8])
        ensures { Adds self.old self.new text.now }
    {
        if !self.failed {
            self.failed = push_text(&mut self.bytes, text).is_err();
        }
    }

    /// Appends `number` in decimal digits.
    #[inline(always)]
    pub fn push_number(&mut self, number: u64)
        ensures { Adds self.old self.new (decimal number) }
    {
        if !self.failed {
            self.failed = push_number(&mut self.bytes, number).is_err();
        }
    }

    /// Appends each of `numbers` behind a space.
    pub fn push_numbers(&mut self, numbers: &[u64])
        ensures { Adds self.old self.new (numbers_text numbers.now) }
    {
        if !self.failed {
            self.failed = push_numbers(&mut self.bytes, numbers).is_err();
        }
    }

    /// Appends the line of `tokens`, laid out.
    pub fn push_laid_out(&mut self, tokens: &[Token<'_>])
        ensures { Adds self.old self.new (line_text (view_tokens tokens.now)) }
    {
        if !self.failed {
            self.failed = push_laid_out(&mut self.bytes, tokens).is_err();
        }
    }

    /// Returns the text as far as it is put together.
    ///
    /// # Errors
    ///
    /// `AllocError` where memory ran out for one of the pieces.
    pub fn text(&self) -> Result<&[u8], AllocError>
        ensures { MatchResult result
            (λ text. (self.now.failed ≡ false) × (text.now ≡ self.now.text))
            (λ _. self.now.failed ≡ true) }
    {
        if !self.failed {
            return Ok(self.bytes.as_slice());
        }
        Err(AllocError)
    }

    /// Returns the whole text.
    ///
    /// # Errors
    ///
    /// `AllocError` where memory ran out for one of the pieces.
    pub fn finish(self) -> Result<Vec<u8>, AllocError>
        ensures { MatchResult result (λ text. (self.failed ≡ false) × (text.items ≡ self.text))
            (λ _. self.failed ≡ true) }
    {
        if self.failed {
            return Err(AllocError);
        }
        Ok(self.bytes)
    }
}

//! `TextLines`: the lines of a text that have tokens, one by one, each with its number and its
//! tokens or its one or two numbers.
ghost use Rattle.std.specs.Prelude.{◌≡◌, ◌<◌, length, IfOk, OnErr, option_map, ◌∷◌};
ghost use Rattle.snap_semantics.specs.Token.{TextLine, lines_of, numbered, text_lines};
ghost use Rattle.snap_text.specs.Tokens.{view_tokens, has_tokens};
ghost use Rattle.snap_text.specs.Lines.{IsNext};
ghost use Rattle.snap_text.specs.Numbers.{IsNextNumbers};
ghost use Rattle.snap_text.specs.Calls.{IsNextCall};

use crate::calls::call_front;
use crate::lexer::{Token, tokens};
use crate::numbers::numbers_front;
use snap_semantics::Op;
use std::alloc::{AllocError, Global};
use std::marker::Model;

/// A line that has tokens: its number, and its tokens, or none where a byte begins no token.
#[derive(Drop)]
pub struct TokenLine<'a> {
    pub number: u64,
    pub tokens: Option<Vec<Token<'a>>>,
}

/// A line that is a number, or a number, `*` and a second one: the line's own number, and the
/// numbers on it.
#[derive(Clone, Copy)]
pub struct NumberLine {
    pub number: u64,
    pub first: u64,
    pub second: Option<u64>,
}

/// A line that is a call: the line's own number, the process, and the operation that it calls.
#[derive(Clone, Copy)]
pub struct CallLine {
    pub number: u64,
    pub process: u64,
    pub op: Op,
}

/// The lines of a text that have tokens, seen as the list of those that are left.
#[derive(Drop)]
pub struct TextLines<'a> {
    number: u64,
    rest: &'a [u8],
}

impl<'a> Model for TextLines<'a> {
    ghost use Rattle.std.specs.Prelude.{List, ◌+◌, ◌<◌, ◌^◌, length};
    ghost use Rattle.snap_semantics.specs.Token.{TextLine, lines_of, numbered};

    ghost Value = { List TextLine };

    ghost view = { λ c. numbered c.number (lines_of c.rest.now) };

    ghost invariant = { λ c. c.number + length c.rest.now < 2 ^ 64 };
}

/// Returns the first line, without its line feed, and the lines behind it.
pub fn split_line(bytes: &[u8]) -> (&[u8], &[u8])
    requires { 0 < length bytes.now }
    ensures lines { lines_of bytes.now ≡ result.0.now ∷ lines_of result.1.now }
    ensures shorter { length result.1.now < length bytes.now }
{
    let mut len = 0;
    while len < bytes.len() {
        if bytes[len] == b'\n' {
            return (&bytes[..len], &bytes[len + 1..]);
        }
        len += 1;
    }
    (bytes, &bytes[bytes.len()..])
}

/// Returns whether a line is more than space.
fn has_tokens(found: &Option<Vec<Token<'_>>>) -> bool
    ensures { result ≡ has_tokens (option_map (λ ts. view_tokens ts.items) found.now) }
{
    match found {
        Some(tokens) => !tokens.is_empty(),
        None => true,
    }
}

impl<'a> TextLines<'a> {
    /// Returns the lines of `text`, with none taken.
    pub fn new(text: &'a [u8]) -> TextLines<'a>
        ensures { result ≡ text_lines text.now }
    {
        TextLines {
            number: 1,
            rest: text,
        }
    }

    /// Takes the next line if it is `I` or `I*K` and its line feed, with no space or comment and
    /// numbers of at most nine digits; otherwise takes none.
    #[inline(always)]
    pub fn next_numbers(&mut self) -> Option<NumberLine>
        ensures { IsNextNumbers result self.old self.new }
    {
        let (first, second, after) = numbers_front(self.rest)?;
        let number = self.number;
        self.rest = after;
        self.number = number + 1;
        Some(NumberLine {
            number,
            first,
            second,
        })
    }

    /// Takes the next line if it is `I scan` or `I update K X` and its line feed, with one space
    /// between any two words, no comment, and numbers of at most nine digits; otherwise takes none.
    pub fn next_call(&mut self) -> Option<CallLine>
        ensures { IsNextCall result self.old self.new }
    {
        let (process, op, after) = call_front(self.rest)?;
        let number = self.number;
        self.rest = after;
        self.number = number + 1;
        Some(CallLine {
            number,
            process,
            op,
        })
    }

    /// Takes the next line that has tokens; `None` where none is left.
    ///
    /// # Errors
    ///
    /// `AllocError` where memory runs out.
    #[inline(always)]
    pub fn next_line(&mut self, alloc: Global) -> Result<Option<TokenLine<'a>>, AllocError>
        ensures next { IfOk result (λ line. IsNext line self.old self.new) }
        ensures unchanged { OnErr result (self.new ≡ self.old) }
    {
        while !self.rest.is_empty() {
            let (line, after) = split_line(self.rest);
            let found = tokens(alloc, line)?;
            let number = self.number;
            self.rest = after;
            self.number = number + 1;
            if has_tokens(&found) {
                return Ok(Some(TokenLine {
                    number,
                    tokens: found,
                }));
            }
        }
        Ok(None)
    }
}

/// Returns how many lines `text` has; a last one without line feed counts.
pub fn line_count(text: &[u8]) -> u64
    ensures { result ≡ length (lines_of text.now) }
{
    let mut count = 0;
    let mut rest = text;
    while !rest.is_empty() {
        let (_, after) = split_line(rest);
        count += 1;
        rest = after;
    }
    count
}

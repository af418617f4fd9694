//! Reads the header lines of a listing: its kind, the
//! names of each sort of locals, and its two entries.
ghost use Rattle.std.specs.Prelude.{◌≡◌, ◌++◌, map, IfOk};
ghost use Rattle.std.specs.List.{list_all};
ghost use Rattle.snap_semantics.specs.Answers.{Answers};
ghost use Rattle.snap_semantics.specs.HeaderForms.{kind_of_keyword, kind_form};
ghost use Rattle.snap_semantics.specs.HeaderForms.{names_form, entry_form};
ghost use Rattle.snap_semantics.specs.Listing.{header_line, is_bad_name};
ghost use Rattle.snap_semantics.specs.Listing.{new_names, names_line, header_of};
ghost use Rattle.snap_semantics.specs.Uses.{is_among};
ghost use Rattle.snap_listing_core.specs.Fields.{header_source};
ghost use Rattle.snap_listing.specs.ReaderSteps.{next_header, is_identifier};
ghost use Rattle.snap_listing.specs.ReaderSteps.{letters_of, new_name};
ghost use Rattle.snap_text.specs.Lines.{view_line};
ghost use Rattle.snap_text.specs.Tokens.{Finds, view_tokens};

use crate::fault::ListingFault;
use crate::forms::{is_line_number, is_reserved};
use crate::uses::is_among;
use snap_listing_core::Header;
use snap_semantics::{ListingRefusal, Name};
use snap_text::{TextLines, Token, TokenLine, end_at, identifier_at, keyword_at, number_at};
use snap_words::KindTag;
use std::alloc::Global;

/// Returns the kind that an identifier names.
fn kind_of_keyword(word: &[u8]) -> Option<KindTag>
    ensures { result ≡ kind_of_keyword word.now }
{
    if word == b"seq".as_slice() {
        Some(KindTag::Seq)
    } else if word == b"bit".as_slice() {
        Some(KindTag::Bits)
    } else if word == b"multi".as_slice() {
        Some(KindTag::Multi)
    } else {
        None
    }
}

/// Reads `kind seq`, `kind bit` or `kind multi`.
#[tactic(auto, unfolding(snap_semantics::specs::HeaderForms::kind_form))]
fn kind_form(tokens: &[Token<'_>]) -> Option<KindTag>
    ensures { Finds (λ x. x) result (kind_form (view_tokens tokens.now)) }
{
    let rest = keyword_at(b"kind", tokens)?;
    let (word, rest) = identifier_at(rest)?;
    let kind = kind_of_keyword(word)?;
    end_at(rest)?;
    Some(kind)
}

/// Returns the letters of an identifier.
fn letters_of<'a>(token: Token<'a>) -> &'a [u8]
    ensures { result.now ≡ letters_of token.entry }
{
    match token {
        Token::Identifier(letters) => letters,
        _ => b"",
    }
}

/// Returns whether all tokens are identifiers.
fn are_identifiers(tokens: &[Token<'_>]) -> bool
    ensures { result ≡ list_all is_identifier tokens.now }
{
    tokens
        .iter()
        .all(|token| matches!(token, Token::Identifier(_)))
}

/// Reads a keyword and identifiers, and returns the identifiers.
#[tactic(auto, using(crate::proofs::Names::words_found, crate::proofs::Names::words_missed), unfolding(snap_semantics::specs::HeaderForms::names_form))]
fn names_form<'a, 'b>(keyword: &[u8], tokens: &'a [Token<'b>]) -> Option<&'a [Token<'b>]>
    ensures { Finds (λ words. map letters_of words.now) result
        (names_form keyword.now (view_tokens tokens.now)) }
{
    let rest = keyword_at(keyword, tokens)?;
    if are_identifiers(rest) {
        Some(rest)
    } else {
        None
    }
}

/// Reads a keyword and a line number.
#[tactic(auto, unfolding(snap_semantics::specs::HeaderForms::entry_form))]
fn entry_form(keyword: &[u8], tokens: &[Token<'_>]) -> Option<u64>
    ensures { Finds (λ x. x) result (entry_form keyword.now (view_tokens tokens.now)) }
{
    let rest = keyword_at(keyword, tokens)?;
    let (number, rest) = number_at(rest)?;
    end_at(rest)?;
    if is_line_number(number) {
        Some(number)
    } else {
        None
    }
}

/// Reads the next header line; `after` is the number of the line that is missing where there is
/// none.
fn next_header<'a>(
    alloc: Global,
    after: u64,
    lines: &mut TextLines<'a>,
) -> Result<TokenLine<'a>, ListingFault>
    ensures { Answers (λ line. (view_line line, lines.new)) result (next_header after lines.old) }
{
    match lines.next_line(alloc)? {
        Some(line) => Ok(line),
        None => Err(ListingFault::Refused(ListingRefusal::BadHeader(after))),
    }
}

/// Reads the line of the kind, and returns its number too.
fn kind_line(
    alloc: Global,
    after: u64,
    lines: &mut TextLines<'_>,
) -> Result<(KindTag, u64), ListingFault>
    ensures { Answers (λ x. (x.0, x.1, lines.new)) result (header_line after kind_form lines.old) }
{
    let line = next_header(alloc, after, lines)?;
    let refusal = ListingFault::Refused(ListingRefusal::BadHeader(line.number));
    let Some(tokens) = &line.tokens else {
        return Err(refusal);
    };
    match kind_form(tokens.as_slice()) {
        Some(kind) => Ok((kind, line.number)),
        None => Err(refusal),
    }
}

/// Reads the line of an entry, and returns its number too.
fn entry_line(
    alloc: Global,
    after: u64,
    keyword: &[u8],
    lines: &mut TextLines<'_>,
) -> Result<(u64, u64), ListingFault>
    ensures { Answers (λ x. (x.0, x.1, lines.new)) result
        (header_line after (entry_form keyword.now) lines.old) }
{
    let line = next_header(alloc, after, lines)?;
    let refusal = ListingFault::Refused(ListingRefusal::BadHeader(line.number));
    let Some(tokens) = &line.tokens else {
        return Err(refusal);
    };
    match entry_form(keyword, tokens.as_slice()) {
        Some(number) => Ok((number, line.number)),
        None => Err(refusal),
    }
}

/// Returns whether an identifier may not be declared.
fn is_bad_name(word: &[u8]) -> bool
    ensures { result ≡ is_bad_name word.now }
{
    word.len() > 8 || is_reserved(word)
}

/// Returns the name that an identifier of a header line declares, behind those that are declared
/// already.
fn new_name(line: u64, known: &[Name], word: &[u8]) -> Result<Name, ListingRefusal>
    ensures { result ≡ new_name line known.now word.now }
{
    if is_bad_name(word) {
        Err(ListingRefusal::BadName(line))
    } else if is_among(word, known) {
        Err(ListingRefusal::NameTwice(line))
    } else if known.len() >= 32 {
        Err(ListingRefusal::TooMany(line))
    } else {
        Ok(Name::of(word))
    }
}

/// Returns the names that the identifiers of a header line declare, and adds them to the names that
/// are declared already.
fn new_names(
    alloc: Global,
    line: u64,
    known: &mut Vec<Name>,
    words: &[Token<'_>],
) -> Result<Vec<Name>, ListingFault>
    ensures names { Answers (λ names. names.items) result (new_names line known.old.items
        (map letters_of words.now)) }
    ensures known { IfOk result (λ names. known.new.items ≡ known.old.items ++ names.items) }
{
    let mut names = Vec::new(alloc);
    for token in words {
        let name = new_name(line, known.as_slice(), letters_of(*token))?;
        known.push(name)?;
        names.push(name)?;
    }
    Ok(names)
}

/// Reads the line of a sort of locals, and adds its names to those that are declared already.
fn names_line(
    alloc: Global,
    after: u64,
    keyword: &[u8],
    known: &mut Vec<Name>,
    lines: &mut TextLines<'_>,
) -> Result<Vec<Name>, ListingFault>
    ensures names { Answers (λ names. (names.items, lines.new)) result
        (names_line after keyword.now known.old.items lines.old) }
    ensures known { IfOk result (λ names. known.new.items ≡ known.old.items ++ names.items) }
{
    let line = next_header(alloc, after, lines)?;
    let refusal = ListingFault::Refused(ListingRefusal::BadHeader(line.number));
    let Some(tokens) = &line.tokens else {
        return Err(refusal);
    };
    match names_form(keyword, tokens.as_slice()) {
        Some(words) => new_names(alloc, line.number, known, words),
        None => Err(refusal),
    }
}

/// Reads the header of a listing. Where a header line is missing, `after` is the number of the line
/// that is refused.
///
/// # Errors
///
/// `Refused` with the first reason why the lines are no header; `Memory` where memory runs out.
#[tactic(auto, unfolding(snap_semantics::specs::Listing::header_of))]
pub fn header_of(
    alloc: Global,
    after: u64,
    lines: &mut TextLines<'_>,
) -> Result<Header, ListingFault>
    ensures { Answers (λ header. (header_source header, lines.new)) result
        (header_of after lines.old) }
{
    let (kind, _) = kind_line(alloc, after, lines)?;
    let mut known = Vec::new(alloc);
    let scalars = names_line(alloc, after, b"scalar", &mut known, lines)?;
    let rows = names_line(alloc, after, b"row", &mut known, lines)?;
    let words = names_line(alloc, after, b"words", &mut known, lines)?;
    let views = names_line(alloc, after, b"view", &mut known, lines)?;
    let (scan, _) = entry_line(alloc, after, b"scan", lines)?;
    let (update, _) = entry_line(alloc, after, b"update", lines)?;
    Ok(Header {
        kind,
        scalars,
        rows,
        words,
        views,
        scan,
        update,
    })
}

//! `lost_in`: where a line of an input is lost, the first token with which no line of its sort goes
//! on, and what is wanted there.
ghost use Rattle.std.specs.Prelude.{◌≡◌, ◌++◌, ◌||◌, IfOk, option_map};
ghost use Rattle.snap_text.specs.Tokens.{view_token};
ghost use Rattle.snap_explanation.specs.Grammar.{may_pass, same_part};
ghost use Rattle.snap_explanation.specs.Lost.{step, may_end, lost, parts_of_header, parts_of_line};
ghost use Rattle.snap_explanation.specs.Lost.{lost_in};
ghost use Rattle.snap_explanation.specs.Steps.{placed_tokens, view_lost, view_wanted};

use crate::forms::{TokenStep, after, may_pass, same_part};
use crate::line_sorts::{Header, LineSort};
use crate::parts::Part;
use crate::pieces::PlacedToken;
use snap_text::Token;
use std::alloc::{AllocError, Global};

/// What is wanted in a row, and whether `@` is an index there.
#[derive(Drop)]
pub struct Wanted {
    pub parts: Vec<Part>,
    pub places: bool,
}

/// A place in a line: how many tokens stand before it, and what was wanted there.
#[derive(Drop)]
pub struct LostPlace {
    pub before: usize,
    pub wanted: Wanted,
}

/// Returns three lists of parts, one behind the other.
fn joined(
    alloc: Global,
    first: &[Part],
    second: &[Part],
    third: &[Part],
) -> Result<Vec<Part>, AllocError>
    ensures { IfOk result (λ parts. parts.items ≡ (first.now ++ second.now) ++ third.now) }
{
    let mut parts = Vec::from_slice(alloc, first)?;
    parts.extend_from_slice(second)?;
    parts.extend_from_slice(third)?;
    Ok(parts)
}

/// Returns what is wanted behind `token`; `None` if the line does not go on with it.
fn step(
    alloc: Global,
    token: &Token<'_>,
    places: bool,
    parts: &[Part],
) -> Result<Option<Wanted>, AllocError>
    ensures { IfOk result (λ next. option_map view_wanted next
        ≡ step places (view_token token.now) parts.now) }
{
    let mut rest = parts;
    while let [first, behind @ ..] = rest {
        match after(places, *first, token) {
            TokenStep::Takes(next, more) => {
                return Ok(Some(Wanted {
                    parts: joined(alloc, next, more, behind)?,
                    places: places || same_part(*first, Part::Range),
                }));
            }
            TokenStep::Passes => rest = behind,
            TokenStep::Refuses => return Ok(None),
        }
    }
    Ok(None)
}

/// Returns whether a line may end where `parts` are wanted in a row.
fn may_end(parts: &[Part]) -> bool
    ensures { result ≡ may_end parts.now }
{
    let mut rest = parts;
    while let [first, behind @ ..] = rest {
        if !may_pass(*first) {
            return false;
        }
        rest = behind;
    }
    true
}

/// Returns where tokens are lost of which `wanted` are wanted in a row.
fn lost(
    alloc: Global,
    wanted: Wanted,
    tokens: &[PlacedToken<'_>],
) -> Result<Option<LostPlace>, AllocError>
    ensures { IfOk result (λ place. option_map view_lost place
        ≡ lost 0 (view_wanted wanted) (placed_tokens tokens.now)) }
{
    let mut wanted = wanted;
    let mut before = 0;
    while before < tokens.len() {
        let token = &tokens[before].token;
        match step(alloc, token, wanted.places, wanted.parts.as_slice())? {
            Some(next) => wanted = next,
            None => return Ok(Some(LostPlace { before, wanted })),
        }
        before += 1;
    }
    if may_end(wanted.parts.as_slice()) {
        Ok(None)
    } else {
        Ok(Some(LostPlace { before, wanted }))
    }
}

/// Returns the parts of a header line.
fn parts_of_header(header: Header) -> &'static [Part]
    ensures { result.now ≡ parts_of_header header }
{
    match header {
        Header::Kind => &[Part::Kind, Part::KindName],
        Header::Scalars => &[Part::Scalar, Part::Names],
        Header::Rows => &[Part::Row, Part::Names],
        Header::Words => &[Part::Words, Part::Names],
        Header::Views => &[Part::View, Part::Names],
        Header::Scan => &[Part::Scan, Part::LineNumber],
        Header::Update => &[Part::Update, Part::LineNumber],
    }
}

/// Returns the parts of a line of this sort.
fn parts_of_line(sort: LineSort) -> &'static [Part]
    ensures { result.now ≡ parts_of_line sort }
{
    match sort {
        LineSort::Header(header) => parts_of_header(header),
        LineSort::Numbered => &[Part::LineNumber, Part::Colon, Part::Instruction],
        LineSort::Shape => &[Part::Shape, Part::Count, Part::Count],
        LineSort::Item => &[Part::Process, Part::Act],
        LineSort::Script => &[Part::Process, Part::ScriptAct],
        LineSort::Command => &[Part::Command],
    }
}

/// Returns where a line of this sort is lost: the first token with which no line of its sort goes
/// on, or the end of the line; `None` if it has the form of such a line.
///
/// # Errors
///
/// `AllocError` where memory runs out.
pub fn lost_in(
    alloc: Global,
    sort: LineSort,
    tokens: &[PlacedToken<'_>],
) -> Result<Option<LostPlace>, AllocError>
    ensures { IfOk result (λ place. option_map view_lost place
        ≡ lost_in sort (placed_tokens tokens.now)) }
{
    let parts = Vec::from_slice(alloc, parts_of_line(sort))?;
    let places = false;
    lost(alloc, Wanted { parts, places }, tokens)
}

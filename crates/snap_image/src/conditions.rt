//! Reads comparisons and conditions from an image.
ghost use Rattle.std.specs.Prelude.{◌≡◌};
ghost use Rattle.snap_image.specs.ImageForms.{comparison_in, one_in, two_in};
ghost use Rattle.snap_image.specs.ImageForms.{three_in, four_in, comparisons_in};
ghost use Rattle.snap_image.specs.ImageForms.{condition_in, where_of_flag, where_in};
ghost use Rattle.snap_listing_core.specs.Fields.{header_source};
ghost use Rattle.snap_image.specs.Reads.{Reads};

use crate::cursor::Cursor;
use crate::terms::term;
use snap_listing_core::Header;
use snap_semantics::{Comparison, Condition, ImageRefusal, Join, Relation};

/// Reads a comparison.
#[tactic(auto, unfolding(crate::specs::ImageForms::comparison_in))]
fn comparison(
    header: &Header,
    line: u64,
    in_quantifier: bool,
    cursor: &mut Cursor<'_>,
) -> Result<Comparison, ImageRefusal>
    ensures { Reads result cursor.new (comparison_in (header_source header.now) line in_quantifier
        cursor.old) }
{
    let relation = cursor.code::<Relation>()?;
    let left = term(header, line, in_quantifier, cursor)?;
    let right = term(header, line, in_quantifier, cursor)?;
    Ok(Comparison {
        left,
        relation,
        right,
    })
}

/// Reads one comparison; the join before it, behind `at` bytes, has to be `and`.
#[tactic(auto, unfolding(crate::specs::ImageForms::one_in))]
fn one(
    header: &Header,
    line: u64,
    in_quantifier: bool,
    at: u64,
    join: Join,
    cursor: &mut Cursor<'_>,
) -> Result<Condition, ImageRefusal>
    ensures { Reads result cursor.new (one_in (header_source header.now) line in_quantifier at join
        cursor.old) }
{
    match join {
        Join::And => {
            let first = comparison(header, line, in_quantifier, cursor)?;
            Ok(Condition::One(first))
        }
        Join::Or => Err(ImageRefusal::BadCode(at)),
    }
}

/// Reads two comparisons.
#[tactic(auto, unfolding(crate::specs::ImageForms::two_in))]
fn two(
    header: &Header,
    line: u64,
    in_quantifier: bool,
    join: Join,
    cursor: &mut Cursor<'_>,
) -> Result<Condition, ImageRefusal>
    ensures { Reads result cursor.new (two_in (header_source header.now) line in_quantifier join
        cursor.old) }
{
    let first = comparison(header, line, in_quantifier, cursor)?;
    let second = comparison(header, line, in_quantifier, cursor)?;
    Ok(Condition::Two(join, first, second))
}

/// Reads three comparisons.
#[tactic(auto, unfolding(crate::specs::ImageForms::three_in))]
fn three(
    header: &Header,
    line: u64,
    in_quantifier: bool,
    join: Join,
    cursor: &mut Cursor<'_>,
) -> Result<Condition, ImageRefusal>
    ensures { Reads result cursor.new (three_in (header_source header.now) line in_quantifier join
        cursor.old) }
{
    let first = comparison(header, line, in_quantifier, cursor)?;
    let second = comparison(header, line, in_quantifier, cursor)?;
    let third = comparison(header, line, in_quantifier, cursor)?;
    Ok(Condition::Three(join, first, second, third))
}

/// Reads four comparisons.
#[tactic(auto, unfolding(crate::specs::ImageForms::four_in))]
fn four(
    header: &Header,
    line: u64,
    in_quantifier: bool,
    join: Join,
    cursor: &mut Cursor<'_>,
) -> Result<Condition, ImageRefusal>
    ensures { Reads result cursor.new (four_in (header_source header.now) line in_quantifier join
        cursor.old) }
{
    let first = comparison(header, line, in_quantifier, cursor)?;
    let second = comparison(header, line, in_quantifier, cursor)?;
    let third = comparison(header, line, in_quantifier, cursor)?;
    let fourth = comparison(header, line, in_quantifier, cursor)?;
    Ok(Condition::Four(join, first, second, third, fourth))
}

/// What stands before the comparisons of a condition.
#[derive(Clone, Copy)]
struct Opening {
    /// How many comparisons there are, 1 to 4.
    count: u8,
    /// How many bytes stand before the join.
    at: u64,
    join: Join,
}

/// Reads the comparisons of a condition behind its opening.
fn comparisons(
    header: &Header,
    line: u64,
    in_quantifier: bool,
    opening: Opening,
    cursor: &mut Cursor<'_>,
) -> Result<Condition, ImageRefusal>
    ensures { Reads result cursor.new (comparisons_in (header_source header.now) line in_quantifier
        opening.at opening.count opening.join cursor.old) }
{
    let Opening { count, at, join } = opening;
    if count == 1 {
        one(header, line, in_quantifier, at, join, cursor)
    } else if count == 2 {
        two(header, line, in_quantifier, join, cursor)
    } else if count == 3 {
        three(header, line, in_quantifier, join, cursor)
    } else {
        four(header, line, in_quantifier, join, cursor)
    }
}

/// Reads a condition.
///
/// # Errors
///
/// The first reason why the bytes at the cursor are no condition.
#[tactic(auto, unfolding(crate::specs::ImageForms::condition_in))]
pub fn condition(
    header: &Header,
    line: u64,
    in_quantifier: bool,
    cursor: &mut Cursor<'_>,
) -> Result<Condition, ImageRefusal>
    ensures { Reads result cursor.new (condition_in (header_source header.now) line in_quantifier
        cursor.old) }
{
    let count = cursor.count()?;
    let at = cursor.passed();
    let join = cursor.code::<Join>()?;
    comparisons(
        header,
        line,
        in_quantifier,
        Opening { count, at, join },
        cursor,
    )
}

/// Reads the condition if `flag` says that there is one.
#[tactic(auto, unfolding(crate::specs::ImageForms::where_of_flag))]
fn where_of_flag(
    header: &Header,
    line: u64,
    flag: bool,
    cursor: &mut Cursor<'_>,
) -> Result<Option<Condition>, ImageRefusal>
    ensures { Reads result cursor.new (where_of_flag (header_source header.now) line flag
        cursor.old) }
{
    if flag {
        let condition = condition(header, line, true, cursor)?;
        Ok(Some(condition))
    } else {
        Ok(None)
    }
}

/// Reads whether there is a condition, and the condition.
///
/// # Errors
///
/// The first reason why the bytes at the cursor are no such part.
#[tactic(auto, unfolding(crate::specs::ImageForms::where_in))]
pub fn optional_condition(
    header: &Header,
    line: u64,
    cursor: &mut Cursor<'_>,
) -> Result<Option<Condition>, ImageRefusal>
    ensures { Reads result cursor.new (where_in (header_source header.now) line cursor.old) }
{
    let flag = cursor.flag()?;
    where_of_flag(header, line, flag, cursor)
}

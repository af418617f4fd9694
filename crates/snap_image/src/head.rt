//! `head`: reads what comes before the lines of an image:
//! its version, its kind, its names by sort, its entries.
ghost use Rattle.std.specs.Prelude.{◌≡◌, ◌≤◌, [], ◌++◌, Err, IfOk};
ghost use Rattle.snap_semantics.specs.Answers.{Answers};
ghost use Rattle.snap_image.specs.ImageListing.{version_in, letter, letters_in, length_in};
ghost use Rattle.snap_image.specs.ImageListing.{new_name, name_in, names_in, few_names};
ghost use Rattle.snap_image.specs.ImageListing.{table_in, line_count_in, head_in};
ghost use Rattle.snap_semantics.specs.Uses.{is_among};
ghost use Rattle.snap_listing_core.specs.Fields.{header_source};
ghost use Rattle.snap_semantics.specs.declared.fault.Fault.TheVariants.{Refused};
ghost use Rattle.snap_semantics.specs.declared.refusal.ImageRefusal.{ImageRefusal};
ghost use Rattle.snap_image.specs.Head.{known_names, opened};
ghost use Rattle.snap_image.specs.Reads.{Reads};

use crate::cursor::Cursor;
use crate::fault::ImageFault;
use crate::image::{ImageVersion, with_code};
use snap_listing::{is_among, is_reserved};
use snap_listing_core::Header;
use snap_semantics::{ImageRefusal, ListingRefusal, Name};
use snap_words::KindTag;
use std::alloc::Global;

/// The most names.
const MOST_NAMES: usize = 32;

/// The most lines.
const MOST_LINES: u64 = 200;

/// The names that are declared in the tables before this one.
#[derive(Clone, Copy)]
struct EarlierNames<'a> {
    scalars: &'a [Name],
    rows: &'a [Name],
    words: &'a [Name],
}

/// Reads the version.
#[tactic(auto, unfolding(crate::specs::ImageListing::version_in))]
fn version(cursor: &mut Cursor<'_>) -> Result<ImageVersion, ImageRefusal>
    ensures { Reads result cursor.new (version_in cursor.old) }
{
    let byte = cursor.byte()?;
    match with_code::<ImageVersion>(byte) {
        Some(version) => Ok(version),
        None => Err(ImageRefusal::Version),
    }
}

/// Checks that a byte of a name is a letter.
fn checked_letter(byte: u8) -> Result<(), ImageRefusal>
    ensures { result ≡ letter byte }
{
    if byte.is_ascii_lowercase() {
        Ok(())
    } else {
        Err(ImageRefusal::Invalid(ListingRefusal::BadName(0)))
    }
}

/// Reads a name of `count` letters.
fn letters(count: usize, cursor: &mut Cursor<'_>) -> Result<Name, ImageRefusal>
    requires { count ≤ 9 }
    ensures { Reads result cursor.new (letters_in count cursor.old) }
{
    let mut letters = [0; 9];
    for place in 0..count {
        let byte = cursor.byte()?;
        checked_letter(byte)?;
        letters[place] = byte;
    }
    Ok(Name::of(&letters[..count]))
}

/// Reads how long a name is, 1 to 8.
#[tactic(auto, unfolding(crate::specs::ImageListing::length_in))]
fn name_length(cursor: &mut Cursor<'_>) -> Result<usize, ImageRefusal>
    ensures read { Reads result cursor.new (length_in cursor.old) }
    ensures short { IfOk result (λ count. count ≤ 8) }
{
    let count = cursor.byte()?;
    if 1 <= count && count <= 8 {
        Ok(count as usize)
    } else {
        Err(ImageRefusal::Invalid(ListingRefusal::BadName(0)))
    }
}

/// Returns whether a name is declared in a table before this one.
fn is_known(letters: &[u8], known: EarlierNames<'_>) -> bool
    ensures { result ≡ is_among letters.now (known_names known.entry) }
{
    is_among(letters, known.scalars)
        || is_among(letters, known.rows)
        || is_among(letters, known.words)
}

/// Checks that `name` may be declared behind `known` and `names`.
fn checked_name(known: EarlierNames<'_>, names: &[Name], name: &Name) -> Result<(), ImageRefusal>
    ensures { result ≡ new_name (known_names known.entry ++ names.now) name.now }
{
    if is_reserved(name.letters()) {
        Err(ImageRefusal::Invalid(ListingRefusal::BadName(0)))
    } else if is_known(name.letters(), known) || is_among(name.letters(), names) {
        Err(ImageRefusal::Invalid(ListingRefusal::NameTwice(0)))
    } else {
        Ok(())
    }
}

/// Reads a name behind its length, which is none of `known` and `names`.
#[tactic(auto, unfolding(crate::specs::ImageListing::name_in))]
fn name(
    known: EarlierNames<'_>,
    names: &[Name],
    cursor: &mut Cursor<'_>,
) -> Result<Name, ImageRefusal>
    ensures { Reads result cursor.new (name_in (known_names known.entry ++ names.now) cursor.old) }
{
    let count = name_length(cursor)?;
    let name = letters(count, cursor)?;
    checked_name(known, names, &name)?;
    Ok(name)
}

/// Reads `count` names.
fn names(
    alloc: Global,
    count: u8,
    known: EarlierNames<'_>,
    cursor: &mut Cursor<'_>,
) -> Result<Vec<Name>, ImageFault>
    ensures { Answers (λ names. (names.items, cursor.new)) result
        (names_in count (known_names known.entry) cursor.old) }
{
    let mut names = Vec::new(alloc);
    while names.len() < count as usize {
        let name = name(known, names.as_slice(), cursor)?;
        names.push(name)?;
    }
    Ok(names)
}

/// Checks that `count` more names may be declared.
fn checked_count(known: EarlierNames<'_>, count: u8) -> Result<(), ImageRefusal>
    ensures { result ≡ few_names (known_names known.entry) count }
{
    let declared = known.scalars.len() + known.rows.len() + known.words.len();
    if declared + count as usize > MOST_NAMES {
        Err(ImageRefusal::Invalid(ListingRefusal::TooMany(0)))
    } else {
        Ok(())
    }
}

/// Reads the names of a sort behind their count, at most 32 with those before them.
#[tactic(auto, unfolding(crate::specs::ImageListing::table_in))]
fn table(
    alloc: Global,
    known: EarlierNames<'_>,
    cursor: &mut Cursor<'_>,
) -> Result<Vec<Name>, ImageFault>
    ensures { Answers (λ names. (names.items, cursor.new)) result
        (table_in (known_names known.entry) cursor.old) }
{
    let count = cursor.byte()?;
    checked_count(known, count)?;
    names(alloc, count, known, cursor)
}

/// Reads the names of the scalars.
fn scalar_table(alloc: Global, cursor: &mut Cursor<'_>) -> Result<Vec<Name>, ImageFault>
    ensures { Answers (λ names. (names.items, cursor.new)) result (table_in [] cursor.old) }
{
    let known = EarlierNames {
        scalars: &[],
        rows: &[],
        words: &[],
    };
    table(alloc, known, cursor)
}

/// Reads the names of the rows.
#[tactic(auto, using(crate::proofs::Names::known_scalars))]
fn row_table(
    alloc: Global,
    scalars: &[Name],
    cursor: &mut Cursor<'_>,
) -> Result<Vec<Name>, ImageFault>
    ensures { Answers (λ names. (names.items, cursor.new)) result
        (table_in scalars.now cursor.old) }
{
    let known = EarlierNames {
        scalars,
        rows: &[],
        words: &[],
    };
    table(alloc, known, cursor)
}

/// Reads the names of the `words` locals.
#[tactic(auto, using(crate::proofs::Names::known_rows))]
fn words_table(
    alloc: Global,
    scalars: &[Name],
    rows: &[Name],
    cursor: &mut Cursor<'_>,
) -> Result<Vec<Name>, ImageFault>
    ensures { Answers (λ names. (names.items, cursor.new)) result
        (table_in (scalars.now ++ rows.now) cursor.old) }
{
    let known = EarlierNames {
        scalars,
        rows,
        words: &[],
    };
    table(alloc, known, cursor)
}

/// Reads how many lines there are, at most 200.
#[tactic(auto, unfolding(crate::specs::ImageListing::line_count_in))]
fn line_count(cursor: &mut Cursor<'_>) -> Result<u64, ImageRefusal>
    ensures { Reads result cursor.new (line_count_in cursor.old) }
{
    let count = cursor.short()?;
    if count > MOST_LINES {
        Err(ImageRefusal::Invalid(ListingRefusal::TooMany(0)))
    } else {
        Ok(count)
    }
}

/// Reads what stands before the lines of `image`: its version, its header and how many lines
/// follow; and returns what is left too.
///
/// # Errors
///
/// `Refused` with the first reason why the bytes are no such beginning; `Memory` where memory runs
/// out.
#[tactic(auto, unfolding(crate::specs::ImageListing::head_in))]
pub fn head(
    alloc: Global,
    image: &[u8],
) -> Result<(ImageVersion, Header, u64, Cursor<'_>), ImageFault>
    ensures answer { Answers (λ x. ((x.0, header_source x.1, x.2), x.3)) result
        (head_in image.now) }
    ensures opened { (e : ImageRefusal) → opened image.now ≡ Err e → result ≡ Err (Refused e) }
{
    let mut cursor = Cursor::new(image)?;
    let version = version(&mut cursor)?;
    let kind = cursor.code::<KindTag>()?;
    let scalars = scalar_table(alloc, &mut cursor)?;
    let rows = row_table(alloc, scalars.as_slice(), &mut cursor)?;
    let words = words_table(alloc, scalars.as_slice(), rows.as_slice(), &mut cursor)?;
    let known = EarlierNames {
        scalars: scalars.as_slice(),
        rows: rows.as_slice(),
        words: words.as_slice(),
    };
    let views = table(alloc, known, &mut cursor)?;
    let scan = cursor.short()?;
    let update = cursor.short()?;
    let count = line_count(&mut cursor)?;
    let header = Header {
        kind,
        scalars,
        rows,
        words,
        views,
        scan,
        update,
    };
    Ok((version, header, count, cursor))
}

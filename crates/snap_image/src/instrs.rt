//! Instructions in an image, form by form: the tag of a form (`InstrTag`) with its code, and the
//! operands behind it, appended (`push_operands`) and read (`instr`, by a function for each form).
ghost use Rattle.std.specs.Prelude.{◌≡◌};
ghost use Rattle.snap_semantics.specs.IsListing.{IsListing};
ghost use Rattle.snap_image.specs.ImageForms.{allowed};
ghost use Rattle.snap_image.specs.Image.{instr_tags, tuple_tag, bit_tag, put_bit_tag};
ghost use Rattle.snap_image.specs.Image.{instr_tag, operands_image};
ghost use Rattle.snap_image.specs.Operands.{access_image};
ghost use Rattle.snap_image.specs.Operands.{assignment_image, jump_image};
ghost use Rattle.snap_image.specs.ImageInstrs.{form_uses, has_form, let_in, let_place_in, get_in};
ghost use Rattle.snap_image.specs.ImageInstrs.{bit_in, look_in, put_seq_in, put_bits_in};
ghost use Rattle.snap_image.specs.ImageInstrs.{put_multi_in, put_bit_in, put_view_in};
ghost use Rattle.snap_image.specs.ImageInstrs.{view_data_in, view_of_in, each_in, first_in};
ghost use Rattle.snap_image.specs.ImageInstrs.{next_in, if_in, if_all_in, goto_in};
ghost use Rattle.snap_image.specs.ImageInstrs.{call_in, return_in, operands_in, instr_in};
ghost use Rattle.snap_listing_core.specs.Fields.{header_source};
ghost use Rattle.snap_image.specs.Reads.{Reads};
ghost use Rattle.snap_image.specs.Widths.{HasShortTargets};
ghost use Rattle.snap_text.specs.Drafted.{Adds};

use crate::conditions::{condition, optional_condition};
use crate::cursor::Cursor;
use crate::encoder::{
    push_code, push_condition, push_expr, push_index, push_row, push_scalar, push_short,
    push_tuple, push_view, push_where, push_words,
};
use crate::image::Coded;
use crate::terms::{expr, index};
use snap_listing::{has_bank, has_view, same_kind};
use snap_listing_core::{Header, Listing};
use snap_semantics::{BitBank, ImageRefusal, Instr, ListingRefusal, Range, Tuple};
use snap_text::Draft;
use snap_words::{Bank, KindTag};

/// The tag of an instruction.
#[derive(Clone, Copy, PartialEq, Eq)]
pub enum InstrTag {
    Let,
    LetPlace,
    Get,
    BitQ,
    BitP,
    Look,
    PutSeq,
    PutBits,
    PutMulti,
    PutQ,
    PutP,
    PutView,
    ViewData,
    ViewOf,
    Each,
    First,
    Next,
    If,
    IfAll,
    Goto,
    Call,
    Return,
    Finish,
}

/// All forms of instructions.
const FORMS: [InstrTag; 23] = [
    InstrTag::Let,
    InstrTag::LetPlace,
    InstrTag::Get,
    InstrTag::BitQ,
    InstrTag::BitP,
    InstrTag::Look,
    InstrTag::PutSeq,
    InstrTag::PutBits,
    InstrTag::PutMulti,
    InstrTag::PutQ,
    InstrTag::PutP,
    InstrTag::PutView,
    InstrTag::ViewData,
    InstrTag::ViewOf,
    InstrTag::Each,
    InstrTag::First,
    InstrTag::Next,
    InstrTag::If,
    InstrTag::IfAll,
    InstrTag::Goto,
    InstrTag::Call,
    InstrTag::Return,
    InstrTag::Finish,
];

impl Coded for InstrTag {
    ghost table = { instr_tags };

    fn all() -> &'static [Self] {
        &FORMS
    }

    fn code(self) -> u8 {
        match self {
            InstrTag::Let => 1,
            InstrTag::LetPlace => 2,
            InstrTag::Get => 3,
            InstrTag::BitQ => 4,
            InstrTag::BitP => 5,
            InstrTag::Look => 6,
            InstrTag::PutSeq => 7,
            InstrTag::PutBits => 8,
            InstrTag::PutMulti => 9,
            InstrTag::PutQ => 10,
            InstrTag::PutP => 11,
            InstrTag::PutView => 12,
            InstrTag::ViewData => 13,
            InstrTag::ViewOf => 14,
            InstrTag::Each => 15,
            InstrTag::First => 16,
            InstrTag::Next => 17,
            InstrTag::If => 18,
            InstrTag::IfAll => 19,
            InstrTag::Goto => 20,
            InstrTag::Call => 21,
            InstrTag::Return => 22,
            InstrTag::Finish => 23,
        }
    }
}

/// Returns the form of a tuple.
fn tuple_tag(tuple: &Tuple) -> InstrTag
    ensures { result ≡ tuple_tag tuple.now }
{
    match tuple {
        Tuple::Seq(..) => InstrTag::PutSeq,
        Tuple::Bits(..) => InstrTag::PutBits,
        Tuple::Multi(..) => InstrTag::PutMulti,
    }
}

/// Returns the form that reads a bit of a bank.
fn bit_tag(bits: BitBank) -> InstrTag
    ensures { result ≡ bit_tag bits }
{
    match bits {
        BitBank::Q => InstrTag::BitQ,
        BitBank::P => InstrTag::BitP,
    }
}

/// Returns the form that writes a bit of a bank.
fn put_bit_tag(bits: BitBank) -> InstrTag
    ensures { result ≡ put_bit_tag bits }
{
    match bits {
        BitBank::Q => InstrTag::PutQ,
        BitBank::P => InstrTag::PutP,
    }
}

/// Returns the form of an instruction.
pub(crate) fn instr_tag(instr: &Instr) -> InstrTag
    ensures { result ≡ instr_tag instr.now }
{
    match instr {
        Instr::Let(..) => InstrTag::Let,
        Instr::LetPlace(..) => InstrTag::LetPlace,
        Instr::Get(..) => InstrTag::Get,
        Instr::Bit(_, bits, _, _) => bit_tag(*bits),
        Instr::Look(..) => InstrTag::Look,
        Instr::Put(_, tuple) => tuple_tag(tuple),
        Instr::PutBit(bits, _, _, _) => put_bit_tag(*bits),
        Instr::PutView(..) => InstrTag::PutView,
        Instr::ViewData(..) => InstrTag::ViewData,
        Instr::ViewOf(..) => InstrTag::ViewOf,
        Instr::Each(..) => InstrTag::Each,
        Instr::First(..) => InstrTag::First,
        Instr::Next(..) => InstrTag::Next,
        Instr::If(..) => InstrTag::If,
        Instr::IfAll(..) => InstrTag::IfAll,
        Instr::Goto(_) => InstrTag::Goto,
        Instr::Call(_) => InstrTag::Call,
        Instr::Return(_) => InstrTag::Return,
        Instr::Finish => InstrTag::Finish,
    }
}

/// Appends the operands of an instruction that reads or writes a register, and nothing for any
/// other.
fn push_access(listing: &Listing, instr: &Instr, out: &mut Draft)
    requires { IsListing listing.now }
    ensures { Adds out.old out.new (access_image listing.now instr.now) }
{
    match instr {
        Instr::Get(words, index, register) => {
            push_words(listing, words, out);
            push_index(listing, index, out);
            push_index(listing, register, out);
        }
        Instr::Bit(scalar, _, first, second) => {
            push_scalar(listing, scalar, out);
            push_index(listing, first, out);
            push_index(listing, second, out);
        }
        Instr::Look(view, register) => {
            push_view(listing, view, out);
            push_index(listing, register, out);
        }
        Instr::Put(register, tuple) => {
            push_index(listing, register, out);
            push_tuple(listing, tuple, out);
        }
        Instr::PutBit(_, first, second, value) => {
            push_index(listing, first, out);
            push_index(listing, second, out);
            push_expr(listing, value, out);
        }
        Instr::PutView(register, view) => {
            push_index(listing, register, out);
            push_view(listing, view, out);
        }
        _ => {}
    }
}

/// Appends the operands of an instruction that sets a local by locals, and nothing for any other.
fn push_assignment(listing: &Listing, instr: &Instr, out: &mut Draft)
    requires { IsListing listing.now }
    ensures { Adds out.old out.new (assignment_image listing.now instr.now) }
{
    match instr {
        Instr::Let(scalar, value) => {
            push_scalar(listing, scalar, out);
            push_expr(listing, value, out);
        }
        Instr::LetPlace(row, index, value) => {
            push_row(listing, row, out);
            push_index(listing, index, out);
            push_expr(listing, value, out);
        }
        Instr::ViewData(view, words) => {
            push_view(listing, view, out);
            push_words(listing, words, out);
        }
        Instr::ViewOf(view, words, index) => {
            push_view(listing, view, out);
            push_words(listing, words, out);
            push_index(listing, index, out);
        }
        Instr::Each(range, row, value, condition) => {
            push_code(*range, out);
            push_row(listing, row, out);
            push_expr(listing, value, out);
            push_where(listing, condition, out);
        }
        _ => {}
    }
}

/// Appends the operands of an instruction that may lead elsewhere, and nothing for any other.
fn push_jump(listing: &Listing, instr: &Instr, out: &mut Draft)
    requires rules { IsListing listing.now }
    requires short { HasShortTargets instr.now }
    ensures { Adds out.old out.new (jump_image listing.now instr.now) }
{
    match instr {
        Instr::First(scalar, range, condition, target) => {
            push_scalar(listing, scalar, out);
            push_code(*range, out);
            push_condition(listing, condition, out);
            push_short(*target, out);
        }
        Instr::Next(scalar, range, target) => {
            push_scalar(listing, scalar, out);
            push_code(*range, out);
            push_short(*target, out);
        }
        Instr::If(condition, target) => {
            push_condition(listing, condition, out);
            push_short(*target, out);
        }
        Instr::IfAll(range, condition, target) => {
            push_code(*range, out);
            push_condition(listing, condition, out);
            push_short(*target, out);
        }
        Instr::Goto(target) => push_short(*target, out),
        Instr::Call(target) => push_short(*target, out),
        _ => {}
    }
}

/// Appends the operands of an instruction.
pub(crate) fn push_operands(listing: &Listing, instr: &Instr, out: &mut Draft)
    requires rules { IsListing listing.now }
    requires short { HasShortTargets instr.now }
    ensures { Adds out.old out.new (operands_image listing.now instr.now) }
{
    match instr {
        Instr::Get(..)
        | Instr::Bit(..)
        | Instr::Look(..)
        | Instr::Put(..)
        | Instr::PutBit(..)
        | Instr::PutView(..) => push_access(listing, instr, out),
        Instr::Let(..)
        | Instr::LetPlace(..)
        | Instr::ViewData(..)
        | Instr::ViewOf(..)
        | Instr::Each(..) => push_assignment(listing, instr, out),
        Instr::First(..)
        | Instr::Next(..)
        | Instr::If(..)
        | Instr::IfAll(..)
        | Instr::Goto(_)
        | Instr::Call(_) => push_jump(listing, instr, out),
        Instr::Return(view) => push_view(listing, view, out),
        Instr::Finish => {}
    }
}

/// Reads `let X = E`.
#[tactic(auto, unfolding(crate::specs::ImageInstrs::let_in))]
fn let_instr(header: &Header, line: u64, cursor: &mut Cursor<'_>) -> Result<Instr, ImageRefusal>
    ensures { Reads result cursor.new (let_in (header_source header.now) line cursor.old) }
{
    let scalar = cursor.slot(line, header.scalars.as_slice())?;
    let value = expr(header, line, false, cursor)?;
    Ok(Instr::Let(scalar, value))
}

/// Reads `let R[I] = E`.
#[tactic(auto, unfolding(crate::specs::ImageInstrs::let_place_in))]
fn let_place_instr(
    header: &Header,
    line: u64,
    cursor: &mut Cursor<'_>,
) -> Result<Instr, ImageRefusal>
    ensures { Reads result cursor.new (let_place_in (header_source header.now) line cursor.old) }
{
    let row = cursor.slot(line, header.rows.as_slice())?;
    let place = index(header, line, false, cursor)?;
    let value = expr(header, line, false, cursor)?;
    Ok(Instr::LetPlace(row, place, value))
}

/// Reads `get W[I] = r[J]`.
#[tactic(auto, unfolding(crate::specs::ImageInstrs::get_in))]
fn get_instr(header: &Header, line: u64, cursor: &mut Cursor<'_>) -> Result<Instr, ImageRefusal>
    ensures { Reads result cursor.new (get_in (header_source header.now) line cursor.old) }
{
    let words = cursor.slot(line, header.words.as_slice())?;
    let place = index(header, line, false, cursor)?;
    let register = index(header, line, false, cursor)?;
    Ok(Instr::Get(words, place, register))
}

/// Reads `bit X = q[I,J]`.
#[tactic(auto, unfolding(crate::specs::ImageInstrs::bit_in))]
fn bit_instr(
    header: &Header,
    line: u64,
    bits: BitBank,
    cursor: &mut Cursor<'_>,
) -> Result<Instr, ImageRefusal>
    ensures { Reads result cursor.new (bit_in (header_source header.now) line bits cursor.old) }
{
    let scalar = cursor.slot(line, header.scalars.as_slice())?;
    let first = index(header, line, false, cursor)?;
    let second = index(header, line, false, cursor)?;
    Ok(Instr::Bit(scalar, bits, first, second))
}

/// Reads `look S = v[I]`.
#[tactic(auto, unfolding(crate::specs::ImageInstrs::look_in))]
fn look_instr(header: &Header, line: u64, cursor: &mut Cursor<'_>) -> Result<Instr, ImageRefusal>
    ensures { Reads result cursor.new (look_in (header_source header.now) line cursor.old) }
{
    let view = cursor.slot(line, header.views.as_slice())?;
    let register = index(header, line, false, cursor)?;
    Ok(Instr::Look(view, register))
}

/// Reads `put r[I] = (data, seq, S)`.
#[tactic(auto, unfolding(crate::specs::ImageInstrs::put_seq_in))]
fn put_seq_instr(header: &Header, line: u64, cursor: &mut Cursor<'_>) -> Result<Instr, ImageRefusal>
    ensures { Reads result cursor.new (put_seq_in (header_source header.now) line cursor.old) }
{
    let register = index(header, line, false, cursor)?;
    let datum = expr(header, line, false, cursor)?;
    let seq = expr(header, line, false, cursor)?;
    let view = cursor.slot(line, header.views.as_slice())?;
    Ok(Instr::Put(register, Tuple::Seq(datum, seq, view)))
}

/// Reads `put r[I] = (data, R, toggle, S)`.
#[tactic(auto, unfolding(crate::specs::ImageInstrs::put_bits_in))]
fn put_bits_instr(
    header: &Header,
    line: u64,
    cursor: &mut Cursor<'_>,
) -> Result<Instr, ImageRefusal>
    ensures { Reads result cursor.new (put_bits_in (header_source header.now) line cursor.old) }
{
    let register = index(header, line, false, cursor)?;
    let datum = expr(header, line, false, cursor)?;
    let handshakes = cursor.slot(line, header.rows.as_slice())?;
    let toggle = expr(header, line, false, cursor)?;
    let view = cursor.slot(line, header.views.as_slice())?;
    Ok(Instr::Put(register, Tuple::Bits(datum, handshakes, toggle, view)))
}

/// Reads `put r[I] = (data, id, toggle)`.
#[tactic(auto, unfolding(crate::specs::ImageInstrs::put_multi_in))]
fn put_multi_instr(
    header: &Header,
    line: u64,
    cursor: &mut Cursor<'_>,
) -> Result<Instr, ImageRefusal>
    ensures { Reads result cursor.new (put_multi_in (header_source header.now) line cursor.old) }
{
    let register = index(header, line, false, cursor)?;
    let datum = expr(header, line, false, cursor)?;
    let id = expr(header, line, false, cursor)?;
    let toggle = expr(header, line, false, cursor)?;
    Ok(Instr::Put(register, Tuple::Multi(datum, id, toggle)))
}

/// Reads `put q[I,J] = E`.
#[tactic(auto, unfolding(crate::specs::ImageInstrs::put_bit_in))]
fn put_bit_instr(
    header: &Header,
    line: u64,
    bits: BitBank,
    cursor: &mut Cursor<'_>,
) -> Result<Instr, ImageRefusal>
    ensures { Reads result cursor.new (put_bit_in (header_source header.now) line bits cursor.old) }
{
    let first = index(header, line, false, cursor)?;
    let second = index(header, line, false, cursor)?;
    let value = expr(header, line, false, cursor)?;
    Ok(Instr::PutBit(bits, first, second, value))
}

/// Reads `put v[I] = S`.
#[tactic(auto, unfolding(crate::specs::ImageInstrs::put_view_in))]
fn put_view_instr(
    header: &Header,
    line: u64,
    cursor: &mut Cursor<'_>,
) -> Result<Instr, ImageRefusal>
    ensures { Reads result cursor.new (put_view_in (header_source header.now) line cursor.old) }
{
    let register = index(header, line, false, cursor)?;
    let view = cursor.slot(line, header.views.as_slice())?;
    Ok(Instr::PutView(register, view))
}

/// Reads `view S = data(W)`.
#[tactic(auto, unfolding(crate::specs::ImageInstrs::view_data_in))]
fn view_data_instr(
    header: &Header,
    line: u64,
    cursor: &mut Cursor<'_>,
) -> Result<Instr, ImageRefusal>
    ensures { Reads result cursor.new (view_data_in (header_source header.now) line cursor.old) }
{
    let view = cursor.slot(line, header.views.as_slice())?;
    let words = cursor.slot(line, header.words.as_slice())?;
    Ok(Instr::ViewData(view, words))
}

/// Reads `view S = view(W[I])`.
#[tactic(auto, unfolding(crate::specs::ImageInstrs::view_of_in))]
fn view_of_instr(header: &Header, line: u64, cursor: &mut Cursor<'_>) -> Result<Instr, ImageRefusal>
    ensures { Reads result cursor.new (view_of_in (header_source header.now) line cursor.old) }
{
    let view = cursor.slot(line, header.views.as_slice())?;
    let words = cursor.slot(line, header.words.as_slice())?;
    let place = index(header, line, false, cursor)?;
    Ok(Instr::ViewOf(view, words, place))
}

/// Reads `each G: R[@] = E where C`.
#[tactic(auto, unfolding(crate::specs::ImageInstrs::each_in))]
fn each_instr(header: &Header, line: u64, cursor: &mut Cursor<'_>) -> Result<Instr, ImageRefusal>
    ensures { Reads result cursor.new (each_in (header_source header.now) line cursor.old) }
{
    let range = cursor.code::<Range>()?;
    let row = cursor.slot(line, header.rows.as_slice())?;
    let value = expr(header, line, true, cursor)?;
    let condition = optional_condition(header, line, cursor)?;
    Ok(Instr::Each(range, row, value, condition))
}

/// Reads `first X G: C goto N`.
#[tactic(auto, unfolding(crate::specs::ImageInstrs::first_in))]
fn first_instr(header: &Header, line: u64, cursor: &mut Cursor<'_>) -> Result<Instr, ImageRefusal>
    ensures { Reads result cursor.new (first_in (header_source header.now) line cursor.old) }
{
    let scalar = cursor.slot(line, header.scalars.as_slice())?;
    let range = cursor.code::<Range>()?;
    let condition = condition(header, line, true, cursor)?;
    let target = cursor.short()?;
    Ok(Instr::First(scalar, range, condition, target))
}

/// Reads `next X G goto N`.
#[tactic(auto, unfolding(crate::specs::ImageInstrs::next_in))]
fn next_instr(header: &Header, line: u64, cursor: &mut Cursor<'_>) -> Result<Instr, ImageRefusal>
    ensures { Reads result cursor.new (next_in (header_source header.now) line cursor.old) }
{
    let scalar = cursor.slot(line, header.scalars.as_slice())?;
    let range = cursor.code::<Range>()?;
    let target = cursor.short()?;
    Ok(Instr::Next(scalar, range, target))
}

/// Reads `if C goto N`.
#[tactic(auto, unfolding(crate::specs::ImageInstrs::if_in))]
fn if_instr(header: &Header, line: u64, cursor: &mut Cursor<'_>) -> Result<Instr, ImageRefusal>
    ensures { Reads result cursor.new (if_in (header_source header.now) line cursor.old) }
{
    let condition = condition(header, line, false, cursor)?;
    let target = cursor.short()?;
    Ok(Instr::If(condition, target))
}

/// Reads `if all G: C goto N`.
#[tactic(auto, unfolding(crate::specs::ImageInstrs::if_all_in))]
fn if_all_instr(header: &Header, line: u64, cursor: &mut Cursor<'_>) -> Result<Instr, ImageRefusal>
    ensures { Reads result cursor.new (if_all_in (header_source header.now) line cursor.old) }
{
    let range = cursor.code::<Range>()?;
    let condition = condition(header, line, true, cursor)?;
    let target = cursor.short()?;
    Ok(Instr::IfAll(range, condition, target))
}

/// Reads `goto N`.
#[tactic(auto, unfolding(crate::specs::ImageInstrs::goto_in))]
fn goto_instr(cursor: &mut Cursor<'_>) -> Result<Instr, ImageRefusal>
    ensures { Reads result cursor.new (goto_in cursor.old) }
{
    let target = cursor.short()?;
    Ok(Instr::Goto(target))
}

/// Reads `call N`.
#[tactic(auto, unfolding(crate::specs::ImageInstrs::call_in))]
fn call_instr(cursor: &mut Cursor<'_>) -> Result<Instr, ImageRefusal>
    ensures { Reads result cursor.new (call_in cursor.old) }
{
    let target = cursor.short()?;
    Ok(Instr::Call(target))
}

/// Reads `return S`.
#[tactic(auto, unfolding(crate::specs::ImageInstrs::return_in))]
fn return_instr(header: &Header, line: u64, cursor: &mut Cursor<'_>) -> Result<Instr, ImageRefusal>
    ensures { Reads result cursor.new (return_in (header_source header.now) line cursor.old) }
{
    let view = cursor.slot(line, header.views.as_slice())?;
    Ok(Instr::Return(view))
}

/// Returns whether a kind has the registers and fields that a form needs.
fn has_form(kind: KindTag, form: InstrTag) -> bool
    ensures { result ≡ has_form kind form }
{
    match form {
        InstrTag::BitQ | InstrTag::PutQ => has_bank(kind, Bank::Q),
        InstrTag::BitP | InstrTag::PutP => has_bank(kind, Bank::P),
        InstrTag::Look | InstrTag::PutView => has_bank(kind, Bank::V),
        InstrTag::PutSeq => same_kind(kind, KindTag::Seq),
        InstrTag::PutBits => same_kind(kind, KindTag::Bits),
        InstrTag::PutMulti => same_kind(kind, KindTag::Multi),
        InstrTag::ViewOf => has_view(kind),
        _ => true,
    }
}

/// Checks that the kind has the registers and fields that a form needs.
#[tactic(auto, using(crate::proofs::InstrLaws::form_allowed))]
fn checked_form(header: &Header, line: u64, form: InstrTag) -> Result<(), ImageRefusal>
    ensures { result ≡ allowed (header_source header.now) line (form_uses form) }
{
    if has_form(header.kind, form) {
        Ok(())
    } else {
        Err(ImageRefusal::Invalid(ListingRefusal::WrongKind(line)))
    }
}

/// Reads the operands of a form, which stand behind its code.
fn operands(
    header: &Header,
    line: u64,
    form: InstrTag,
    cursor: &mut Cursor<'_>,
) -> Result<Instr, ImageRefusal>
    ensures { Reads result cursor.new (operands_in (header_source header.now) line form
        cursor.old) }
{
    match form {
        InstrTag::Let => let_instr(header, line, cursor),
        InstrTag::LetPlace => let_place_instr(header, line, cursor),
        InstrTag::Get => get_instr(header, line, cursor),
        InstrTag::BitQ => bit_instr(header, line, BitBank::Q, cursor),
        InstrTag::BitP => bit_instr(header, line, BitBank::P, cursor),
        InstrTag::Look => look_instr(header, line, cursor),
        InstrTag::PutSeq => put_seq_instr(header, line, cursor),
        InstrTag::PutBits => put_bits_instr(header, line, cursor),
        InstrTag::PutMulti => put_multi_instr(header, line, cursor),
        InstrTag::PutQ => put_bit_instr(header, line, BitBank::Q, cursor),
        InstrTag::PutP => put_bit_instr(header, line, BitBank::P, cursor),
        InstrTag::PutView => put_view_instr(header, line, cursor),
        InstrTag::ViewData => view_data_instr(header, line, cursor),
        InstrTag::ViewOf => view_of_instr(header, line, cursor),
        InstrTag::Each => each_instr(header, line, cursor),
        InstrTag::First => first_instr(header, line, cursor),
        InstrTag::Next => next_instr(header, line, cursor),
        InstrTag::If => if_instr(header, line, cursor),
        InstrTag::IfAll => if_all_instr(header, line, cursor),
        InstrTag::Goto => goto_instr(cursor),
        InstrTag::Call => call_instr(cursor),
        InstrTag::Return => return_instr(header, line, cursor),
        InstrTag::Finish => Ok(Instr::Finish),
    }
}

/// Reads an instruction.
///
/// # Errors
///
/// The first reason why the bytes at the cursor are no instruction of a listing with this header.
#[tactic(auto, unfolding(crate::specs::ImageInstrs::instr_in))]
pub fn instr(header: &Header, line: u64, cursor: &mut Cursor<'_>) -> Result<Instr, ImageRefusal>
    ensures { Reads result cursor.new (instr_in (header_source header.now) line cursor.old) }
{
    let form = cursor.code::<InstrTag>()?;
    checked_form(header, line, form)?;
    operands(header, line, form, cursor)
}

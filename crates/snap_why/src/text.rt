//! The printed text of a `Trouble`, the operand at which a line traps.
ghost use Rattle.snap_text.specs.Drafted.{Adds};
ghost use Rattle.snap_why.specs.declared.trouble.Trouble.TheVariants.{LargeSum, NoBit};
ghost use Rattle.snap_why.specs.declared.trouble.Trouble.TheVariants.{NoPlace, NotOwn};
ghost use Rattle.snap_why.specs.TroubleText.{index_text, register_text};
ghost use Rattle.snap_why.specs.TroubleText.{second_text, trouble_text, valued_index};

use crate::trouble::Trouble;
use snap_report::bank_text;
use snap_semantics::Index;
use snap_text::Draft;
use snap_words::Bank;

/// Appends an index as it stands in a listing.
fn push_index(out: &mut Draft, index: &Index)
    ensures { Adds out.old out.new (index_text index.now) }
{
    match index {
        Index::Number(number) => out.push_number(*number),
        Index::Processes => out.push(b"n"),
        Index::Words => out.push(b"w"),
        Index::Me => out.push(b"me"),
        Index::Word => out.push(b"word"),
        Index::Place => out.push(b"@"),
        Index::Scalar(name) => out.push(name.letters()),
    }
}

/// Appends a second index, if there is one.
fn push_second(out: &mut Draft, j: u64)
    ensures { Adds out.old out.new (second_text j) }
{
    if j != 0 {
        out.push(b" ");
        out.push_number(j);
    }
}

/// Appends an index with its value.
#[tactic(auto, unfolding(crate::specs::TroubleText::valued_index))]
fn push_valued_index(out: &mut Draft, index: &Index, value: u64)
    ensures { Adds out.old out.new (valued_index index.now value) }
{
    out.push(b"the index ");
    push_index(out, index);
    out.push(b" is ");
    out.push_number(value);
}

/// Appends a register.
fn push_register(out: &mut Draft, bank: Bank, i: u64, j: u64)
    ensures { Adds out.old out.new (register_text bank i j) }
{
    out.push(b"the register ");
    out.push(bank_text(bank));
    out.push(b" ");
    out.push_number(i);
    push_second(out, j);
}

/// Appends an index that is no place.
fn push_no_place(out: &mut Draft, index: &Index, value: u64, count: u64)
    ensures { Adds out.old out.new (trouble_text (NoPlace index.now value count)) }
{
    push_valued_index(out, index, value);
    out.push(b", and its places are 1 to ");
    out.push_number(count);
    out.push(b"\n");
}

/// Appends a sum that is above 2^64 - 1.
fn push_large_sum(out: &mut Draft, left: u64, right: u64)
    ensures { Adds out.old out.new (trouble_text (LargeSum left right)) }
{
    out.push(b"the sum ");
    out.push_number(left);
    out.push(b" + ");
    out.push_number(right);
    out.push(b" is above 18446744073709551615\n");
}

/// Appends a value that is no bit.
fn push_no_bit(out: &mut Draft, value: u64)
    ensures { Adds out.old out.new (trouble_text (NoBit value)) }
{
    out.push(b"the value to be written is ");
    out.push_number(value);
    out.push(b", which is no bit\n");
}

/// Appends a register of another process.
fn push_not_own(out: &mut Draft, bank: Bank, i: u64, j: u64)
    ensures { Adds out.old out.new (trouble_text (NotOwn bank i j)) }
{
    push_register(out, bank, i, j);
    out.push(b" is written by process ");
    out.push_number(i);
    out.push(b" alone\n");
}

/// Appends the text on an operand at which a line traps.
pub fn push_trouble(out: &mut Draft, trouble: &Trouble)
    ensures { Adds out.old out.new (trouble_text trouble.now) }
{
    match trouble {
        Trouble::NoPlace(index, value, count) => push_no_place(out, index, *value, *count),
        Trouble::LargeSum(left, right) => push_large_sum(out, *left, *right),
        Trouble::NoBit(value) => push_no_bit(out, *value),
        Trouble::NotOwn(bank, i, j) => push_not_own(out, *bank, *i, *j),
    }
}

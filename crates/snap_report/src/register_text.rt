//! The printed texts of registers, of any kind.
ghost use Rattle.std.specs.Prelude.{◌≡◌};
ghost use Rattle.snap_text.specs.Drafted.{Adds};
ghost use Rattle.snap_semantics.specs.Readers.{contents};
ghost use Rattle.snap_semantics.specs.Report.{
  values_line,
  word_line,
  word_lines,
  bit_line,
  row_lines,
  bank_lines,
  view_line,
  view_lines,
  register_lines,
};
ghost use Rattle.snap_semantics.specs.State.{values};
ghost use Rattle.snap_report.specs.ReportLines.{bank_text, register_line, row_at, rows_of};

use crate::word_text::word_text;
use snap_machine::{Contents, Machine};
use snap_text::Draft;
use snap_words::{Address, Bank, Kind, KindTag, View};

/// Appends the line of the values of the words.
pub fn values_line<K: Kind>(out: &mut Draft, machine: &Machine<K>)
    ensures { Adds out.old out.new (values_line (values machine.now.state)) }
{
    match machine.values() {
        Ok(values) => {
            out.push(b"values");
            out.push_numbers(values.as_slice());
            out.push(b"\n");
        }
        Err(error) => out.fail(error),
    }
}

/// Appends the line of register r[k].
fn word_line<K: Kind>(out: &mut Draft, kind: KindTag, k: u64, word: &K::Word)
    ensures { Adds out.old out.new (word_line kind k (K.as_word word.now)) }
{
    out.push(b"r ");
    out.push_number(k);
    out.push(b" = ");
    word_text::<K>(out, kind, word);
    out.push(b"\n");
}

/// Returns the letter of a bank.
pub fn bank_text(bank: Bank) -> &'static [u8]
    ensures { result.now ≡ bank_text bank }
{
    match bank {
        Bank::R => b"r",
        Bank::Q => b"q",
        Bank::P => b"p",
        Bank::V => b"v",
    }
}

/// Appends the line of a bit of a bank.
fn bit_line(out: &mut Draft, address: Address, bit: u64)
    ensures { Adds out.old out.new (bit_line (bank_text address.bank) address.i address.j bit) }
{
    out.push(bank_text(address.bank));
    out.push(b" ");
    out.push_number(address.i);
    out.push(b" ");
    out.push_number(address.j);
    out.push(b" = ");
    out.push_number(bit);
    out.push(b"\n");
}

/// Appends the line of view v[i].
fn view_line(out: &mut Draft, i: u64, view: &View)
    ensures { Adds out.old out.new (view_line i view.now) }
{
    out.push(b"v ");
    out.push_number(i);
    out.push(b" =");
    out.push_numbers(view.as_slice());
    out.push(b"\n");
}

/// Appends the line of a register, or nothing where there is no such register.
pub fn register_line<K: Kind>(out: &mut Draft, machine: &Machine<K>, address: Address)
    ensures { let read = contents machine.now.state.memory address.bank address.i address.j in
        Adds out.old out.new
        (register_line machine.now.source.kind address.bank address.i address.j read) }
{
    let kind = machine.program().kind();
    match machine.register(address) {
        Ok(Contents::Word(word)) => word_line::<K>(out, kind, address.i, word),
        Ok(Contents::Bit(bit)) => bit_line(out, address, bit),
        Ok(Contents::View(view)) => view_line(out, address.i, view),
        Err(_) => {}
    }
}

/// Appends the lines of the words, from r[1] on.
fn word_lines<K: Kind>(out: &mut Draft, machine: &Machine<K>)
    ensures { Adds out.old out.new
        (word_lines machine.now.source.kind 1 machine.now.state.memory.words) }
{
    let count = machine.shape().w();
    for k in 0..count {
        register_line(
            out,
            machine,
            Address {
                bank: Bank::R,
                i: k + 1,
                j: 0,
            },
        );
    }
}

/// Appends the lines of the bits of row i of a bank, from place 1 on.
fn row_lines<K: Kind>(out: &mut Draft, machine: &Machine<K>, bank: Bank, i: u64)
    ensures { Adds out.old out.new
        (row_lines (bank_text bank) i 1 (row_at bank i machine.now.state.memory)) }
{
    let count = machine.shape().n();
    for j in 0..count {
        register_line(out, machine, Address { bank, i, j: j + 1 });
    }
}

/// Appends the lines of a bank of bits, row by row.
fn bank_lines<K: Kind>(out: &mut Draft, machine: &Machine<K>, bank: Bank)
    ensures { Adds out.old out.new
        (bank_lines (bank_text bank) 1 (rows_of bank machine.now.state.memory)) }
{
    let count = machine.shape().n();
    for i in 0..count {
        row_lines(out, machine, bank, i + 1);
    }
}

/// Appends the lines of the views, from v[1] on.
fn view_lines<K: Kind>(out: &mut Draft, machine: &Machine<K>)
    ensures { Adds out.old out.new (view_lines 1 machine.now.state.memory.views) }
{
    let count = machine.shape().n();
    for i in 0..count {
        register_line(
            out,
            machine,
            Address {
                bank: Bank::V,
                i: i + 1,
                j: 0,
            },
        );
    }
}

/// Appends the lines of the registers: words, bits and views.
pub fn register_lines<K: Kind>(out: &mut Draft, machine: &Machine<K>)
    ensures { Adds out.old out.new
        (register_lines machine.now.source.kind machine.now.state.memory) }
{
    word_lines(out, machine);
    bank_lines(out, machine, Bank::Q);
    bank_lines(out, machine, Bank::P);
    view_lines(out, machine);
}

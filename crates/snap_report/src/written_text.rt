//! The printed texts of a `WritePlace`, where an item writes: of a register, and of a local.
ghost use Rattle.std.specs.Prelude.{Some, map, slice_get};
ghost use Rattle.snap_text.specs.Drafted.{Adds};
ghost use Rattle.snap_words.specs.Shape.{IsOneOf};
ghost use Rattle.snap_semantics.specs.State.{process_at};
ghost use Rattle.snap_semantics.specs.declared.text.Sort.TheVariants.{Words};
ghost use Rattle.snap_machine.specs.SeenContents.{local_at, seen_named};
ghost use Rattle.snap_report.specs.WrittenLines.{named_lines, place_line, written_local, written_shared, word_there};

use crate::process_text::{local_lines, word_local};
use crate::register_text::{register_line, values_line};
use snap_machine::{Local, Machine, Name, Sort, WritePlace};
use snap_text::Draft;
use snap_words::{Bank, Kind, KindTag};

/// Appends the line of the register that an item has written, behind the values if it is a word.
pub fn written_shared<K: Kind>(out: &mut Draft, machine: &Machine<K>, written: WritePlace)
    ensures { Adds out.old out.new
        (written_shared machine.now.source.kind machine.now.state written) }
{
    match written {
        WritePlace::Register(address) => {
            match address.bank {
                Bank::R => values_line(out, machine),
                _ => {}
            }
            register_line(out, machine, address);
        }
        _ => {}
    }
}

/// Appends the lines of local `k` of a sort, if there is one.
fn named_lines<K: Kind>(out: &mut Draft, machine: &Machine<K>, i: u32, sort: Sort, k: usize)
    requires { IsOneOf machine.now.shape.n i }
    ensures { Adds out.old out.new (named_lines machine.now.source.kind
        (local_at (process_at machine.now.state i).locals sort k)) }
{
    let kind = machine.program().kind();
    match machine.local_at(i, sort, k) {
        Some(local) => local_lines(out, kind, local),
        None => {}
    }
}

/// Appends the line of a place of words, counted from 0, if there is one.
fn word_there<K: Kind>(out: &mut Draft, kind: KindTag, name: &Name, words: &[K::Word], place: usize)
    ensures { Adds out.old out.new
        (word_there kind name.now place (slice_get (map K.as_word words.now) place)) }
{
    match words.get(place) {
        Some(word) => word_local::<K>(out, kind, name, place as u64 + 1, word),
        None => {}
    }
}

/// Appends the line of a place of a local, if it has words and such a place.
fn place_line<K: Kind>(out: &mut Draft, kind: KindTag, local: (Name, Local<'_, K>), place: usize)
    ensures { Adds out.old out.new
        (place_line kind place (Some (seen_named K.as_word local.entry))) }
{
    let (name, value) = local;
    match value {
        Local::Words(words) => word_there::<K>(out, kind, &name, words, place),
        _ => {}
    }
}

/// Appends the line of a place of `words` local `k`, if there is one.
fn place_lines<K: Kind>(out: &mut Draft, machine: &Machine<K>, i: u32, k: usize, place: usize)
    requires { IsOneOf machine.now.shape.n i }
    ensures { Adds out.old out.new (place_line machine.now.source.kind place
        (local_at (process_at machine.now.state i).locals Words k)) }
{
    let kind = machine.program().kind();
    match machine.local_at(i, Sort::Words, k) {
        Some(local) => place_line(out, kind, local, place),
        None => {}
    }
}

/// Appends the lines of the local of process `i` at a write place.
pub fn written_local<K: Kind>(out: &mut Draft, machine: &Machine<K>, i: u32, written: WritePlace)
    requires { IsOneOf machine.now.shape.n i }
    ensures { Adds out.old out.new
        (written_local machine.now.source.kind (process_at machine.now.state i).locals written) }
{
    match written {
        WritePlace::Local(sort, k) => named_lines(out, machine, i, sort, k),
        WritePlace::WordsPlace(k, place) => place_lines(out, machine, i, k, place),
        _ => {}
    }
}

//! `push_typed`: the text on a line that the prompt refuses because it is no request, behind the
//! line that refuses it.
ghost use Rattle.std.specs.Prelude.{◌≡◌, IfOk, OnOk, [], map, option_map};
ghost use Rattle.snap_text.specs.Drafted.{Adds};
ghost use Rattle.snap_explanation.specs.Advice.{first_word};
ghost use Rattle.snap_explanation.specs.Explanation.{tokens_in};
ghost use Rattle.snap_explanation.specs.Lost.{lost_in};
ghost use Rattle.snap_explanation.specs.Names.{tokens_of_placed};
ghost use Rattle.snap_explanation.specs.Pieces.{placed_of};
ghost use Rattle.snap_explanation.specs.Said.{by_word, rows, view_row};
ghost use Rattle.snap_explanation.specs.Steps.{view_lost, view_placed_token};
ghost use Rattle.snap_explanation.specs.declared.line_sorts.LineSort.TheVariants.{Command};
ghost use Rattle.snap_prompt.specs.Typed.{behind_line, command_text, form_or_command, own_form};
ghost use Rattle.snap_prompt.specs.Typed.{own_words, typed_text, unread_text, words_text};
ghost use Rattle.snap_prompt.specs.declared.typed.TheConstants.{FORMS};

use crate::short::spelled_out;
use snap_explanation::{
    Layout, LineSort, LostPlace, PlacedToken, explanation, lost_in, placed_tokens,
};
use snap_semantics::{CommandRefusal, Refusal};
use snap_text::{Draft, Token};
use std::alloc::{AllocError, Global};

const ALONE: &[u8] = b"nothing stands behind this word\n";

const QUIT: &[u8] = b"`quit` ends the dialog\n";

const ITEM_ON: &[u8] = b"`s` goes an item on, and `s I K` adds K steps of process I\n";

const GO_ON: &[u8] = b"`run` goes on to the next stop, and `goto T` to position T\n";

const SHOW: &[u8] = b"`show I` shows process I, `show r K` a register, and `report` all of them\n";

/// The forms of the prompt's own words, and what stands for words of other debuggers.
pub const FORMS: &[(&[u8], &[u8])] = &[
    (
        b"step",
        b"the form is `step K`: K items on; or `step I K`: K steps of process I, at least 1\n",
    ),
    (
        b"s",
        b"the form is `s`, or `s K`: K items on; or `s I K`: K steps of process I, at least 1\n",
    ),
    (
        b"b",
        b"the form is `b`, or `b K`: K items back; or `b I N`: to stop process I at line N\n",
    ),
    (
        b"list",
        b"the form is `list`, or `list I`: the lines around process I\n",
    ),
    (
        b"why",
        b"the form is `why`, or `why T`: why item T was answered so, or trapped\n",
    ),
    (
        b"call",
        b"the form is `call I scan`, or `call I update K X`, for process I\n",
    ),
    (
        b"until",
        b"the form is `until I N`: steps of process I until it is at line N\n",
    ),
    (
        b"end",
        b"the form is `end I`: steps of process I until its operation ends\n",
    ),
    (b"crash", b"the form is `crash I`: process I crashes\n"),
    (
        b"save",
        b"the form is `save FILE`, or `save! FILE` over an old file: a name without spaces and `#`\n",
    ),
    (b"all", ALONE),
    (b"report", ALONE),
    (b"help", ALONE),
    (b"quit", ALONE),
    (b"q", QUIT),
    (b"exit", QUIT),
    (b"n", ITEM_ON),
    (b"next", ITEM_ON),
    (b"c", GO_ON),
    (b"continue", GO_ON),
    (b"print", SHOW),
    (b"info", SHOW),
];

/// What is said where a line begins with no command.
pub const OWN_WORDS: &[u8] =
    b"at the prompt also list, why, all, report, call, step I K, until I N, end I, crash I, save, \
    help, quit\n";

/// Returns what stands behind the first line of a text.
fn behind_line(text: &[u8]) -> &[u8]
    ensures { result.now ≡ behind_line text.now }
{
    let mut rest = text;
    while let [first, behind @ ..] = rest {
        if *first == b'\n' {
            return behind;
        }
        rest = behind;
    }
    rest
}

/// Appends the text on a refused command.
#[tactic(auto, unfolding(crate::specs::Typed::command_text))]
fn push_command(alloc: Global, out: &mut Draft, text: &[u8]) -> Result<(), AllocError>
    ensures { OnOk result (Adds out.old out.new (command_text text.now)) }
{
    let refusal = Refusal::Commands(CommandRefusal::BadCommand(1));
    let said = explanation(alloc, Layout::NamedSchedule, text, &refusal)?;
    out.push(behind_line(said.as_slice()));
    Ok(())
}

/// Returns the prompt's own words if a line is lost at its first token, and an empty text otherwise.
fn own_words(place: &Option<LostPlace>) -> &'static [u8]
    ensures { result.now ≡ own_words (option_map view_lost place.now) }
{
    match place {
        Some(place) if place.before == 0 => OWN_WORDS,
        _ => b"",
    }
}

/// Appends the prompt's own words, if `tokens` begin no command.
#[tactic(auto, using(snap_explanation::proofs::Counts::same_tokens))]
fn push_own_words(
    alloc: Global,
    out: &mut Draft,
    tokens: &[PlacedToken<'_>],
) -> Result<(), AllocError>
    ensures { OnOk result (Adds out.old out.new
        (own_words (lost_in Command (tokens_of_placed (map view_placed_token tokens.now))))) }
{
    let place = lost_in(alloc, LineSort::Command, tokens)?;
    out.push(own_words(&place));
    Ok(())
}

/// Appends the prompt's own words, if there are tokens that begin no command.
fn push_words(alloc: Global, out: &mut Draft, tokens: &[PlacedToken<'_>]) -> Result<(), AllocError>
    ensures { OnOk result (Adds out.old out.new (words_text (map view_placed_token tokens.now))) }
{
    match tokens {
        [] => Ok(()),
        [_, ..] => push_own_words(alloc, out, tokens),
    }
}

/// Returns the first token if it is a word, and an empty text otherwise.
fn first_word<'a>(tokens: &[PlacedToken<'a>]) -> &'a [u8]
    ensures { result.now ≡ first_word (map view_placed_token tokens.now) }
{
    match tokens {
        [first, ..] => match first.token {
            Token::Identifier(word) => word,
            _ => b"",
        },
        [] => b"",
    }
}

/// Returns the forms of the prompt's own words.
fn forms() -> &'static [(&'static [u8], &'static [u8])]
    ensures { map view_row result.now ≡ rows FORMS.now }
{
    FORMS
}

/// Returns the text in the first row of a word, and an empty text if there is none.
fn form_in(table: &[(&[u8], &'static [u8])], word: &[u8]) -> &'static [u8]
    ensures { result.now ≡ by_word (map view_row table.now) [] word.now }
{
    for row in table {
        if row.0 == word {
            return row.1;
        }
    }
    b""
}

/// Returns the form of one of the prompt's own words, and an empty text for another word.
fn own_form(word: &[u8]) -> &'static [u8]
    ensures { result.now ≡ own_form word.now }
{
    form_in(forms(), word)
}

/// Returns the form of the prompt's own word with which a line begins, and an empty text for
/// another line.
fn form_of(alloc: Global, line: &[u8]) -> Result<&'static [u8], AllocError>
    ensures { IfOk result (λ form. form.now
        ≡ own_form (first_word (tokens_in (placed_of line.now)))) }
{
    let placed = placed_tokens(alloc, line)?;
    Ok(own_form(first_word(placed.tokens.as_slice())))
}

/// Appends the text on a line that begins with none of the prompt's own words.
fn push_command_line(alloc: Global, out: &mut Draft, text: &[u8]) -> Result<(), AllocError>
    ensures { OnOk result (Adds out.old out.new (form_or_command [] text.now)) }
{
    push_command(alloc, out, text)?;
    let placed = placed_tokens(alloc, text)?;
    push_words(alloc, out, placed.tokens.as_slice())
}

/// Appends the form of one of the prompt's own words, or else the text on a command.
fn push_form_or_command(
    alloc: Global,
    out: &mut Draft,
    form: &[u8],
    text: &[u8],
) -> Result<(), AllocError>
    ensures { OnOk result (Adds out.old out.new (form_or_command form.now text.now)) }
{
    match form {
        [] => push_command_line(alloc, out, text),
        [_, ..] => {
            out.push(form);
            Ok(())
        }
    }
}

/// Appends the text on a line that is no request.
#[tactic(auto, unfolding(crate::specs::Typed::unread_text))]
fn push_unread(alloc: Global, out: &mut Draft, line: &[u8]) -> Result<(), AllocError>
    ensures { OnOk result (Adds out.old out.new (unread_text line.now)) }
{
    let form = form_of(alloc, line)?;
    let text = spelled_out(alloc, line)?;
    push_form_or_command(alloc, out, form, text.as_slice())
}

/// Appends the text on a line that was typed, behind the line that refuses it.
pub(crate) fn push_typed(
    alloc: Global,
    out: &mut Draft,
    line: &[u8],
    refusal: &CommandRefusal,
) -> Result<(), AllocError>
    ensures { OnOk result (Adds out.old out.new (typed_text line.now refusal.now)) }
{
    match refusal {
        CommandRefusal::BadCommand(_) => push_unread(alloc, out, line),
        _ => Ok(()),
    }
}

//! The forms of debugger commands.
ghost use Rattle.std.specs.Prelude.{◌≡◌};
ghost use Rattle.snap_text.specs.Tokens.{Finds, view_tokens};
ghost use Rattle.snap_debug_commands.specs.CommandForms.{
  keyword_form,
  number_form,
  numbers_form,
  place_form,
  bit_form,
  address_form,
  breakpoint_form,
  register_form,
  moving_form,
  marking_form,
  showing_form,
  command_form,
};

use crate::command::{Breakpoint, Command};
use snap_text::{Token, end_at, keyword_at, number_at};
use snap_words::{Address, Bank};

/// Reads `keyword` alone.
#[tactic(auto, unfolding(crate::specs::CommandForms::keyword_form))]
pub fn keyword_form(keyword: &[u8], tokens: &[Token<'_>]) -> Option<()>
    ensures { Finds (λ end. end) result (keyword_form keyword.now (view_tokens tokens.now)) }
{
    let rest = keyword_at(keyword, tokens)?;
    end_at(rest)
}

/// Reads `keyword` and a number.
#[tactic(auto, unfolding(crate::specs::CommandForms::number_form))]
pub fn number_form(keyword: &[u8], tokens: &[Token<'_>]) -> Option<u64>
    ensures { Finds (λ number. number) result (number_form keyword.now (view_tokens tokens.now)) }
{
    let rest = keyword_at(keyword, tokens)?;
    let (number, rest) = number_at(rest)?;
    end_at(rest)?;
    Some(number)
}

/// Reads `keyword` and two numbers.
#[tactic(auto, unfolding(crate::specs::CommandForms::numbers_form))]
pub fn numbers_form(keyword: &[u8], tokens: &[Token<'_>]) -> Option<(u64, u64)>
    ensures { Finds (λ numbers. numbers) result
        (numbers_form keyword.now (view_tokens tokens.now)) }
{
    let rest = keyword_at(keyword, tokens)?;
    let (i, rest) = number_at(rest)?;
    let (j, rest) = number_at(rest)?;
    end_at(rest)?;
    Some((i, j))
}

/// Reads `r K` or `v I`.
#[tactic(auto, unfolding(crate::specs::CommandForms::place_form))]
fn place_form(keyword: &[u8], bank: Bank, tokens: &[Token<'_>]) -> Option<Address>
    ensures { Finds (λ address. address) result
        (place_form keyword.now bank (view_tokens tokens.now)) }
{
    let i = number_form(keyword, tokens)?;
    Some(Address { bank, i, j: 0 })
}

/// Reads `q I J` or `p I J`.
#[tactic(auto, unfolding(crate::specs::CommandForms::bit_form))]
fn bit_form(keyword: &[u8], bank: Bank, tokens: &[Token<'_>]) -> Option<Address>
    ensures { Finds (λ address. address) result
        (bit_form keyword.now bank (view_tokens tokens.now)) }
{
    let (i, j) = numbers_form(keyword, tokens)?;
    Some(Address { bank, i, j })
}

/// Reads a register.
#[tactic(auto, unfolding(crate::specs::CommandForms::address_form))]
fn address_form(tokens: &[Token<'_>]) -> Option<Address>
    ensures { Finds (λ address. address) result (address_form (view_tokens tokens.now)) }
{
    if let Some(address) = place_form(b"r", Bank::R, tokens) {
        return Some(address);
    }
    if let Some(address) = bit_form(b"q", Bank::Q, tokens) {
        return Some(address);
    }
    if let Some(address) = bit_form(b"p", Bank::P, tokens) {
        return Some(address);
    }
    place_form(b"v", Bank::V, tokens)
}

/// Reads a keyword and a process with one of its lines.
#[tactic(auto, unfolding(crate::specs::CommandForms::breakpoint_form))]
fn breakpoint_form(keyword: &[u8], tokens: &[Token<'_>]) -> Option<Breakpoint>
    ensures { Finds (λ breakpoint. breakpoint) result
        (breakpoint_form keyword.now (view_tokens tokens.now)) }
{
    let (process, line) = numbers_form(keyword, tokens)?;
    Some(Breakpoint { process, line })
}

/// Reads a keyword and a register.
#[tactic(auto, unfolding(crate::specs::CommandForms::register_form))]
fn register_form(keyword: &[u8], tokens: &[Token<'_>]) -> Option<Address>
    ensures { Finds (λ address. address) result
        (register_form keyword.now (view_tokens tokens.now)) }
{
    let rest = keyword_at(keyword, tokens)?;
    address_form(rest)
}

/// Reads a command that moves.
#[tactic(auto, unfolding(crate::specs::CommandForms::moving_form))]
fn moving_form(tokens: &[Token<'_>]) -> Option<Command>
    ensures { Finds (λ command. command) result (moving_form (view_tokens tokens.now)) }
{
    if let Some(count) = number_form(b"step", tokens) {
        return Some(Command::Step(count));
    }
    if let Some(count) = number_form(b"back", tokens) {
        return Some(Command::Back(count));
    }
    if let Some(position) = number_form(b"goto", tokens) {
        return Some(Command::Goto(position));
    }
    if keyword_form(b"run", tokens).is_some() {
        return Some(Command::Run);
    }
    keyword_form(b"rrun", tokens)?;
    Some(Command::ReverseRun)
}

/// Reads a command that sets or takes away marks.
#[tactic(auto, unfolding(crate::specs::CommandForms::marking_form))]
fn marking_form(tokens: &[Token<'_>]) -> Option<Command>
    ensures { Finds (λ command. command) result (marking_form (view_tokens tokens.now)) }
{
    if let Some(breakpoint) = breakpoint_form(b"break", tokens) {
        return Some(Command::Break(breakpoint));
    }
    if let Some(breakpoint) = breakpoint_form(b"clear", tokens) {
        return Some(Command::Clear(breakpoint));
    }
    if let Some(address) = register_form(b"watch", tokens) {
        return Some(Command::Watch(address));
    }
    let address = register_form(b"unwatch", tokens)?;
    Some(Command::Unwatch(address))
}

/// Reads a command that shows.
#[tactic(auto, unfolding(crate::specs::CommandForms::showing_form))]
fn showing_form(tokens: &[Token<'_>]) -> Option<Command>
    ensures { Finds (λ command. command) result (showing_form (view_tokens tokens.now)) }
{
    if let Some(address) = register_form(b"show", tokens) {
        return Some(Command::ShowRegister(address));
    }
    if let Some(process) = number_form(b"show", tokens) {
        return Some(Command::ShowProcess(process));
    }
    if keyword_form(b"values", tokens).is_some() {
        return Some(Command::Values);
    }
    if keyword_form(b"events", tokens).is_some() {
        return Some(Command::Events);
    }
    keyword_form(b"where", tokens)?;
    Some(Command::Where)
}

/// Reads a command; `None` where `tokens` are no form of one.
#[tactic(auto, unfolding(crate::specs::CommandForms::command_form))]
pub fn command_form(tokens: &[Token<'_>]) -> Option<Command>
    ensures { Finds (λ command. command) result (command_form (view_tokens tokens.now)) }
{
    if let Some(command) = moving_form(tokens) {
        return Some(command);
    }
    if let Some(command) = marking_form(tokens) {
        return Some(command);
    }
    showing_form(tokens)
}

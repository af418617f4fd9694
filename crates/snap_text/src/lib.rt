//! The tokens and the lines of a text, what changed from one text to another, and texts that are
//! put together piece by piece.
#![tactic(auto)]

mod calls;
mod change_laws;
mod changed;
mod comments;
mod draft;
mod laws;
mod layout;
mod lexer;
mod lines;
mod numbers;
mod owned;
mod push;
mod rules;

pub use change_laws::changes_make_the_new_text;
pub use changed::push_changes;
pub use comments::line_comments;
pub use draft::Draft;
pub use laws::{what_is_commented_is_read, what_is_laid_out_is_read};
pub use layout::{push_laid_out, push_tokens, symbol_text};
pub use lexer::{Token, lexeme_len, tokens};
pub use lines::{CallLine, NumberLine, TextLines, TokenLine, line_count, split_line};
pub use owned::push_owned_lines;
pub use push::{push_number, push_numbers, push_text};
pub use rules::{end_at, identifier_at, keyword_at, number_at, symbol_at};

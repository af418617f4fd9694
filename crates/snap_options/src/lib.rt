//! Command lines: what their options give, as `clap` has read them, what they ask for, and what a
//! program does about one that asks for nothing.
#![tactic(auto)]

mod advice;
mod invocation;
mod options;

pub use advice::advised;
pub use invocation::{
    Invocation, Unasked, Unread, answer_unasked, say_unread, unasked_by, words_of,
};
pub use options::{flag, is_given, kind_given, number, number_of, shipped};

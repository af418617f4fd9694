//! The explanation below the line of a refusal: the first token with which a line cannot go on,
//! what was expected there, and advice.
#![tactic(auto)]

mod advice;
mod explain;
mod forms;
mod grammar;
mod history;
mod inputs;
mod laws;
mod layout;
mod line_sorts;
mod live;
mod lost;
mod misuse;
mod model;
mod names;
mod part;
mod parts;
mod pieces;
mod said;
mod sorts;
mod spot;
mod tables;
mod tests;
mod texts;
mod token_uses;
mod wording;

pub use explain::explanation;
pub use history::history_explanation;
pub use laws::what_is_lost_stays_lost;
pub use layout::{Layout, Texts, layout_of};
pub use line_sorts::{Header, LineSort};
pub use live::turn_limit_explanation;
pub use lost::{LostPlace, Wanted, lost_in};
pub use model::model_explanation;
pub use parts::Part;
pub use pieces::{PlacedToken, PlacedTokens, placed_tokens};

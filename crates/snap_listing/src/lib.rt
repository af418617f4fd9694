//! Listings, read and printed: the grammar with its laws, and the rules that texts share with
//! images.
#![tactic(auto)]

mod behind;
mod conditions;
mod fault;
mod forms;
mod header;
mod instructions;
mod laws;
mod line_texts;
mod listing_text;
mod printer;
mod reader;
mod spelling;
mod targets;
mod terms;
mod tuples;
mod uses;

pub use fault::ListingFault;
pub use forms::{is_line_number, is_reserved, line_form};
pub use instructions::kind_keyword;
pub use laws::{
    what_is_printed_is_read, what_is_printed_is_spelled, what_is_read_is_spelled,
    what_is_read_with_comments_is_a_listing, what_is_spelled_is_read,
};
pub use line_texts::LineTexts;
pub use listing_text::read_known;
pub use printer::print;
pub use reader::{read, read_source};
pub use snap_listing_core::{CommentedListing as Listing, Header, has_line};
pub use snap_semantics::{
    BitBank, Comparison, Condition, Condition as Cond, Expr, Fault, Index, Instr, Join, Line,
    ListingRefusal, Name, Range, Relation, Term, Tuple,
};
pub use snap_words::{Field, KindTag};
pub use targets::{checked_target, checked_targets, push_line_copy};
pub use terms::{field_of_keyword, name_at, same_word};
pub use uses::{has_bank, has_field, has_handshakes, has_view, is_among, same_kind};

//! Why a program did not do what was asked of it: the line of a refusal, the status that it ends
//! with, and what it says.
#![tactic(auto)]

mod fault;
mod fault_text;
mod files;
mod refusal_text;
mod told;

pub use fault::{ProgramFault, fault_status, of_file};
pub use fault_text::fault_line;
pub use files::{Names, Which};
pub use refusal_text::{push_numbered, push_refused, refusal_line};
pub use told::{complain, help, say_no_memory, say_no_text, tell, write_all};

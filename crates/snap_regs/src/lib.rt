//! The registers of a shape, of any kind: every process may read them, and write those of its own.
#![tactic(auto)]

mod fault;
mod laws;
mod registers;
mod rows;

pub use fault::RegisterFault;
pub use laws::what_is_put_is_there;
pub use registers::{Registers, check_owner};
pub use snap_semantics::BitBank;
pub use snap_words::{Address, Bank};

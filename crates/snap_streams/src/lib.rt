//! What programs read and write: byte sources and sinks, files that are read whole, dialogs at a
//! console, and standard output whose reader may go away.
#![tactic(auto)]

mod byte_sink;
mod byte_source;
mod console;
mod dialog_fault;
mod ending;
mod file_fault;
mod folder;
mod messages;
mod piped;
mod read;
mod respondent;
mod sending;
mod source;
mod standard;
mod terminal;
mod turns;
mod typed_line;

pub use byte_sink::ByteSink;
pub use byte_source::ByteSource;
pub use console::Console;
pub use dialog_fault::DialogFault;
pub use ending::end;
pub use file_fault::{FileFault, reason};
pub use folder::Folder;
pub use messages::Messages;
pub use piped::Piped;
pub use respondent::Respondent;
pub use sending::{Unsent, say, write_all};
pub use source::{Disk, FileSource};
pub use standard::Std;
pub use terminal::Terminal;
use thiserror::Error;
pub use turns::talk;
/// The device failed.
#[derive(Clone, Copy, Debug, PartialEq, Eq, Error)]
#[error("the device failed")]
pub struct Failed;

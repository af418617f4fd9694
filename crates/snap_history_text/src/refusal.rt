//! `HistoryRefusal`: why a text is no history.
use snap_semantics::Fault;
use thiserror::Error;

/// Why a history is refused. The number is that of a text line, from 1.
#[derive(Clone, Copy, Debug, PartialEq, Eq, Error)]
pub enum HistoryRefusal {
    /// More than 16,777,216 bytes.
    #[error("H1 TooLong")]
    TooLong,
    /// The first form is not a shape of 1 to `snap_words::MAX_COUNT` processes and words.
    #[error("H2 BadShape")]
    BadShape,
    /// No form of an event.
    #[error("H3 BadEvent {0}")]
    BadEvent(u64),
    /// A process that is not there.
    #[error("H4 NoSuchProcess {0}")]
    NoSuchProcess(u64),
    /// A number that is not above that of the event before, or none of 64 bits.
    #[error("H5 NotRising {0}")]
    NotRising(u64),
    /// An update of a word that is not there.
    #[error("H6 NoSuchWord {0}")]
    NoSuchWord(u64),
    /// A call of a process whose operation has not ended.
    #[error("H7 Busy {0}")]
    Busy(u64),
    /// An event of a process that has crashed.
    #[error("H8 Crashed {0}")]
    Crashed(u64),
    /// An end of an operation that its process has not called.
    #[error("H9 NotCalled {0}")]
    NotCalled(u64),
    /// An answer with another number of values than there are words.
    #[error("H10 BadView {0}")]
    BadView(u64),
}

/// Why no history came of a text: memory ran out, or the text is no history.
pub type HistoryFault = Fault<HistoryRefusal>;

//! `Linearizability`: whether a history is linearizable.

/// Whether a history is linearizable, as far as that is decided.
#[derive(Clone, Copy, Debug, PartialEq, Eq)]
pub enum Linearizability {
    /// The operations could have taken place one after another.
    Linearizable,
    /// No order of the operations explains what the callers saw.
    NotLinearizable,
    /// Whether the history is linearizable is undecided.
    Undecided,
}

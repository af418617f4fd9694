//! `PictureRefusal`: why there is no picture of a listing's run under a schedule.
use snap_semantics::Refusal;
use thiserror::Error;

/// Why nothing is drawn.
#[derive(Clone, Copy, Debug, PartialEq, Eq, Error)]
pub enum PictureRefusal {
    #[error("{0}")]
    Input(Refusal),
    /// A run of this many items has no such items.
    #[error("D1 NoSuchItems {0}")]
    NoSuchItems(u64),
    /// More than 20,000 items: a picture takes fewer of them, by --from and --to.
    #[error("D2 TooManyItems {0}")]
    TooManyItems(u64),
}

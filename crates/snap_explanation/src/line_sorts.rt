//! `LineSort`: the sorts of lines of an input: of a listing, a schedule, scripts or commands.

/// A header line of a listing.
#[derive(Clone, Copy)]
pub enum Header {
    Kind,
    Scalars,
    Rows,
    Words,
    Views,
    Scan,
    Update,
}

/// A line of a listing, of a schedule, of scripts or of commands.
#[derive(Clone, Copy)]
pub enum LineSort {
    Header(Header),
    /// A line with a number and an instruction.
    Numbered,
    /// The first line of a schedule or of scripts.
    Shape,
    Item,
    Script,
    Command,
}

//! Why a listing, a schedule, a command, an image, a live call, a model or the program's input is
//! refused: an enum for each. A refusal is shown by its code, its name and its number.
use snap_words::WordFault;
use thiserror::Error;

/// Why a listing is refused. The number is that of a text line, from 1; of `NoSuchLine`, the number
/// of the line that is missing.
#[derive(Clone, Copy, Debug, PartialEq, Eq, Error)]
pub enum ListingRefusal {
    /// More than 65,536 bytes.
    #[error("L1 TooLong")]
    TooLong,
    /// Not the header line that is expected.
    #[error("L2 BadHeader {0}")]
    BadHeader(u64),
    /// No form of a line.
    #[error("L3 BadLine {0}")]
    BadLine(u64),
    /// A line number that is not above the one before.
    #[error("L4 NumberNotRising {0}")]
    NumberNotRising(u64),
    /// A name that is not declared.
    #[error("L5 UnknownName {0}")]
    UnknownName(u64),
    /// A name that is declared already.
    #[error("L6 NameTwice {0}")]
    NameTwice(u64),
    /// A name of another sort.
    #[error("L7 WrongKind {0}")]
    WrongKind(u64),
    /// A target that is no line.
    #[error("L8 NoSuchLine {0}")]
    NoSuchLine(u64),
    /// A 33rd local, or a 201st line.
    #[error("L9 TooMany {0}")]
    TooMany(u64),
    /// A name of more than eight letters, or a reserved word.
    #[error("L10 BadName {0}")]
    BadName(u64),
}

/// Why a schedule is refused. The number is that of a text line, from 1.
#[derive(Clone, Copy, Debug, PartialEq, Eq, Error)]
pub enum ScheduleRefusal {
    /// More than 4,194,304 bytes.
    #[error("S1 TooLong")]
    TooLong,
    /// The first form is not a shape of 1 to `snap_words::MAX_COUNT` processes and words.
    #[error("S2 BadShape")]
    BadShape,
    /// No form of an item.
    #[error("S3 BadItem {0}")]
    BadItem(u64),
    /// More than 1,000,000 items.
    #[error("S4 TooManyItems {0}")]
    TooManyItems(u64),
    /// A process that is not there.
    #[error("S5 NoSuchProcess {0}")]
    NoSuchProcess(u64),
}

/// Why a text of commands, or a command, is refused.
#[derive(Clone, Copy, Debug, PartialEq, Eq, Error)]
pub enum CommandRefusal {
    /// No form of a command. The number is that of a text line, from 1.
    #[error("G1 BadCommand {0}")]
    BadCommand(u64),
    /// No line of the listing has this number.
    #[error("G2 NoSuchLine")]
    NoSuchLine,
    /// A process that is not there.
    #[error("G3 NoSuchProcess")]
    NoSuchProcess,
    /// A register that is not there.
    #[error("G4 NoSuchRegister")]
    NoSuchRegister,
    /// A position behind the last item.
    #[error("G5 NoSuchPosition")]
    NoSuchPosition,
    /// A 65th mark.
    #[error("G6 TooManyMarks")]
    TooManyMarks,
    /// More than 1,048,576 bytes, or more than 10,000 commands.
    #[error("G7 TooLong")]
    TooLong,
}

/// Why bytes are no image of a listing.
#[derive(Clone, Copy, Debug, PartialEq, Eq, Error)]
pub enum ImageRefusal {
    /// The first four bytes are not those of an image.
    #[error("I1 NotAnImage")]
    NotAnImage,
    /// A version that is not known.
    #[error("I2 Version")]
    Version,
    /// A byte is missing.
    #[error("I3 Truncated")]
    Truncated,
    /// A byte that is no code in its place; places count from 0.
    #[error("I4 BadCode {0}")]
    BadCode(u64),
    /// A rule of listings that is broken. The number is the line's place among the lines, from 1,
    /// and 0 before the first line; of `NoSuchLine` it is the target.
    #[error("I5 Invalid {0}")]
    Invalid(ListingRefusal),
    /// Bytes behind the last line.
    #[error("I6 Extra")]
    Extra,
}

/// Why a live call is refused.
#[derive(Clone, Copy, Debug, PartialEq, Eq, Error)]
pub enum LiveRefusal {
    /// So many items are kept, the most that may be.
    #[error("V1 Full {0}")]
    Full(u64),
    /// The gate did not let this process on, or its script was not done after as many turns as it
    /// had.
    #[error("V2 TurnLimit {0}")]
    TurnLimit(u32),
    /// The least process whose seat was not handed in.
    #[error("V3 SeatMissing {0}")]
    SeatMissing(u32),
}

/// Why there is no model.
#[derive(Clone, Copy, Debug, PartialEq, Eq, Error)]
pub enum ModelRefusal {
    /// More than 8 processes or words, or more than 32 operations of a process.
    #[error("M1 TooLarge")]
    TooLarge,
    /// A number that is neither below 2^31 nor among the greatest 2^31 of 64 bits.
    #[error("M2 BadNumber {0}")]
    BadNumber(u64),
}

/// Why the program refuses its input.
#[derive(Clone, Copy, Debug, PartialEq, Eq, Error)]
pub enum Refusal {
    /// More than 16,777,216 bytes.
    #[error("P1 InputTooLong")]
    InputTooLong,
    /// Another number of parts than the subcommand takes.
    #[error("P2 WrongParts {0}")]
    WrongParts(u64),
    #[error("{0}")]
    Listing(ListingRefusal),
    #[error("{0}")]
    Image(ImageRefusal),
    #[error("{0}")]
    Schedule(ScheduleRefusal),
    /// A shape that does not fit the kind of registers.
    #[error("{0}")]
    Words(WordFault),
    #[error("{0}")]
    Commands(CommandRefusal),
}

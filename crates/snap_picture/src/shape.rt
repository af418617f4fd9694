//! `Shape`: what a picture shows of a run, by items and processes: values, operations, points,
//! reads, writes, tests, borrowed views and more. Items count from 1.
use snap_semantics::Op;
use snap_words::View;

/// The values from an item on, up to another one.
#[derive(Drop)]
pub struct Period {
    pub from: u64,
    pub to: u64,
    pub values: View,
}

/// How an operation ended.
#[derive(Drop)]
pub enum End {
    Answer(View),
    Done,
    Crash,
    Trap,
    /// The operation has not ended.
    Open,
}

/// An operation of a process, from the item that called it to the one that ended it.
#[derive(Drop)]
pub struct Bar {
    pub process: u32,
    pub op: Op,
    pub from: u64,
    pub to: u64,
    pub end: End,
}

/// Items of a process.
#[derive(Clone, Copy)]
pub struct Span {
    pub process: u32,
    pub from: u64,
    pub to: u64,
}

/// An item of a process, at a line.
#[derive(Clone, Copy)]
pub struct Spot {
    pub process: u32,
    pub item: u64,
    pub line: u64,
}

/// The item of a process that wrote a word.
#[derive(Clone, Copy)]
pub struct Written {
    pub process: u32,
    pub item: u64,
}

/// The read of a word, and who wrote it last.
#[derive(Clone, Copy)]
pub struct Read {
    pub spot: Spot,
    pub word: u64,
    pub written: Option<Written>,
}

/// The write of a word, with the values after it.
#[derive(Drop)]
pub struct Write {
    pub spot: Spot,
    pub word: u64,
    pub values: View,
}

/// A scan that takes a view at an item, from the scan of a lender that ended at another one.
#[derive(Clone, Copy)]
pub struct Loan {
    pub lender: u32,
    pub ended: u64,
    pub taken: Spot,
}

/// The point of a scan, the item after which the values are its answer, and how many double
/// collects it took.
#[derive(Drop)]
pub struct Point {
    pub scan: Span,
    pub item: u64,
    pub collects: u64,
    pub values: View,
}

/// What is drawn.
#[derive(Drop)]
pub enum Shape {
    Values(Period),
    Operation(Bar),
    /// A scan within an update.
    Embedded(Span),
    Read(Read),
    Write(Write),
    /// A test that ends a double collect, and whether it passed.
    Test(Spot, bool),
    Trap(Spot),
    Crash(Spot),
    Loan(Loan),
    Point(Point),
    /// A finished scan without a point.
    NoPoint(Span),
    /// An operation whose end no order of the operations explains.
    Unexplained(Span),
}

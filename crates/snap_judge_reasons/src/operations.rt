//! The operations of a list of events.
use snap_judge::{Action, Operation};
use snap_semantics::{Event, Happening, Op};
use std::alloc::{AllocError, Global};

/// The operations in the order of their calls, and the last operation of each process.
#[derive(Drop)]
struct Operations<'a> {
    all: Vec<Operation<'a>>,
    last: Vec<usize>,
}

/// Returns what is known of an operation when it is called: of a scan, that it sees no words.
fn called(event: &Event, op: Op) -> Operation<'static> {
    let action = match op {
        Op::Update { word, value } => Action::Sets { word, value },
        Op::Scan => Action::Sees(&[]),
    };
    Operation {
        process: event.process,
        call: event.item,
        end: None,
        action,
    }
}

/// Appends an operation that a process calls.
fn open(operations: &mut Operations<'_>, event: &Event, op: Op) -> Result<(), AllocError> {
    if let Some(last) = operations.last.get_mut(event.process as usize) {
        *last = operations.all.len();
    }
    operations.all.push(called(event, op))?;
    Ok(())
}

/// Ends the last operation of a process.
fn close<'a>(operations: &mut Operations<'a>, event: &Event, seen: Option<&'a [u64]>) {
    let Some(last) = operations.last.get(event.process as usize) else {
        return;
    };
    if let Some(operation) = operations.all.get_mut(*last) {
        operation.end = Some(event.item);
        if let Some(view) = seen {
            operation.action = Action::Sees(view);
        }
    }
}

/// Goes on by an event.
fn enter<'a>(operations: &mut Operations<'a>, event: &'a Event) -> Result<(), AllocError> {
    match &event.what {
        Happening::Call(op) => open(operations, event, *op)?,
        Happening::Answer(view) => close(operations, event, Some(view.as_slice())),
        Happening::Done => close(operations, event, None),
        Happening::Crash => {}
    }
    Ok(())
}

/// Returns the operations of `processes` processes in `events`, in the order of their calls; a scan
/// that has no answer sees no words.
///
/// # Errors
///
/// `AllocError` where memory runs out.
pub fn operations_of(
    alloc: Global,
    processes: usize,
    events: &[Event],
) -> Result<Vec<Operation<'_>>, AllocError> {
    let mut operations = Operations {
        all: Vec::new(alloc),
        last: vec![in alloc; 0; processes.saturating_add(1)]?,
    };
    for event in events {
        enter(&mut operations, event)?;
    }
    let Operations { all, .. } = operations;
    Ok(all)
}

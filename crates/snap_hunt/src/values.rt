//! `with_plain_values`: gives the updates of a failing schedule the values 1, 2 and so on, the same
//! for the same.
use snap_semantics::{Item, Op};
use std::alloc::{AllocError, Global};

/// Returns the number of a value, as values come first; 0 keeps its own.
fn number_of(seen: &mut Vec<u64>, value: u64) -> Result<u64, AllocError> {
    if value == 0 {
        return Ok(0);
    }
    for k in 0..seen.len() {
        if seen[k] == value {
            return Ok(k as u64 + 1);
        }
    }
    seen.push(value)?;
    Ok(seen.len() as u64)
}

/// Returns an item with the number of its value in place of the value.
fn with_plain_value(seen: &mut Vec<u64>, item: Item) -> Result<Item, AllocError> {
    match item {
        Item::Call(process, Op::Update { word, value }) => {
            let value = number_of(seen, value)?;
            Ok(Item::Call(process, Op::Update { word, value }))
        }
        Item::Call(_, Op::Scan) | Item::Step(_) | Item::Crash(_) => Ok(item),
    }
}

/// Returns the items with the numbers 1, 2 and so on as values: the same for the same, and 0 for 0.
pub(crate) fn with_plain_values(alloc: Global, items: &[Item]) -> Result<Vec<Item>, AllocError> {
    let mut seen = Vec::new(alloc);
    let mut plain = Vec::new(alloc);
    for item in items {
        plain.push(with_plain_value(&mut seen, *item)?)?;
    }
    Ok(plain)
}

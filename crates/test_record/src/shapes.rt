//! Tests of shapes, views and names: the bounds of shapes, copies of views, and equal names.
use snap_semantics::Name;
use snap_words::{Shape, View, WordFault};
use std::alloc::{AllocError, Global};

/// Returns whether there is a shape of `n` processes and `w` words.
fn has_shape(n: u64, w: u64) -> bool {
    match Shape::new(n, w) {
        Ok(shape) => shape.n() == n && shape.w() == w,
        Err(_) => false,
    }
}

/// Returns whether `n` and `w` are refused as a shape.
fn is_refused(n: u64, w: u64) -> bool {
    match Shape::new(n, w) {
        Ok(_) => false,
        Err(fault) => fault == WordFault::BadShape,
    }
}

#[test]
fn bounds(rt: HostRuntime) {
    assert!(rt; has_shape(1, 1) && has_shape(64, 1) && has_shape(64, 64));
    for (n, w) in [(0, 1), (1, 0), (65, 1), (1, 65)] {
        assert!(rt; is_refused(n, w), "{n} {w}");
    }
}

/// Returns whether the copy of a view has these values, and the copy of the copy.
fn copies_as(alloc: Global, view: &View, want: &[u64]) -> Result<bool, AllocError> {
    let copy = view.copy(alloc)?;
    let again = copy.copy(alloc)?;
    Ok(copy.as_slice() == want && again.as_slice() == want)
}

/// Returns whether a view of 7 and 0 is copied, of values of its own and of shared ones.
fn is_copied(alloc: Global) -> Result<bool, AllocError> {
    let own = View::of(vec![in alloc; 7, 0]?);
    let shared = View::shared(alloc, vec![in alloc; 7, 0]?)?;
    Ok(copies_as(alloc, &own, &[7, 0])? && copies_as(alloc, &shared, &[7, 0])?)
}

#[test]
fn copies(rt: HostRuntime) {
    assert_eq!(rt; is_copied(rt.alloc()), Ok(true));
}

#[test]
fn compares(rt: HostRuntime) {
    let moved = Name::of(b"moved".as_slice());
    assert!(rt; moved.is(&Name::of(b"moved".as_slice())));
    assert!(rt; !moved.is(&Name::of(b"move".as_slice())));
    assert!(rt; moved.letters() == b"moved".as_slice());
}

//! `ImageFault`: why an image was not decoded: memory ran out, or the bytes are no image.
use snap_semantics::{Fault, ImageRefusal};

/// Why an image was not decoded: memory ran out, or the bytes are no image.
pub type ImageFault = Fault<ImageRefusal>;

//! The laws of images, proved: what is decoded has these bytes as its
//! image, each image of a listing is decoded, and none begins another.
ghost use Rattle.snap_image.specs.Laws.{DecodesAllImages, DecodesOnlyImages};
ghost use Rattle.snap_image.specs.Laws.{ImagesAreBytes, RefusesMore};

/// What is decoded is a listing with comments, and the bytes are its image in some version.
pub fn what_is_decoded_is_an_image()
    ensures { DecodesOnlyImages }
{}

/// Each image of every listing is decoded as that listing.
pub fn what_is_encoded_is_decoded()
    ensures { DecodesAllImages }
{}

/// No image is the beginning of another one.
pub fn more_than_an_image_is_refused()
    ensures { RefusesMore }
{}

/// An image consists of bytes.
pub fn images_are_bytes()
    ensures { ImagesAreBytes }
{}

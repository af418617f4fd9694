//! `Cursor`: what is left of an image that is read from front to back, by bytes, numbers, codes and
//! slots.
ghost use Rattle.std.specs.Prelude.{◌≡◌, Bool, if◌then◌else◌};
ghost use Rattle.snap_image.specs.ImageForms.{byte_in, bytes_in, short_in, long_in};
ghost use Rattle.snap_image.specs.ImageForms.{code_in, slot_in, count_in, flag_in};
ghost use Rattle.snap_image.specs.ImageListing.{signature_in, ended};
ghost use Rattle.snap_image.specs.Reads.{Reads};

use crate::image::{Coded, with_code};
use snap_semantics::{ImageRefusal, ListingRefusal, Name};
use std::marker::Model;

/// The first bytes of an image.
const SIGNATURE: &[u8] = b"SNAP";

/// What is left of an image, seen with the number of bytes before it.
#[derive(Drop)]
pub struct Cursor<'a> {
    passed: usize,
    rest: &'a [u8],
}

impl<'a> Model for Cursor<'a> {
    ghost use Rattle.std.specs.Prelude.{◌+◌, ◌<◌, ◌^◌, length};
    ghost use Rattle.snap_image.specs.ImageForms.{Rest};

    ghost Value = { Rest };

    ghost view = { λ c. record { passed = c.passed; bytes = c.rest.now } };

    ghost invariant = { λ c. c.passed + length c.rest.now < 2 ^ 64 };
}

impl<'a> Cursor<'a> {
    /// Returns what is left of `image` behind its signature.
    ///
    /// # Errors
    ///
    /// `NotAnImage` where the signature is not there.
    pub fn new(image: &'a [u8]) -> Result<Cursor<'a>, ImageRefusal>
        ensures { result ≡ signature_in image.now }
    {
        if image.len() >= 4 && &image[..4] == SIGNATURE {
            Ok(Cursor {
                passed: 4,
                rest: &image[4..],
            })
        } else {
            Err(ImageRefusal::NotAnImage)
        }
    }

    /// Returns how many bytes stand before what is left.
    pub fn passed(&self) -> u64
        ensures { result ≡ self.now.passed }
    {
        self.passed as u64
    }

    /// Reads a byte.
    ///
    /// # Errors
    ///
    /// `Truncated` where none is left.
    pub fn byte(&mut self) -> Result<u8, ImageRefusal>
        ensures { Reads result self.new (byte_in self.old) }
    {
        if self.rest.is_empty() {
            return Err(ImageRefusal::Truncated);
        }
        let byte = self.rest[0];
        self.passed += 1;
        self.rest = &self.rest[1..];
        Ok(byte)
    }

    /// Reads `N` bytes.
    fn bytes<const N: usize>(&mut self) -> Result<[u8; N], ImageRefusal>
        ensures { Reads result self.new (bytes_in N self.old) }
    {
        if self.rest.len() < N {
            return Err(ImageRefusal::Truncated);
        }
        let mut bytes = [0; N];
        bytes.copy_from_slice(&self.rest[..N]);
        self.passed += N;
        self.rest = &self.rest[N..];
        Ok(bytes)
    }

    /// Reads a number of two bytes, the high one first.
    ///
    /// # Errors
    ///
    /// `Truncated` where fewer are left.
    #[tactic(auto, unfolding(crate::specs::ImageForms::short_in))]
    pub fn short(&mut self) -> Result<u64, ImageRefusal>
        ensures { Reads result self.new (short_in self.old) }
    {
        let bytes = self.bytes::<2>()?;
        Ok(u64::from(u16::from_be_bytes(bytes)))
    }

    /// Reads a number of eight bytes, the highest first.
    ///
    /// # Errors
    ///
    /// `Truncated` where fewer are left.
    #[tactic(auto, unfolding(crate::specs::ImageForms::long_in))]
    pub fn long(&mut self) -> Result<u64, ImageRefusal>
        ensures { Reads result self.new (long_in self.old) }
    {
        let bytes = self.bytes::<8>()?;
        Ok(u64::from_be_bytes(bytes))
    }

    /// Reads a byte, and returns the value that it is the code of.
    ///
    /// # Errors
    ///
    /// `Truncated` where no byte is left; `BadCode` where it is no code.
    #[tactic(auto, unfolding(crate::specs::ImageForms::code_in))]
    pub fn code<T: Coded>(&mut self) -> Result<T, ImageRefusal>
        ensures { Reads result self.new (code_in T.table self.old) }
    {
        let at = self.passed();
        let byte = self.byte()?;
        match with_code::<T>(byte) {
            Some(value) => Ok(value),
            None => Err(ImageRefusal::BadCode(at)),
        }
    }

    /// Reads the slot of a name, and returns the name; `line` is the place of the line in which it
    /// stands.
    ///
    /// # Errors
    ///
    /// `Truncated` where no byte is left; `Invalid` with `UnknownName` where `names` have no such
    /// slot.
    #[tactic(auto, unfolding(crate::specs::ImageForms::slot_in))]
    pub fn slot(&mut self, line: u64, names: &[Name]) -> Result<Name, ImageRefusal>
        ensures { Reads result self.new (slot_in line names.now self.old) }
    {
        let byte = self.byte()?;
        match names.get(byte as usize) {
            Some(name) => Ok(*name),
            None => Err(ImageRefusal::Invalid(ListingRefusal::UnknownName(line))),
        }
    }

    /// Reads how many comparisons a condition has, 1 to 4.
    ///
    /// # Errors
    ///
    /// `Truncated` where no byte is left; `BadCode` where the count is another one.
    #[tactic(auto, unfolding(crate::specs::ImageForms::count_in))]
    pub fn count(&mut self) -> Result<u8, ImageRefusal>
        ensures { Reads result self.new (count_in self.old) }
    {
        let at = self.passed();
        let count = self.byte()?;
        if 1 <= count && count <= 4 {
            Ok(count)
        } else {
            Err(ImageRefusal::BadCode(at))
        }
    }

    /// Reads whether an optional part follows, a byte that is 0 or 1.
    ///
    /// # Errors
    ///
    /// `Truncated` where no byte is left; `BadCode` where the byte is another one.
    #[tactic(auto, unfolding(crate::specs::ImageForms::flag_in))]
    pub fn flag(&mut self) -> Result<bool, ImageRefusal>
        ensures { Reads result self.new (flag_in self.old) }
    {
        let at = self.passed();
        let flag = self.byte()?;
        if flag == 0 {
            Ok(false)
        } else if flag == 1 {
            Ok(true)
        } else {
            Err(ImageRefusal::BadCode(at))
        }
    }

    /// Checks that nothing is left.
    ///
    /// # Errors
    ///
    /// `Extra` where bytes are left.
    pub fn ended(&self) -> Result<(), ImageRefusal>
        ensures { result ≡ ended self.now.bytes }
    {
        if self.rest.is_empty() {
            Ok(())
        } else {
            Err(ImageRefusal::Extra)
        }
    }
}

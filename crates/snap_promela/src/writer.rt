//! `Writer`: the text of a model as far as it is written, and the numbers and names in it.
ghost use Rattle.std.specs.Prelude.{◌≡◌};
ghost use Rattle.snap_promela.specs.Model.{is_beyond};

use memchr::memchr;
use snap_listing_core::Listing;
use snap_sched::Scripts;
use snap_semantics::Name;
use snap_text::Draft;
use snap_words::KindTag;
use std::alloc::{AllocError, Global};

/// The least number that is not written as itself in a model.
const LEAST_BEYOND: u64 = 2_147_483_648;

/// The greatest number that is not written as its difference from 2^64.
const MOST_BEYOND: u64 = 18_446_744_071_562_067_967;

/// Returns whether a number has no counterpart in a model.
pub(crate) fn is_beyond(number: u64) -> bool
    ensures { result ≡ is_beyond number }
{
    LEAST_BEYOND <= number && number <= MOST_BEYOND
}

/// Where a line is written: the process, the number of the line, the place of a quantifier, and the
/// row whose old values are kept aside.
#[derive(Clone, Copy)]
pub(crate) struct Here {
    pub(crate) me: u64,
    pub(crate) line: u64,
    pub(crate) place: u64,
    pub(crate) aside: Option<Name>,
}

impl Here {
    /// Returns the same place in the text at another place of a quantifier.
    pub(crate) fn at(&self, place: u64) -> Here {
        Here {
            me: self.me,
            line: self.line,
            place,
            aside: self.aside,
        }
    }
}

/// A model of a listing and scripts, as far as it is written, and a number that has no counterpart
/// in a model, if there was one.
pub(crate) struct Writer<'a> {
    draft: Draft,
    beyond: Option<u64>,
    pub(crate) listing: &'a Listing,
    pub(crate) scripts: &'a Scripts,
    /// How many processes there are.
    pub(crate) n: u64,
    /// How many words there are.
    pub(crate) w: u64,
}

impl<'a> Drop for Writer<'a> {
    // A drop that is written out is one call: it is proved once, and not again at each drop.
    fn drop(self) {
        let Writer {
            draft: _,
            beyond: _,
            listing: _,
            scripts: _,
            n: _,
            w: _,
        } = self;
    }
}

impl<'a> Writer<'a> {
    /// Returns an empty model.
    pub(crate) fn new(alloc: Global, listing: &'a Listing, scripts: &'a Scripts) -> Writer<'a> {
        let shape = scripts.shape();
        Writer {
            draft: Draft::new(alloc),
            beyond: None,
            listing,
            scripts,
            n: shape.n(),
            w: shape.w(),
        }
    }

    /// Returns the kind of the registers.
    pub(crate) fn kind(&self) -> KindTag {
        self.listing.kind()
    }

    /// Returns how many places rows and `words` locals have.
    pub(crate) fn places(&self) -> u64 {
        if self.n < self.w { self.w } else { self.n }
    }

    /// Appends a text.
    pub(crate) fn say(&mut self, text: &[u8]) {
        self.draft.push(text);
    }

    /// Appends a text so many times.
    pub(crate) fn repeat(&mut self, count: u64, text: &[u8]) {
        for _ in 0..count {
            self.say(text);
        }
    }

    /// Appends a number in digits.
    pub(crate) fn number(&mut self, number: u64) {
        self.draft.push_number(number);
    }

    /// Appends a text, with the next of `numbers` for each `$`.
    pub(crate) fn fill(&mut self, text: &[u8], numbers: &[u64]) {
        let mut rest = text;
        for number in numbers {
            rest = self.fill_one(rest, *number);
        }
        self.say(rest);
    }

    /// Appends the front of a text as far as its first `$`, and `number` for the `$`; and returns
    /// the rest of the text.
    fn fill_one<'b>(&mut self, text: &'b [u8], number: u64) -> &'b [u8] {
        match memchr(b'$', text) {
            Some(k) => {
                self.say(&text[..k]);
                self.number(number);
                &text[k + 1..]
            }
            None => text,
        }
    }

    /// Appends a number of 64 bits as a number of a model: the greatest ones are below 0.
    pub(crate) fn value(&mut self, number: u64) {
        if is_beyond(number) {
            self.beyond = Some(number);
            self.say(b"0");
        } else if number < LEAST_BEYOND {
            self.number(number);
        } else {
            self.fill(b"(-$ - 1)", &[u64::MAX - number]);
        }
    }

    /// Appends a local, by the letter of its sort and its name.
    pub(crate) fn local(&mut self, sort: &[u8], name: &Name) {
        self.say(sort);
        self.say(name.letters());
    }

    /// Returns the number that has no counterpart in a model, if there was one.
    pub(crate) fn beyond(&self) -> Option<u64> {
        self.beyond
    }

    /// Returns the whole text.
    pub(crate) fn finish(self) -> Result<Vec<u8>, AllocError> {
        let Writer {
            draft,
            beyond: _,
            listing: _,
            scripts: _,
            n: _,
            w: _,
        } = self;
        draft.finish()
    }
}

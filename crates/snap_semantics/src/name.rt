//! `Name`: the name of a local of a listing, at most eight letters;
//! an identifier that is too long is kept by its first nine.
ghost use Rattle.std.specs.Prelude.{◌≡◌, ◌≤◌, ◌<◌, List, ℕ, length, bytes_eq};

use std::marker::Model;

/// A name, seen as the list of its letters. Names that are declared have 1 to 8 letters; a longer
/// identifier in the place of a name is kept by its first nine letters, which no declared name has.
#[derive(Clone, Copy, Debug, PartialEq, Eq)]
pub struct Name {
    letters: [u8; 9],
    len: u8,
}

impl Model for Name {
    ghost use Rattle.std.specs.Prelude.{◌≡◌, List, ℕ, ◌≤◌, ◌-◌, ◌++◌, length};
    ghost use Rattle.std.specs.Coded.{coded_list, coded_ℕ};

    ghost Value = { List ℕ };

    ghost coded = { coded_list coded_ℕ };

    ghost use Rattle.snap_semantics.specs.Name.{letters_of, padded, IsPadded, padded_again};

    ghost view = { letters_of };

    ghost invariant = { IsPadded };

    ghost inverse = { padded };

    ghost inverse_ok = { padded_again };
}

impl Name {
    /// Returns the name with the letters `text`, at most nine.
    pub fn of(text: &[u8]) -> Name
        requires { length text.now ≤ 9 }
        ensures { result ≡ text.now }
    {
        let mut letters = [0; 9];
        letters[..text.len()].copy_from_slice(text);
        Name {
            letters,
            len: text.len() as u8,
        }
    }

    /// Returns whether two names are the same.
    pub fn is(&self, other: &Name) -> bool
        ensures { result ≡ bytes_eq self.now other.now }
    {
        self.letters[..self.len as usize] == other.letters[..other.len as usize]
    }

    /// Returns the letters of the name.
    pub fn letters(&self) -> &[u8]
        ensures { result.now ≡ self.now }
    {
        &self.letters[..self.len as usize]
    }
}

//! `Report`: the text of a printed report of a machine.
ghost use Rattle.std.specs.Prelude.{◌≡◌};

use std::marker::Model;

/// The text of a report.
#[derive(Drop)]
pub struct Report {
    text: Vec<u8>,
}

impl Model for Report {
    ghost use Rattle.std.specs.Prelude.{List, ℕ};

    ghost Value = { List ℕ };

    ghost view = { λ r. r.text.items };
}

impl Report {
    /// Returns the report of this text.
    pub fn of(text: Vec<u8>) -> Report
        ensures { result ≡ text.items }
    {
        Report { text }
    }

    /// Returns the text.
    pub fn as_slice(&self) -> &[u8]
        ensures { result.now ≡ self.now }
    {
        self.text.as_slice()
    }
}

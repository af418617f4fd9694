//! `by_word` and `by_byte`: what a table of `wording` has at a piece of a line, and at a byte.
ghost use Rattle.std.specs.Prelude.{◌≡◌, map};
ghost use Rattle.snap_explanation.specs.Said.{view_row, view_range, by_word, by_byte};

/// Returns the text in the first row of a piece, or else this.
pub fn by_word(
    table: &[(&[u8], &'static [u8])],
    otherwise: &'static [u8],
    piece: &[u8],
) -> &'static [u8]
    ensures { result.now ≡ by_word (map view_row table.now) otherwise.now piece.now }
{
    for row in table {
        if row.0 == piece {
            return row.1;
        }
    }
    otherwise
}

/// Returns the text in the first range with a byte.
pub fn by_byte(table: &[(u8, u8, &'static [u8])], byte: u8) -> &'static [u8]
    ensures { result.now ≡ by_byte (map view_range table.now) byte }
{
    for range in table {
        if range.0 <= byte && byte <= range.1 {
            return range.2;
        }
    }
    b""
}

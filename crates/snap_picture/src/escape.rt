//! `push_escaped`: any text, put into an SVG element with markup and unprinted bytes replaced.
ghost use Rattle.std.specs.Prelude.{◌≡◌, ◌<◌};
ghost use Rattle.snap_text.specs.Drafted.{Adds};
ghost use Rattle.snap_picture.specs.Escape.{
  BeginsNoTag,
  ComesBack,
  escaped,
  escaped_byte,
  hex_digit,
  is_markup,
  is_printed,
  plane,
  reference,
};

use snap_text::Draft;

/// Returns whether a byte is a part of markup.
fn is_markup(byte: u8) -> bool
    ensures { result ≡ is_markup byte }
{
    byte == b'&' || byte == b'<' || byte == b'>' || byte == b'"' || byte == b'\''
}

/// Returns whether a byte is a tab, a line feed, or a printed character of ASCII.
fn is_printed(byte: u8) -> bool
    ensures { result ≡ is_printed byte }
{
    byte == b'\t' || byte == b'\n' || (32 <= byte && byte <= 126)
}

/// Returns a digit to base 16.
fn hex_digit(digit: u8) -> u8
    requires { digit < 16 }
    ensures { result ≡ hex_digit digit }
{
    if digit < 10 { 48 + digit } else { 55 + digit }
}

/// Returns the first two of the four digits of a reference.
fn plane(byte: u8) -> &'static [u8]
    ensures { result.now ≡ plane byte }
{
    if is_markup(byte) { b"00" } else { b"E0" }
}

/// Appends the reference that stands for a byte.
#[tactic(auto, unfolding(crate::specs::Escape::reference))]
fn push_reference(out: &mut Draft, byte: u8)
    ensures { Adds out.old out.new (reference byte) }
{
    out.push(b"&#x");
    out.push(plane(byte));
    let digits = [hex_digit(byte / 16), hex_digit(byte % 16), b';'];
    out.push(&digits);
}

/// Appends what stands for a byte.
#[tactic(auto, unfolding(crate::specs::Escape::escaped_byte))]
fn push_byte(out: &mut Draft, byte: u8)
    ensures { Adds out.old out.new (escaped_byte byte) }
{
    if is_printed(byte) && !is_markup(byte) {
        out.push(&[byte])
    } else {
        push_reference(out, byte);
    }
}

/// Appends what stands for a text.
pub fn push_escaped(out: &mut Draft, text: &[u8])
    ensures { Adds out.old out.new (escaped text.now) }
{
    for byte in text {
        push_byte(out, *byte);
    }
}

/// What is escaped begins no tag.
pub fn what_is_escaped_begins_no_tag()
    ensures { BeginsNoTag }
{}

/// What is escaped comes back.
pub fn what_is_escaped_comes_back()
    ensures { ComesBack }
{}

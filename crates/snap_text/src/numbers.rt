//! Lines that are a number, or a number, `*` and a number, with nothing between them: most lines of
//! a schedule.
ghost use Rattle.std.specs.Prelude.{◌≡◌, None, Some, IfSome};
ghost use Rattle.snap_text.specs.Numbers.{BeginsWithNumber, BeginsWithLine, number_tokens};

use crate::lexer::is_digit;

/// The largest number to which one more digit may be appended, so that it has at most nine digits.
const MOST_BEFORE_DIGIT: u64 = 99_999_999;

/// Reads the number that the digits at the front spell, and returns what stands behind them too;
/// `None` where there are no digits or more than nine, or zero before others.
pub(crate) fn number_front(bytes: &[u8]) -> Option<(u64, &[u8])>
    ensures { IfSome result (λ x. BeginsWithNumber bytes.now x.0 x.1.now) }
{
    let (digit, _) = bytes.split_first()?;
    if !is_digit(*digit) {
        return None;
    }
    let mut value = u64::from(*digit - b'0');
    let mut len = 1;
    while len < bytes.len() && is_digit(bytes[len]) {
        if value == 0 || value > MOST_BEFORE_DIGIT {
            return None;
        }
        value = value * 10 + u64::from(bytes[len] - b'0');
        len += 1;
    }
    let (_, behind) = bytes.split_at(len);
    Some((value, behind))
}

/// Reads the first line if it is one digit and its line feed, and returns the lines behind it too.
fn digit_line(bytes: &[u8]) -> Option<(u64, &[u8])>
    ensures { IfSome result (λ x. BeginsWithLine bytes.now (number_tokens x.0 None) x.1.now) }
{
    let (digit, behind) = bytes.split_first()?;
    let (end, rest) = behind.split_first()?;
    if *end != b'\n' {
        return None;
    }
    if is_digit(*digit) {
        return Some((u64::from(*digit - b'0'), rest));
    }
    None
}

/// Reads the first line if it is two digits, the first of which is not zero, and its line feed, and
/// returns the lines behind it too.
#[inline(always)]
fn two_digits_line(bytes: &[u8]) -> Option<(u64, &[u8])>
    ensures { IfSome result (λ x. BeginsWithLine bytes.now (number_tokens x.0 None) x.1.now) }
{
    let (tens, behind) = bytes.split_first()?;
    let (ones, behind) = behind.split_first()?;
    let (end, rest) = behind.split_first()?;
    if *end != b'\n' || *tens == b'0' {
        return None;
    }
    if is_digit(*tens) && is_digit(*ones) {
        let number = u64::from(*tens - b'0') * 10 + u64::from(*ones - b'0');
        return Some((number, rest));
    }
    None
}

/// Reads the first line if it is a digit, `*`, a digit and its line feed, and returns the lines
/// behind it too.
#[inline(always)]
fn starred_digits_line(bytes: &[u8]) -> Option<(u64, u64, &[u8])>
    ensures { IfSome result (λ x. BeginsWithLine bytes.now (number_tokens x.0 (Some x.1)) x.2.now) }
{
    let (first, behind) = bytes.split_first()?;
    let (star, behind) = behind.split_first()?;
    let (second, behind) = behind.split_first()?;
    let (end, rest) = behind.split_first()?;
    if *star != b'*' || *end != b'\n' {
        return None;
    }
    if is_digit(*first) && is_digit(*second) {
        return Some((u64::from(*first - b'0'), u64::from(*second - b'0'), rest));
    }
    None
}

/// Reads the first line if it is `I` or `I*K` and its line feed, and returns its numbers and the
/// lines behind it.
#[inline(always)]
pub fn numbers_front(bytes: &[u8]) -> Option<(u64, Option<u64>, &[u8])>
    ensures { IfSome result (λ x. BeginsWithLine bytes.now (number_tokens x.0 x.1) x.2.now) }
{
    // Most lines of a schedule are one digit.
    if let Some((digit, rest)) = digit_line(bytes) {
        return Some((digit, None, rest));
    }
    if let Some((number, rest)) = two_digits_line(bytes) {
        return Some((number, None, rest));
    }
    if let Some((first, second, rest)) = starred_digits_line(bytes) {
        return Some((first, Some(second), rest));
    }
    let (first, behind) = number_front(bytes)?;
    let (symbol, rest) = behind.split_first()?;
    if *symbol == b'\n' {
        return Some((first, None, rest));
    }
    if *symbol != b'*' {
        return None;
    }
    let (second, behind) = number_front(rest)?;
    let (end, rest) = behind.split_first()?;
    if *end != b'\n' {
        return None;
    }
    Some((first, Some(second), rest))
}

//! Decimal numbers of texts.

ghost use Rattle.std.specs.Prelude.{◌≡◌, MatchOption};
ghost use Rattle.cm_script.specs.Numbers.{IsNoNumber, IsNumberOf, number_below};

use itoa::Buffer;
use std::str;

/// The number of 32 bits whose decimal text this is: digits alone, and no leading zero but in `0` itself.
pub fn number_of(text: &[u8]) -> Option<u32>
    ensures { MatchOption result (IsNoNumber text.now) (IsNumberOf text.now) }
{
    let Ok(digits) = str::from_utf8(text) else {
        return None;
    };
    let Ok(number) = digits.parse::<u32>() else {
        return None;
    };
    // `parse` takes a sign and leading zeros too: only the number's own text is right.
    let mut buffer = Buffer::new();
    if buffer.format(number).as_bytes() == text {
        Some(number)
    } else {
        None
    }
}

// The number below a limit whose decimal text this is.
pub(crate) fn number_below(limit: u32, text: &[u8]) -> Option<u32>
    ensures { result ≡ number_below limit text.now }
{
    let Some(number) = number_of(text) else {
        return None;
    };
    if number < limit { Some(number) } else { None }
}

//! Decimal numbers of texts.

ghost use Rattle.std.specs.Prelude.{◌≡◌, MatchOption};
ghost use Rattle.cm_command.specs.Texts.{IsNoNumberTo, IsNumberTo};

use itoa::Buffer;

/// The number up to a limit whose decimal text this is: digits alone, and no leading zero but in `0` itself.
pub fn number_to(limit: u64, text: &str) -> Option<u64>
    ensures { MatchOption result (IsNoNumberTo limit text.now) (IsNumberTo limit text.now) }
{
    let Ok(number) = text.parse::<u64>() else {
        return None;
    };
    // `parse` takes a sign and leading zeros too: only the number's own text is right.
    let mut buffer = Buffer::new();
    if number <= limit && buffer.format(number) == text {
        Some(number)
    } else {
        None
    }
}

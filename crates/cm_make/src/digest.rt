//! Sixteen hexadecimal digits.

ghost use Rattle.std.specs.Prelude.{◌≡◌};
ghost use Rattle.cm_make.specs.Made.{hex_text as hex_of};

const HEX_DIGITS: [u8; 16] = *b"0123456789abcdef";

/// The hexadecimal digits of a number, the highest first, in lower case.
pub(crate) fn hex_text(number: u64) -> [u8; 16]
    ensures { result ≡ hex_of number }
{
    let mut text = [0; 16];
    for place in 0..16 {
        text[place] = HEX_DIGITS[(number >> (60 - 4 * place)) as usize % 16];
    }
    text
}

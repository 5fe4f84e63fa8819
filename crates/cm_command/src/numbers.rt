//! The numbers of a geometry, as a word of the command has them.

ghost use Rattle.std.specs.Prelude.{◌≡◌, MatchOption};
ghost use Rattle.cm_command.specs.Numbers.{AreNumbersOf};
ghost use Rattle.cm_command.specs.Texts.{BeginsWith, BeginsWithNone, HasNoNumbers, IsNoNumberTo, IsNumberTo};

use crate::number::number_to;

/// Five numbers, of which a geometry is to be made.
#[derive(Clone, Copy, Debug, PartialEq, Eq)]
pub struct Numbers {
    pub segments: u32,
    pub tiers: u32,
    pub chunks: u32,
    pub chunk_words: u32,
    pub extra: u32,
}

/// The numbers where none are given.
impl Default for Numbers {
    ghost use Rattle.cm_command.specs.Numbers.{default_numbers};

    ghost is_default = { λ n. n ≡ default_numbers };

    fn default() -> Numbers {
        Numbers {
            segments: 16,
            tiers: 4,
            chunks: 1024,
            chunk_words: 8,
            extra: 48,
        }
    }
}

// The number of 32 bits whose text this is.
fn number_of(text: &str) -> Option<u32>
    ensures { MatchOption result (IsNoNumberTo u32.MAX text.now) (IsNumberTo u32.MAX text.now) }
{
    let number = number_to(u64::from(u32::MAX), text)?;
    Some(number as u32)
}

// The number before the first comma of a text, and what stands behind that comma.
fn number_before_comma(text: &str) -> Option<(u32, &str)>
    ensures { MatchOption result (BeginsWithNone text.now) (λ found. BeginsWith text.now found.0 found.1.now) }
{
    let (digits, rest) = text.split_once(',')?;
    let number = number_of(digits)?;
    Some((number, rest))
}

/// The five decimal numbers of a text, with commas between them.
pub fn numbers_of(text: &str) -> Option<Numbers>
    ensures { MatchOption result (HasNoNumbers text.now) (AreNumbersOf text.now) }
{
    let (segments, others) = number_before_comma(text)?;
    let (tiers, others) = number_before_comma(others)?;
    let (chunks, others) = number_before_comma(others)?;
    let (chunk_words, last) = number_before_comma(others)?;
    let extra = number_of(last)?;
    Some(Numbers {
        segments,
        tiers,
        chunks,
        chunk_words,
        extra,
    })
}

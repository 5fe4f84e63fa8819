//! Bytes in words of 64 bits.

ghost use Rattle.std.specs.Prelude.{◌≡◌, ◌≤◌, length};
ghost use Rattle.cm_geo.specs.declared.limits.TheConstants.{MAX_VALUE_BYTES};
ghost use Rattle.cm_geo.specs.Need.{parts_for};
ghost use Rattle.cm_plain.specs.Readings.{padded, head_of as head_in};
ghost use Rattle.cm_entry.specs.Packing.{AreShort, IsWordNumber, hash_on, part_of, word_of as word_in};

use crate::hashing::hash_word;

/// The words of these bytes, 8 bytes a word.
pub(crate) fn words_for(bytes: &[u8]) -> u32
    requires { length bytes.now ≤ MAX_VALUE_BYTES }
    ensures { result ≡ parts_for 8 (length bytes.now) }
{
    bytes.len().div_ceil(8) as u32
}

/// The word of at most 8 bytes, with zeros behind them.
#[tactic(auto, unfolding(crate::specs::Packing::word_of))]
fn word_of(bytes: &[u8]) -> u64
    requires { length bytes.now ≤ 8 }
    ensures { result ≡ word_in bytes.now }
{
    if bytes.len() == 8 {
        return u64::from_le_bytes([
            bytes[0], bytes[1], bytes[2], bytes[3], bytes[4], bytes[5], bytes[6], bytes[7],
        ]);
    }
    let mut padded = [0; 8];
    padded[..bytes.len()].copy_from_slice(bytes);
    u64::from_le_bytes(padded)
}

/// One of the words of these bytes.
pub(crate) fn nth_word(bytes: &[u8], number: u32) -> u64
    requires { IsWordNumber bytes.now number }
    ensures { result ≡ word_in (part_of bytes.now number) }
{
    let rest = &bytes[8 * number as usize..];
    word_of(&rest[..rest.len().min(8)])
}

/// A hash that goes on over the words of these bytes.
pub(crate) fn hash_words(state: u64, bytes: &[u8]) -> u64
    requires { length bytes.now ≤ MAX_VALUE_BYTES }
    ensures { result ≡ hash_on state (padded bytes.now) }
{
    let mut hash = state;
    for number in 0..words_for(bytes) {
        hash = hash_word(hash, nth_word(bytes, number));
    }
    hash
}

/// The first word of an entry: the length of its key, and behind it that of its value.
pub(crate) fn head_of(key: &[u8], value: &[u8]) -> u64
    requires { AreShort key.now value.now }
    ensures { result ≡ head_in key.now value.now }
{
    key.len() as u64 + ((value.len() as u64) << 32)
}

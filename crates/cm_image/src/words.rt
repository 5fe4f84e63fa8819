//! Words as bytes, the lowest byte of each first.

ghost use Rattle.std.specs.Prelude.{◌≡◌, ◌<◌, ◌+◌, ◌*◌, ◌/◌, ◌%◌, ◌^◌, ◌++◌, OnOk, length, vec_len};
ghost use Rattle.cm_image.specs.Images.{word_bytes};

use byteorder::{ByteOrder, LittleEndian};
use std::alloc::AllocError;

/// Appends the bytes of words. Takes memory where there is no room for them.
pub(crate) fn extend_bytes(bytes: &mut Vec<u8>, words: &[u64]) -> Result<(), AllocError>
    requires { vec_len bytes.old + 8 * length words.now < 2 ^ 63 }
    ensures { OnOk result (bytes.new.items ≡ bytes.old.items ++ word_bytes words.now) }
{
    let start = bytes.len();
    bytes.resize(start + 8 * words.len(), 0)?;
    LittleEndian::write_u64_into(words, &mut bytes[start..]);
    Ok(())
}

/// Appends the words that have these bytes. Takes memory where there is no room for them.
pub(crate) fn extend_words(words: &mut Vec<u64>, bytes: &[u8]) -> Result<(), AllocError>
    requires whole { length bytes.now % 8 ≡ 0 }
    requires room { vec_len words.old + length bytes.now < 2 ^ 60 }
    ensures count { OnOk result (vec_len words.new ≡ vec_len words.old + length bytes.now / 8) }
    ensures bytes { OnOk result (word_bytes words.new.items ≡ word_bytes words.old.items ++ bytes.now) }
{
    let start = words.len();
    words.resize(start + bytes.len() / 8, 0)?;
    LittleEndian::read_u64_into(bytes, &mut words[start..]);
    Ok(())
}

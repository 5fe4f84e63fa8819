//! FNV-1a over the bytes of words.

ghost use Rattle.std.specs.Prelude.{◌≡◌, ◌∷◌, ◌≤◌, [], fold, take};
ghost use Rattle.std.specs.Int.{to_le_bytes, w64};
ghost use Rattle.cm_geo.specs.Hash.{hash as hash_of, hash_byte as hash_byte_of};
ghost use Rattle.cm_entry.specs.Packing.{hash_on};

use cm_geo::{hash, hash_byte};

/// The square of the hash's prime.
const PRIME_SQUARED: u64 = 0x0003_6600_0002_e329;

/// The state of FNV-1a after so many of a word's bytes, the lowest first.
pub(crate) fn hash_prefix(state: u64, word: u64, count: usize) -> u64
    requires { count ≤ 8 }
    ensures { result ≡ fold hash_byte_of state (take count (to_le_bytes w64 word)) }
{
    word.to_le_bytes()[..count]
        .iter()
        .fold(state, |state, byte| hash_byte(state, *byte))
}

/// The state of FNV-1a after the bytes of a word.
#[tactic(auto, unfolding(crate::specs::Packing::hash_on))]
pub(crate) fn hash_word(state: u64, word: u64) -> u64
    ensures { result ≡ hash_on state (to_le_bytes w64 word) }
{
    hash_prefix(state, word, 8)
}

// The state of FNV-1a after the bytes of a length. A zero byte multiplies the state by the prime and does no more, so
// the two of a length below 2^16 are one product.
fn hash_length(state: u64, first: u8, second: u8, third: u8, fourth: u8) -> u64
    ensures { result ≡ fold hash_byte_of state (first ∷ second ∷ third ∷ fourth ∷ []) }
{
    let state = hash_byte(hash_byte(state, first), second);
    if third == 0 && fourth == 0 {
        state.wrapping_mul(PRIME_SQUARED)
    } else {
        hash_byte(hash_byte(state, third), fourth)
    }
}

/// The hash of an entry's first word, which is two lengths.
#[tactic(auto, unfolding(cm_geo::specs::Hash::hash))]
pub(crate) fn hash_head(head: u64) -> u64
    ensures { result ≡ hash_of (to_le_bytes w64 head) }
{
    let [first, second, third, fourth, fifth, sixth, seventh, eighth] = head.to_le_bytes();
    let over_key_length = hash_length(hash(&[]), first, second, third, fourth);
    hash_length(over_key_length, fifth, sixth, seventh, eighth)
}

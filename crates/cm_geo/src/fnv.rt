//! FNV-1a with 64 bits, after Fowler, Noll and Vo.

ghost use Rattle.std.specs.Prelude.{◌≡◌};
ghost use Rattle.cm_geo.specs.Hash.{hash as hash_of, hash_byte as hash_byte_of};

const OFFSET_BASIS: u64 = 0xcbf2_9ce4_8422_2325;

const PRIME: u64 = 0x100_0000_01b3;

/// The state of FNV-1a after one more byte: exclusive or first, then the product.
#[tactic(auto, unfolding(crate::specs::Hash::hash_byte))]
pub fn hash_byte(state: u64, byte: u8) -> u64
    ensures { result ≡ hash_byte_of state byte }
{
    (state ^ u64::from(byte)).wrapping_mul(PRIME)
}

/// FNV-1a of these bytes.
#[tactic(auto, unfolding(crate::specs::Hash::hash))]
pub fn hash(bytes: &[u8]) -> u64
    ensures { result ≡ hash_of bytes.now }
{
    bytes
        .iter()
        .fold(OFFSET_BASIS, |state, byte| hash_byte(state, *byte))
}

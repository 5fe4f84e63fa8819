//! A list of bytes inside shared data.

ghost use Rattle.std.proofs.Common.{rules};
ghost use Rattle.std.specs.Cmp.Rules.{comparing};
ghost use Rattle.std.specs.Cmp.Lexicographic.{pointwise};
ghost use Rattle.std.specs.Prelude.{◌≡◌, ◌==◌, ℕ, List, IfOk};

use crate::stop::NoMemory;
use std::alloc::{AllocError, Global};
use std::marker::Model;

/// Bytes of its own. Contracts see the list of them.
#[derive(Drop, Debug)]
pub struct Bytes {
    bytes: Vec<u8>,
}

impl Model for Bytes {
    ghost Value = { List ℕ };

    ghost view = { λ b. b.bytes.items };
}

impl Bytes {
    /// A copy of these bytes. Takes memory: NoMemory where none is left, and no other error.
    pub fn of(alloc: Global, bytes: &[u8]) -> Result<Bytes, NoMemory>
        ensures { IfOk result (λ b. b ≡ bytes.now) }
    {
        Ok(Bytes {
            bytes: bytes.to_vec(alloc)?,
        })
    }

    /// The bytes.
    pub fn as_slice(&self) -> &[u8]
        ensures { result.now ≡ self.now }
    {
        self.bytes.as_slice()
    }
}

impl Clone for Bytes {
    ghost is_clone = { λ a b. b ≡ a };

    fn clone(&self) -> Result<Bytes, AllocError> {
        Ok(Bytes {
            bytes: self.bytes.as_slice().to_vec(*self.bytes.allocator())?,
        })
    }
}

impl PartialEq for Bytes {
    ghost eq = { pointwise ◌==◌ };

    ghost laws = { Prim.search (comparing, rules) };

    fn eq(&self, other: &Bytes) -> bool {
        self.as_slice() == other.as_slice()
    }
}

//! The words of a map, the memory that every layer works on, and the fuses that end a caller.
#![tactic(auto)]

mod access;
mod count;
mod fixed;
mod fuse;
mod laws;
mod mem;
mod meter;
mod peek;
mod plain;
mod plan_copy;
mod words;

pub use access::Access;
pub use fixed::FixedMem;
pub use fuse::{Admit, Dead, EventKind, Fuse, KillFuse, Never};
pub use laws::a_memory_tells_one_state;
pub use mem::Mem;
pub use peek::{FoundWord, Peek};
pub use plain::PlainMem;
pub use words::Words;

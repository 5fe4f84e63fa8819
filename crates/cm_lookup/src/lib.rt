//! Lookup by linear probing in the slots of a tier. A removal leaves no gap.
#![tactic(auto)]

mod hit;
mod search;
mod slots;

pub use hit::{Hit, SlotParts};
pub use search::{find, free_slot};
pub use slots::{put_slot, remove_at, slot_of};

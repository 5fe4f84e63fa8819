//! Which words of a segment rest and which are torn: a second reading of the definitions, which runs. The
//! tests of the crates that store, and of those that recover, hold words against it; no other code does.
//!
//! Tiers have 64 chunks, so a tier has one word of bits.
#![tactic(auto)]

mod reading;

pub use reading::{At, Change, Entry, Segment};

//! The entries of a tier: a key and a value in words, under a checksum.
#![tactic(auto)]

mod checksum;
mod compare;
mod copy;
mod hashing;
mod pack;
mod prefix;
mod read;
mod span;
mod store;
mod verdict;

pub use read::{
    key_equals, key_hash, lengths_if_key, read_key_into, read_key_with_prefix, read_value_into,
    value_equals,
};
pub use span::lengths;
pub use store::{write, write_value};
pub use verdict::{Verdict, verify};

//! An entry in its place.

use crate::bytes::Bytes;

/// An entry, and the place of its tier and the chunk at which its run begins.
#[derive(Drop, Debug)]
pub struct Placed {
    pub place: u32,
    pub chunk: u32,
    pub key: Bytes,
    pub value: Bytes,
}

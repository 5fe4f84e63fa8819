//! Lines of a report.

use crate::bytes::Bytes;
use crate::reply::Reply;

/// An answer with its place: the caller's record `line`, counted from 1 over the whole script, and the
/// segment with the number of its changes. `part` is 0 but for a sweep, whose answers count from 1.
#[derive(Drop, Debug)]
pub struct Receipt {
    pub caller: u32,
    pub line: u32,
    pub part: u32,
    pub segment: u32,
    pub number: u64,
    pub reply: Reply,
}

/// A pair of the final map.
#[derive(Drop, Debug)]
pub struct MapLine {
    pub segment: u32,
    pub key: Bytes,
    pub value: Bytes,
}

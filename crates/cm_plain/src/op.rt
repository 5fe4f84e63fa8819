//! What a caller asks of a segment.

use crate::bytes::Bytes;

/// One operation of a script. Those with a key go to the key's segment, the others name theirs.
#[derive(Drop, Debug, Clone, PartialEq)]
pub enum Op {
    Put {
        key: Bytes,
        value: Bytes,
    },
    Get {
        key: Bytes,
    },
    PutIfAbsent {
        key: Bytes,
        value: Bytes,
    },
    Replace {
        key: Bytes,
        value: Bytes,
    },
    ReplaceIf {
        key: Bytes,
        expected: Bytes,
        value: Bytes,
    },
    Remove {
        key: Bytes,
    },
    RemoveIf {
        key: Bytes,
        expected: Bytes,
    },
    Count {
        segment: u32,
    },
    List {
        segment: u32,
    },
    Sweep {
        segment: u32,
        prefix: Bytes,
    },
}

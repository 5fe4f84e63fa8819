//! What is asked of a segment without a copy of its bytes, and what a change does to the segment's tiers.

/// So many chunks in a row in the tier at a place.
#[derive(Clone, Copy, Debug, PartialEq, Eq)]
pub struct Run {
    pub place: u32,
    pub chunk: u32,
    pub chunks: u32,
}

/// How a change places an entry.
#[derive(Clone, Copy, Debug, PartialEq, Eq)]
pub enum PlanKind {
    /// The key wasn't there.
    Fresh,
    /// The new value stands where the old one stood.
    InPlace,
    /// The new entry stands elsewhere than the old one.
    Relocate,
    /// The entry is removed.
    Remove,
}

/// What is asked of a segment, as an `Op` that borrows its bytes.
#[derive(Clone, Copy)]
pub enum Ask<'a> {
    Put {
        key: &'a [u8],
        value: &'a [u8],
    },
    Get {
        key: &'a [u8],
    },
    PutIfAbsent {
        key: &'a [u8],
        value: &'a [u8],
    },
    Replace {
        key: &'a [u8],
        value: &'a [u8],
    },
    ReplaceIf {
        key: &'a [u8],
        expected: &'a [u8],
        value: &'a [u8],
    },
    Remove {
        key: &'a [u8],
    },
    RemoveIf {
        key: &'a [u8],
        expected: &'a [u8],
    },
    Count {
        segment: u32,
    },
    List {
        segment: u32,
    },
    Sweep {
        segment: u32,
        prefix: &'a [u8],
    },
}

/// The plan of one change of a segment.
#[derive(Clone, Copy)]
pub struct Plan<'a> {
    /// The operation whose change this is.
    pub ask: Ask<'a>,
    pub kind: PlanKind,
    pub key: &'a [u8],
    /// The new value; for a removal no bytes.
    pub value: &'a [u8],
    /// The run of the key's entry, which a fresh key has none of.
    pub old: Option<Run>,
    /// The slot that points to the old run, in the old run's tier; 0 where there is none.
    pub old_slot: u32,
    /// The run of the new entry, which a removal has none of.
    pub new: Option<Run>,
    /// Whether the new run's tier is to be linked.
    pub link: bool,
}

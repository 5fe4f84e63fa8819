//! How a memory may be used.

/// What a memory may be used for. No call over it changes that.
#[derive(Clone, Copy, Debug, PartialEq, Eq)]
pub enum Access {
    /// For nothing.
    Closed,
    /// For loads.
    Readable,
    /// For loads and stores.
    Writable,
}

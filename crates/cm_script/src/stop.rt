//! Why bytes are no script.

/// Why a record is refused.
#[derive(Clone, Copy, Debug, PartialEq, Eq)]
pub enum LineCause {
    /// It has fewer than three or more than five fields.
    Csv = 1,
    /// The first field is no decimal number below `MAX_CALLERS`.
    Caller = 2,
    /// The second field is no operation.
    Op = 3,
    /// The operation has another number of fields, the key is empty, or there is no such segment.
    Argument = 4,
    /// A key, a prefix, a value or an entry is too large, or there are more `list` records than a
    /// script may have.
    TooLarge = 5,
}

/// Why there is no script.
#[derive(Clone, Copy, Debug, PartialEq, Eq)]
pub enum ScriptStop {
    /// There are more bytes or records than a script may have.
    TooLong,
    /// The first refused record, counted from 1, and the first cause that applies to it.
    Refused { line: u32, cause: LineCause },
    /// No memory was left.
    NoMemory,
}

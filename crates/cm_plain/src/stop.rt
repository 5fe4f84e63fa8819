//! The two answers that many calls share.

use std::alloc::{AllocError, AllocFailed};

/// No memory was left.
#[derive(Clone, Copy, Debug)]
pub struct NoMemory;

impl From<AllocError> for NoMemory {
    fn from(_error: AllocError) -> NoMemory {
        NoMemory
    }
}

impl<T: Drop> From<AllocFailed<T>> for NoMemory {
    fn from(_failed: AllocFailed<T>) -> NoMemory {
        NoMemory
    }
}

/// A call outside the program failed.
#[derive(Clone, Copy, Debug)]
pub struct Failed;

//! The operations of one segment over any memory.
#![tactic(auto)]

mod change;
mod getting;
mod peek_mem;
mod placing;
mod planning;
mod relocating;
mod removing;
mod replacing;
mod seek;
mod walks;

pub use change::apply;
pub use getting::{Peeked, peek_get};
pub use planning::{Planned, plan_put, plan_remove};
pub use seek::{Sight, look};
pub use walks::{Cursor, Stand, walk};

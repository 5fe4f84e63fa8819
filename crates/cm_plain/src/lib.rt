//! The bounded map that every segment keeps: what its states, answers and changes are, the data that
//! crates share, and a segment kept as a plain list of entries.
#![tactic(auto)]

mod bytes;
mod entries;
mod found;
mod heard;
mod list_of;
mod op;
mod placed;
mod plan;
mod reads;
mod receipt;
mod reply;
mod room;
mod rooms;
mod segment;
mod stop;

pub use bytes::Bytes;
pub use found::{Drops, SegFound};
pub use heard::Heard;
pub use list_of::ListOf;
pub use op::Op;
pub use placed::Placed;
pub use plan::{Ask, Plan, PlanKind, Run};
pub use receipt::{MapLine, Receipt};
pub use reply::{Pair, PairList, Reply};
pub use room::{Room, Spot};
pub use segment::PlainSegment;
pub use stop::{Failed, NoMemory};

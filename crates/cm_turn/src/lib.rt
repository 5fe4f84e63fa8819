//! A turn of a store's caller: one call by its seat of a segment, from the take of a level to the release.
#![tactic(auto)]

mod answer;
mod call;
mod conditions;
mod if_absent;
mod list_call;
mod listing;
mod make;
mod operation;
mod operation_call;
mod placing;
mod questions;
mod removing;
mod rounds;
mod seat_call;
mod sweeping;
mod turn;

pub use answer::{Answer, Done, Spot};
pub use if_absent::AbsentCall;
pub use list_call::{ListCall, Listing};
pub use operation_call::{ByOperation, GetCall, OperationCall, ReadCall, UpdateCall, WriteCall};
pub use placing::{Put, Replace, ReplaceIf};
pub use questions::Count;
pub use removing::{Remove, RemoveIf};
pub use seat_call::SeatCall;
pub use sweeping::{CloseCall, OpenCall, StepCall, Stepped, first_slot};
pub use turn::{Ground, Settled};

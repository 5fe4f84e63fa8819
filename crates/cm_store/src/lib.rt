//! The store: calls that any thread makes, each answered at its number of one history.
#![tactic(auto)]

mod calls;
mod close;
mod empty;
mod join;
mod list;
mod pass;
mod perform;
mod split;
mod start;
mod stops;
mod store;
mod sweeps;

pub use cm_lock::Stop;
pub use cm_turn::{Answer, Done, Spot};
pub use empty::empty_words_are_lawful;
pub use list::{ListStop, Listed};
pub use pass::Pass;
pub use store::Store;

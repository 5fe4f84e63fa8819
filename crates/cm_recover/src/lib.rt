//! Recovery: what is kept of a map's words, whatever stands in them, and the words that it leaves.
#![tactic(auto)]

mod answers;
mod cause;
mod clearing;
mod judging;
mod laws;
mod rebuilding;
mod recovery;
mod tally;

pub use cause::Cause;
pub use laws::{recovery_keeps_what_stood, words_are_torn};
pub use recovery::recover;

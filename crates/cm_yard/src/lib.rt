//! Claims of extra tiers, and stop words, shared among threads.
#![tactic(auto)]

mod claim;
mod laws;
mod plays;
mod rule;
mod seats;
mod stop;
#[cfg(test)]
mod tests;
mod view;
mod yard;

pub use claim::Claim;
pub use laws::an_index_is_given_once;
pub use yard::{Yard, YardSeat};

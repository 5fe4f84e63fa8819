//! The tiers of a segment: the chain of their links.
#![tactic(auto)]

mod links;
mod places;
mod stepwise;

pub use links::{chain, link, next};
pub use places::{Chain, lowest_unlinked};
pub use stepwise::Tiers;

//! The chunks of a tier that are taken: finding a run of free ones, and setting and clearing the bits of a run.
#![tactic(auto)]

mod bits;
mod fit;
mod laws;
mod turn;

pub use fit::{first_fit, free_after};
pub use laws::free_runs_are_those_of_the_state;
pub use turn::{clear, set};

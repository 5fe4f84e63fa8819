//! One caller of a run: its records, one after the other, each asked until it is answered.
#![tactic(auto)]

mod asking;
mod caller;
mod records;
mod sweeping;
mod tried;

pub use caller::{Caller, Halt};

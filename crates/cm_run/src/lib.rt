//! The run of a script: callers side by side over one shared store, each with a gate that may end it.
#![tactic(auto)]

mod gates;
mod kill_gates;
mod run;
#[cfg(test)]
mod tests_gates;
mod turn_gates;

pub use cm_command::{Kill, KillKind};
pub use gates::GateMaker;
pub use kill_gates::KillGates;
pub use run::{Outcome, extra_tiers, run_script};
pub use turn_gates::{TurnGate, TurnGates};

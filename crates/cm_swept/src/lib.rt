//! Trials of sweeps. The crate has tests alone.
#![tactic(auto)]

#[cfg(test)]
mod tests_sweeps;

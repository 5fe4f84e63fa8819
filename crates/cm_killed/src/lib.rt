//! Trials of calls that die. The crate has tests alone.
#![tactic(auto)]

#[cfg(test)]
mod tests_kills;

//! Trials of the store's calls by one caller, and small callers over its contracts and laws. The crate has tests alone.
#![tactic(auto)]

#[cfg(test)]
mod ends_tests;
#[cfg(test)]
mod laws_tests;
#[cfg(test)]
mod sweeps_tests;
#[cfg(test)]
mod tests_calls;
#[cfg(test)]
mod tests_lists;
#[cfg(test)]
mod tests_rounds;
#[cfg(test)]
mod tests_rows;

//! Trials of callers beside each other, on threads. The crate has tests alone.
#![tactic(auto)]

#[cfg(test)]
mod tests_orders;
#[cfg(test)]
mod tests_threads;

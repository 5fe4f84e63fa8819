//! Changes of one segment under its lock: what the tests of the lock and of the segment's operations can show only
//! together. The crate has tests alone.
#![tactic(auto)]

#[cfg(test)]
mod tests;
#[cfg(test)]
mod tests_change;
#[cfg(test)]
mod tests_lock;
#[cfg(test)]
mod tests_seats;

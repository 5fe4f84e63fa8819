//! Recovery: what it keeps and drops, of maps that were torn at each store. The crate has tests alone.
#![tactic(auto)]

#[cfg(test)]
mod tests_alone;
#[cfg(test)]
mod tests_causes;
#[cfg(test)]
mod tests_kept;
#[cfg(test)]
mod tests_recovery;
#[cfg(test)]
mod tests_segments;
#[cfg(test)]
mod tests_stops;

//! The operations of a segment: their answers and words, also behind a death at each store. The crate has tests alone.
#![tactic(auto)]

#[cfg(test)]
mod tests_caller;
#[cfg(test)]
mod tests_loads;
#[cfg(test)]
mod tests_peek;
#[cfg(test)]
mod tests_random;
#[cfg(test)]
mod tests_rows;
#[cfg(test)]
mod tests_stops;

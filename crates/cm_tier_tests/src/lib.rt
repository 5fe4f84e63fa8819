//! The chunks, the lookup, the links and the entries of tiers: small callers over their contracts. The crate has tests alone.
#![tactic(auto)]

#[cfg(test)]
mod tests_chunks;
#[cfg(test)]
mod tests_entry;
#[cfg(test)]
mod tests_lookup;
#[cfg(test)]
mod tests_tiers;
#[cfg(test)]
mod tests_write;

//! Maps that are lawful, and maps that break one law. The crate has tests alone.
#![tactic(auto)]

#[cfg(test)]
mod tests_laws;
#[cfg(test)]
mod tests_maps;

//! The bounded map and the memory: small callers over their contracts. The crate has tests alone.
#![tactic(auto)]

#[cfg(test)]
mod tests_plain;
#[cfg(test)]
mod tests_words;

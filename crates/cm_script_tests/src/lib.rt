//! Scripts and reports, as text. The crate has tests alone.
#![tactic(auto)]

#[cfg(test)]
mod tests_read;
#[cfg(test)]
mod tests_render;

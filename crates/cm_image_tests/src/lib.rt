//! Images worked out by hand, and disks that fail. The crate has tests alone.
#![tactic(auto)]

#[cfg(test)]
mod broken;
#[cfg(test)]
mod tests_images;

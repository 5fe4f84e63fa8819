//! Generated scripts for measuring, and the one record that is printed of a generated script's run.
#![tactic(auto)]

mod counts;
mod digest;
mod generator;
mod made;
#[cfg(test)]
mod tests;

pub use generator::generated;
pub use made::made_record;

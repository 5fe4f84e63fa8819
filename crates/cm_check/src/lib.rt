//! Whether the words of a map are lawful, and what they hold.
#![tactic(auto)]

mod counts;
mod gaps;
mod heads;
mod law;
mod laws;
mod lines;
mod quiet;
mod reads;
mod repeats;
mod runs;
mod slots;

pub use law::{Broken, Law};
pub use laws::check;
pub use lines::contents;

//! The words of one segment, shared among threads under a lock of three levels.
#![tactic(auto)]

mod ask;
mod first;
mod held;
mod hold;
mod laws;
mod peeking;
mod plays;
mod release;
mod round;
mod rule;
mod seats;
mod table;
mod take;
mod tell;
mod view;

pub use hold::Hold;
pub use laws::changes_are_steps;
pub use peeking::Peeking;
pub use table::{SegSeat, SegTable};
pub use take::Stop;
pub use view::Level;

//! What passes have noted of their calls, from call to call and up to the end of a store, where the calls of all callers
//! are one legal history of each segment.
#![tactic(auto)]

mod laws;

pub use laws::{calls_end_lawful, calls_end_legal, no_stop_is_found, spent_answers_find_all_tiers};

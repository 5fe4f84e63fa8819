//! Trials of a store, for tests: calls within the limits, by callers that know no more than what its calls ensure.
#![tactic(auto)]

mod trial;

pub use trial::{
    Other, Played, Step, Trial, Wanted, call, close, fill, first_other, join, key_of, list,
    numbered, play, play_full, play_over, row, split, start, start_over, sweep_close, sweep_open,
    sweep_step, valued, word,
};

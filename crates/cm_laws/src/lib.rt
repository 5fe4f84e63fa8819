//! Laws of a store: what its words are at the end, and what its passes keep until then.
#![tactic(auto)]

mod laws;

pub use laws::{
    calls_keep_balance, calls_keep_found, calls_keep_stops, calls_owe_for_deaths,
    chains_grow_by_links, chains_keep_links, closings_keep_balance, joins_add_owed,
    joins_keep_balance, joins_keep_found, joins_keep_stops, lists_keep_balance,
    lock_words_count_levels, looks_keep_stops, openings_keep_balance, questions_keep_balance,
    raises_keep_stops, spent_finds_all, spent_is_near, splits_keep_balance, splits_keep_stops,
    splits_owe_nothing, starts_leave_stops, starts_owe_nothing, steps_keep_balance,
    stops_stand_for_levels, unclaimed_calls_keep_stops, unclaimed_calls_owe_nothing,
    words_end_lawful, words_end_whole_or_torn, words_end_within_the_allowance,
};

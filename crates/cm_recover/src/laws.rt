//! Laws of what recovery keeps. These functions do nothing: what they ensure is the law.

ghost use Rattle.std.specs.Prelude.{ℕ, List};
ghost use Rattle.cm_geo.specs.declared.geo.Geo.{Geo};
ghost use Rattle.cm_plain.specs.FoundChains.{KeepsAllowance};
ghost use Rattle.cm_recover.specs.Laws.{GivesStates, KeepsStates, KeepsRecovered, KeepsOutcomes};
ghost use Rattle.cm_recover.specs.Premises.{FirstWrittenIsTorn, RestingIsTorn, ZerosAreTorn};
ghost use Rattle.cm_recover.specs.Recovered.{Recovered};

/// Whatever stands in the words of a segment, what recovery keeps of it is a state.
///
/// Where the chained tiers of a map are as few as its geometry allows, it keeps of each segment what
/// stood there. Of words that are torn for a planned change it keeps an outcome of that change, and
/// drops slots for three causes alone: their key was kept already, the checksum isn't that of the
/// words, or a byte of the padding isn't zero. Of words that represent a state it keeps that state,
/// and drops nothing.
///
/// So a second recovery keeps each state and drops nothing: recovered words keep the allowance, and
/// represent the states that were kept.
pub fn recovery_keeps_what_stood()
    ensures states { (geo : Geo) (words_of : ℕ → List ℕ) → GivesStates geo words_of }
    ensures torn { (geo : Geo) (words_of : ℕ → List ℕ) → KeepsAllowance geo words_of → KeepsOutcomes geo words_of }
    ensures lawful { (geo : Geo) (words_of : ℕ → List ℕ) → KeepsAllowance geo words_of → KeepsStates geo words_of }
    ensures second { (geo : Geo) (old new : ℕ → List ℕ) → Recovered geo old new → KeepsRecovered geo old new }
{}

/// There are words of which `recovery_keeps_what_stood` speaks.
///
/// Words that rest for a state are torn for each change that is planned for it. Words into which the
/// first entry of a segment is written are torn for its put: no slot points to it before it stands,
/// and bits, counts and all else in chunks may be anything. Words in which nothing was written are
/// such words, in every geometry: they keep the allowance, represent one empty tier, whatever their
/// lock word and change number, and are torn for each put of a key and a value that may be stored.
pub fn words_are_torn()
    ensures resting { (geo : Geo) → RestingIsTorn geo }
    ensures first { (geo : Geo) → FirstWrittenIsTorn geo }
    ensures zeros { (geo : Geo) → ZerosAreTorn geo }
{}

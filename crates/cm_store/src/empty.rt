//! The words that a new map has. The function does nothing: what it ensures is the law.

ghost use Rattle.cm_store.specs.EmptyMaps.{EmptyIsLawful};

/// A store may be started over words that are all zero.
pub fn empty_words_are_lawful()
    ensures { EmptyIsLawful }
{}

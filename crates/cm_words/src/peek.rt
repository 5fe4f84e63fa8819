//! Loads of the words of one segment beside its writers.

ghost use Rattle.std.specs.Prelude.{◌<◌};
ghost use Rattle.cm_geo.specs.Addresses.{words_in_segment};
ghost use Rattle.cm_words.specs.Peeks.{PeekSeen, PeeksOnce};

use crate::fuse::Dead;

/// A word that was found at an address of a segment. No value of it is made.
pub struct FoundWord {
    pub at: u64,
    pub word: u64,
}

/// Loads of one segment's words by a caller that holds no level, so that each word may be of another moment.
///
/// A peek tells its geometry and its segment, the words that it found, its fuse, and how many events and
/// stores were counted. Addresses are counted from the segment's first word. A call answers `Dead` exactly
/// where its fuse died in place of the load, and then the load wasn't made.
pub trait Peek {
    ghost seen: { Self → PeekSeen };

    // All that no call over a peek changes: the words that were found, the fuse and the counts apart.
    ghost same_rest: { Self → Self → Type 0 };

    /// The word at an address behind the lock word and the change number, by one load. It is found from now on.
    fn load(&mut self, at: u32) -> Result<u64, Dead>
        requires inner { 1 < at }
        requires in_range { at < words_in_segment (seen self.old).geo }
        ensures { PeeksOnce seen same_rest at self.old self.new result };

    ghost rest_reflexive: { (p : Self) → same_rest p p };

    ghost rest_transitive: { (a b c : Self) → same_rest a b → same_rest b c → same_rest a c };
}

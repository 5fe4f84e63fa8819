//! What the calls of a store answer.

ghost use Rattle.std.specs.Prelude.{◌≡◌, false};
ghost use Rattle.cm_plain.specs.Replies.{reply_of_heard};
ghost use Rattle.cm_plain.specs.Steps.{is_change};
ghost use Rattle.cm_turn.specs.Answers.{HasBytes, reply_in};

use cm_plain::Heard;

/// A segment, and a number of its changes.
#[derive(Clone, Copy, Debug, PartialEq, Eq)]
pub struct Spot {
    pub segment: u32,
    pub number: u64,
}

/// An answer with its place: the segment, and, for a change, its number, else the number of changes of the
/// state that the answer speaks of.
#[derive(Clone, Copy, Debug, PartialEq, Eq)]
pub struct Done {
    pub spot: Spot,
    pub answer: Answer,
}

/// What a call answers. A length is that of bytes at the beginning of the caller's `out`.
#[derive(Clone, Copy, Debug, PartialEq, Eq)]
pub enum Answer {
    /// The key wasn't there, and has the value now.
    New,
    /// The key was there, and has the new value now.
    Replaced,
    /// The key is there already, with a value of so many bytes.
    Kept(u32),
    /// The key isn't there.
    Missing,
    /// The key's value isn't the expected one.
    Differs,
    /// The key was there, and is gone.
    Removed,
    /// The key's value has so many bytes.
    Value(u32),
    /// No tier has room, and the chain has as many tiers as it may have.
    FullChain,
    /// No tier has room, and no further tier may be chained.
    FullSpent,
    /// The segment took as many changes as it can count.
    Worn,
    /// The number of entries.
    Count(u32),
    /// A key of so many bytes had the sweep's prefix, and is gone.
    Swept(u32),
    /// No key has the sweep's prefix.
    SweptAll,
}

impl Answer {
    /// An answer that changes nothing, with its bytes.
    pub(crate) fn heard<'a>(self, out: &'a [u8]) -> Heard<'a>
        requires stays { is_change (reply_in self out.now) ≡ false }
        requires bytes { HasBytes self out.now }
        ensures { reply_of_heard result ≡ reply_in self out.now }
    {
        match self {
            Answer::Kept(len) => Heard::Kept(&out[..len as usize]),
            Answer::Missing => Heard::Missing,
            Answer::Differs => Heard::Differs,
            Answer::Value(len) => Heard::Value(&out[..len as usize]),
            Answer::FullChain => Heard::FullChain,
            Answer::FullSpent => Heard::FullSpent,
            Answer::Worn => Heard::Worn,
            Answer::Count(entries) => Heard::Count(entries),
            Answer::SweptAll => Heard::SweptAll,
            Answer::New | Answer::Replaced | Answer::Removed | Answer::Swept(_) => unreachable!(),
        }
    }
}

//! The words of a script's operations.

ghost use Rattle.std.specs.Prelude.{◌≡◌};
ghost use Rattle.cm_script.specs.Scripts.{verb_of};

/// The second field of a record.
#[derive(Clone, Copy, Debug, PartialEq, Eq)]
pub enum Verb {
    Put,
    Get,
    PutIfAbsent,
    Replace,
    ReplaceIf,
    Remove,
    RemoveIf,
    Count,
    List,
    Sweep,
}

// The operation of a word.
#[tactic(auto, unfolding(crate::specs::Scripts::verb_of))]
pub(crate) fn verb_of(word: &[u8]) -> Option<Verb>
    ensures { result ≡ verb_of word.now }
{
    match word {
        _ if word == b"put".as_slice() => Some(Verb::Put),
        _ if word == b"get".as_slice() => Some(Verb::Get),
        _ if word == b"put-if-absent".as_slice() => Some(Verb::PutIfAbsent),
        _ if word == b"replace".as_slice() => Some(Verb::Replace),
        _ if word == b"replace-if".as_slice() => Some(Verb::ReplaceIf),
        _ if word == b"remove".as_slice() => Some(Verb::Remove),
        _ if word == b"remove-if".as_slice() => Some(Verb::RemoveIf),
        _ if word == b"count".as_slice() => Some(Verb::Count),
        _ if word == b"list".as_slice() => Some(Verb::List),
        _ if word == b"sweep".as_slice() => Some(Verb::Sweep),
        _ => None,
    }
}

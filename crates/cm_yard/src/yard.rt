//! A yard, and a caller's seat.

ghost use Rattle.std.specs.Prelude.{◌≡◌, ◌≤◌, ◌+◌, ◌++◌, IfOk, OnOk, [], length, replicate, sum};
ghost use Rattle.cm_yard.specs.Views.{root_view};
ghost use Rattle.cm_yard.specs.Words.{first_words, owned_in, words_in_yard};

use crate::rule::YardRule;
use crate::view::{FirstWords, Key, View};
use atomic_table::{Seat, Table};
use cm_geo::Geo;
use cm_plain::NoMemory;
use std::alloc::Global;

/// The stop words of all segments and the claim words of a map's extra tiers, shared among threads.
///
/// Contracts see what was fixed when it was made (`key_of`), and between any two events of any callers
/// its words and all seats' notes keep the rule `IsYard`.
#[derive(Drop)]
pub struct Yard {
    pub(crate) table: Table<(), View, Key, YardRule, Global>,
    // what the geometry tells
    pub(crate) segments: u32,
    pub(crate) extra: u32,
    pub ghost segments_are: { segments ≡ table.shared.key.geo.segments },
    pub ghost extra_is: { extra ≡ table.shared.key.geo.extra },
    pub ghost wide: { table.shared.table_id.words ≡ words_in_yard table.shared.key.geo },
    pub ghost whole: { length table.shared.key.first ≡ words_in_yard table.shared.key.geo },
    pub ghost no_slot: { table.shared.table_id.slots ≡ 0 },
}

/// One caller's token for a yard. What it has noted (`view_of`) is in contracts alone.
#[derive(Drop)]
pub struct YardSeat {
    pub(crate) seat: Seat<(), View>,
    pub ghost live: { seat.me.0.number ≤ 64 },
    pub ghost bare: { seat.me.1 ≡ [] },
    pub ghost none_due: { seat.me.0.due ≡ [] },
}

/// The words at the start. Takes memory.
pub(crate) fn first_words(alloc: Global, geo: &Geo, linked: &[u32]) -> Result<Vec<u64>, NoMemory>
    requires length_is { length linked.now ≡ geo.now.segments }
    requires within_limit { sum linked.now ≤ geo.now.extra }
    ensures { IfOk result (λ words. words.items ≡ first_words geo.now linked.now) }
{
    let all = geo.segments() as usize + geo.extra() as usize;
    let mut words = vec![in alloc; 0; geo.segments() as usize]?;
    for (segment, &count) in linked.iter().enumerate() {
        push_copies(&mut words, segment as u64 + 1, count)?;
    }
    let rest = all - words.len();
    push_copies(&mut words, 0, rest as u32)?;
    Ok(words)
}

/// Pushes a word so many times. After NoMemory some of them were pushed.
fn push_copies(words: &mut Vec<u64>, word: u64, count: u32) -> Result<(), NoMemory>
    ensures { OnOk result (words.new.items ≡ words.old.items ++ replicate count word) }
{
    for _done in 0..count {
        words.push(word)?;
    }
    Ok(())
}

impl Yard {
    ghost use Rattle.cm_yard.specs.Yards.{IsOf, key_of, view_of};

    /// A yard whose first claims belong to the extra tiers that are linked already, `linked[s]` of them to
    /// segment `s`, and its root seat. Takes memory: NoMemory where none is left, and no other error.
    pub fn new(alloc: Global, geo: &Geo, linked: &[u32]) -> Result<(Yard, YardSeat), NoMemory>
        requires length_is { length linked.now ≡ geo.now.segments }
        requires within_limit { sum linked.now ≤ geo.now.extra }
        ensures key { IfOk result (λ r. key_of r.0 ≡ record { geo = geo.now; first = first_words geo.now linked.now }) }
        ensures its { IfOk result (λ r. IsOf r.1 r.0) }
        ensures root { IfOk result (λ r. view_of r.1 ≡ root_view) }
        ensures owned { owned_in geo.now (first_words geo.now linked.now) ≡ sum linked.now }
    {
        let words = first_words(alloc, geo, linked)?;
        let key = Key {
            geo: *geo,
            first: FirstWords::of(&words),
        };
        let (table, seat) = Table::of_words(alloc, words.as_slice(), &key)?;
        let yard = Yard {
            table,
            segments: geo.segments(),
            extra: geo.extra(),
        };
        Ok((yard, YardSeat { seat }))
    }
}

//! Gets by loads beside a writer.

ghost use Rattle.std.specs.Prelude.{◌≡◌, ◌∷◌, [], length};

use crate::tests_caller::{Line, copy_of, geo_of, perform, segment_of, words_after};
use crate::tests_random::Draws;
use cm_geo::Geo;
use cm_segment::{Peeked, peek_get};
use cm_words::{Admit, Dead, EventKind, Fuse, KillFuse, Never, Peek, Words};
use std::marker::Model;
use std::process::Abort;
use std::snapshot::Snapshot;
use std::test::Fail;

/// The words that were found, for contracts alone: of a `Snapshot` no bytes are kept.
#[derive(Drop)]
#[cycle(found)]
struct Found {
    earlier: Snapshot<Earlier>,
}

#[derive(Drop)]
#[cycle(found)]
enum Earlier {
    Nothing,
    One(u32, u64, Snapshot<Found>),
}

impl Model for Found {
    ghost use Rattle.std.specs.Prelude.{◌≡◌, [], ◌∷◌, List, length};
    ghost use Rattle.std.proofs.Common.{arith};
    ghost use Rattle.cm_words.specs.declared.peek.FoundWord.{FoundWord};

    ghost Value = { List FoundWord };

    ghost use Rattle.cm_segment_tests.specs.declared.tests_peek.Earlier.TheVariants.{Nothing, One};

    ghost view = { λ f. elim f.earlier.value [ Nothing ↦ [] | One at word found ↦ record { at = at; word = word } ∷ found.value ] };

    ghost size = { λ found. length found };

    ghost size_decreases = { λ c h. Prim.grind arith };
}

impl Found {
    fn new() -> Found
        ensures { result ≡ [] }
    {
        Found {
            earlier: Snapshot::of(&Earlier::Nothing),
        }
    }

    fn add(&mut self, at: u32, word: u64)
        ensures { self.new ≡ record { at = at; word = word } ∷ self.old }
    {
        *self = Found {
            earlier: Snapshot::of(&Earlier::One(at, word, Snapshot::of(self))),
        };
    }
}

/// A segment whose words become others after so many loads. Behind the last word there is 0.
#[derive(Drop)]
struct Turning<'a> {
    geo: Geo,
    before: &'a [u64],
    later: &'a [u64],
    left: u32,
    fuse: KillFuse,
    found: Found,
}

impl<'a> Turning<'a> {
    fn new(geo: &Geo, before: &'a [u64], later: &'a [u64], left: u32, fuse: KillFuse) -> Turning<'a>
        ensures { result.geo ≡ geo.now }
    {
        Turning {
            geo: *geo,
            before,
            later,
            left,
            fuse,
            found: Found::new(),
        }
    }

    /// The word that stands at an address at this load.
    fn next(&mut self, at: u32) -> u64
        ensures geo { self.new.geo ≡ self.old.geo }
        ensures fuse { self.new.fuse ≡ self.old.fuse }
        ensures found { self.new.found ≡ self.old.found }
    {
        let mut words = self.later;
        if let Some(fewer) = self.left.checked_sub(1) {
            self.left = fewer;
            words = self.before;
        }
        words.get(at as usize).copied().unwrap_or(0)
    }
}

impl<'a> Peek for Turning<'a> {
    ghost use Rattle.std.specs.Prelude.{◌≡◌, length};
    ghost use Rattle.std.proofs.Common.{◌∙◌, refl};
    ghost use Rattle.cm_words.specs.KillFuses.{kill_seen};

    ghost seen = { λ p. record { geo = p.geo; segment = 0; found = p.found; meter = record { fuse = kill_seen p.fuse; events = length p.found; stores = 0 } } };

    ghost same_rest = { λ a b. b.geo ≡ a.geo };

    ghost rest_reflexive = { λ p. refl };

    ghost rest_transitive = { λ a b c p q. q ∙ p };

    fn load(&mut self, at: u32) -> Result<u64, Dead> {
        match self.fuse.admit(EventKind::Load) {
            Admit::Die => Err(Dead),
            Admit::Go => {
                let word = self.next(at);
                self.found.add(at, word);
                Ok(word)
            }
        }
    }
}

/// What a get finds, and the value's bytes.
fn get<'o>(
    peek: &mut Turning<'_>,
    key: &[u8],
    out: &'o mut [u8; 4096],
) -> Result<(Peeked, &'o [u8]), Dead> {
    let geo = peek.geo;
    let peeked = peek_get(peek, &geo, key, out)?;
    let len = match peeked {
        Peeked::Found(len) => len as usize,
        Peeked::Missing | Peeked::Garbled => 0,
    };
    Ok((peeked, out.get(..len).unwrap_or(b"")))
}

/// The longest value: 33 chunks of sixteen words with a key of one byte.
const LONGEST: [u8; 4096] = [7; 4096];

/// Changes of the only segment of a map of so many tiers, a key, and its value.
type Row = (
    u32,
    &'static [&'static str],
    &'static [u8],
    Option<&'static [u8]>,
);

const THREE_KEYS: &[&str] = &["put a 1", "put ba 2", "put bba 3"];

/// The keys a, ba and bba begin their search at one slot.
const ROWS: [Row; 9] = [
    (1, &[], b"a", None),
    (1, THREE_KEYS, b"a", Some(b"1")),
    (1, THREE_KEYS, b"bba", Some(b"3")),
    (1, THREE_KEYS, b"b", None),
    (1, THREE_KEYS, b"", None),
    (1, &["put a"], b"a", Some(b"")),
    (1, &["put a 123456789", "remove a"], b"a", None),
    (
        2,
        &["put-long f 64", "put a 123456789"],
        b"a",
        Some(b"123456789"),
    ),
    (2, &["put-long f 64", "put a 1"], b"b", None),
];

#[test]
fn a_get_finds_what_stands_there(rt: HostRuntime) -> Result<(), Fail> {
    for (number, (tiers, lines, key, value)) in ROWS.iter().enumerate() {
        let geo = geo_of(*tiers)?;
        let words = words_after(rt.alloc(), &geo, lines)?;
        let segment = segment_of(&words);
        let mut peek = Turning::new(&geo, segment, segment, 0, KillFuse::Never);
        let mut out = [9; 4096];
        let (peeked, bytes) = get(&mut peek, key, &mut out)?;
        let expected = value.map_or(Peeked::Missing, |value| Peeked::Found(value.len() as u32));
        assert_eq!(rt; peeked, expected, "row {number}");
        assert_eq!(rt; bytes, value.unwrap_or(b""), "row {number}");
    }
    Ok(())
}

#[test]
fn a_get_finds_the_longest_value(rt: HostRuntime) -> Result<(), Fail> {
    let geo = Geo::new(1, 1, 64, 16, 0)?;
    let mut words = Words::empty(rt.alloc(), &geo)?;
    let line = Line {
        key: b"a",
        value: Some(&LONGEST),
    };
    perform(&mut words, &line, Never)?;
    let segment = segment_of(&words);
    let mut peek = Turning::new(&geo, segment, segment, 0, KillFuse::Never);
    let mut out = [9; 4096];
    let (peeked, bytes) = get(&mut peek, b"a", &mut out)?;
    assert_eq!(rt; peeked, Peeked::Found(4096));
    assert!(rt; bytes == LONGEST.as_slice());
    Ok(())
}

/// The address of the lengths of the first entry of a tier of 64 chunks of four words.
const FIRST_LENGTHS: u32 = 137;

#[test]
fn lengths_that_no_entry_has_are_garbled(rt: HostRuntime) -> Result<(), Fail> {
    let geo = geo_of(1)?;
    let mut words = words_after(rt.alloc(), &geo, &["put a 1"])?;
    // a key of one byte with a value of 4097 bytes, of one that needs more than the 64 chunks, and of 2^32 - 1
    for value_len in [4097, 2025, u64::from(u32::MAX)] {
        if FIRST_LENGTHS < words.geo().total_words() {
            words.set(FIRST_LENGTHS, value_len << 32 | 1);
        }
        let segment = segment_of(&words);
        let mut peek = Turning::new(&geo, segment, segment, 0, KillFuse::Never);
        let (peeked, _) = get(&mut peek, b"a", &mut [9; 4096])?;
        assert_eq!(rt; peeked, Peeked::Garbled, "{value_len}");
    }
    Ok(())
}

/// A value replaced by a longer one where it stands, after so many loads. These are of the slot, the lengths, the key,
/// the lengths again and the value.
#[test]
fn a_get_beside_a_writer_mixes_the_values(rt: HostRuntime) -> Result<(), Fail> {
    let geo = geo_of(1)?;
    let before = words_after(rt.alloc(), &geo, &["put a 1"])?;
    let later = words_after(rt.alloc(), &geo, &["put a 1", "put a 987654321"])?;
    for (left, expected, value) in [
        (0, Peeked::Found(9), "987654321"),
        (1, Peeked::Found(9), "987654321"),
        (2, Peeked::Garbled, ""),
        (3, Peeked::Garbled, ""),
        (4, Peeked::Found(1), "9"),
        (5, Peeked::Found(1), "1"),
    ] {
        let mut peek = Turning::new(
            &geo,
            segment_of(&before),
            segment_of(&later),
            left,
            KillFuse::Never,
        );
        let mut out = [7; 4096];
        let (peeked, bytes) = get(&mut peek, b"a", &mut out)?;
        assert_eq!(rt; peeked, expected, "after {left} loads");
        assert_eq!(rt; bytes, value.as_bytes(), "after {left} loads");
    }
    Ok(())
}

#[test]
fn a_get_dies_at_each_of_its_loads(rt: HostRuntime) -> Result<(), Fail> {
    let geo = geo_of(1)?;
    let words = words_after(rt.alloc(), &geo, THREE_KEYS)?;
    // slots 12 and 13 with the lengths and the key of each, then the lengths again and the value
    for (key, loads) in [(b"a", 5), (b"c", 1)] {
        for left in 0..loads + 1 {
            let segment = segment_of(&words);
            let mut peek = Turning::new(&geo, segment, segment, 0, KillFuse::Events { left });
            let died = get(&mut peek, key, &mut [9; 4096]).is_err();
            assert_eq!(rt; died, left < loads, "after {left} loads");
            assert_eq!(rt; died, peek.fuse == KillFuse::Spent { deaths: 1 });
        }
    }
    Ok(())
}

/// Sets each word of a segment to one that stood somewhere in it.
fn shuffle(words: &mut Words, draws: &mut Draws) {
    let count = words.geo().total_words();
    for at in 0..count {
        let from = u32::try_from(draws.below(u64::from(count))).unwrap_or(0);
        if from < words.geo().total_words() && at < words.geo().total_words() {
            let word = words.get(from);
            words.set(at, word);
        }
    }
}

/// Whether a get returns without a death, whatever it finds.
fn returns(rt: &impl Abort, geo: &Geo, before: &Words, later: &Words, left: u32) {
    for key in [b"a", b"b", b"c"] {
        let mut peek = Turning::new(
            geo,
            segment_of(before),
            segment_of(later),
            left,
            KillFuse::Never,
        );
        let died = get(&mut peek, key, &mut [9; 4096]).is_err();
        assert!(rt; !died, "after {left} loads");
    }
}

#[test]
fn a_get_returns_whatever_words_come(rt: HostRuntime) -> Result<(), Fail> {
    let geo = geo_of(2)?;
    let lines = ["put-long f 62", "put a 1", "put b 123456789", "put c 3"];
    let words = words_after(rt.alloc(), &geo, &lines)?;
    let mut draws = Draws {
        state: 0x2545_f491_4f6c_dd1d,
    };
    for left in 0..200 {
        let mut shuffled = copy_of(rt.alloc(), &words)?;
        shuffle(&mut shuffled, &mut draws);
        returns(&rt, &geo, &words, &shuffled, left % 8);
        returns(&rt, &geo, &shuffled, &words, left);
    }
    Ok(())
}

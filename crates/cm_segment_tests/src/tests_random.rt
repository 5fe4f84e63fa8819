//! Many changes, drawn at random, of a segment over words, of the plain segment and of a list of runs, side by
//! side: the replies, the map and the place of each entry are the same.

ghost use Rattle.std.specs.Prelude.{◌≡◌, ◌≤◌, IsTrue, length};
ghost use Rattle.cm_geo.specs.Hash.{segment_of_key};
ghost use Rattle.cm_plain.specs.Limits.{IsKey, KeepsLimits, segment_of};

use crate::tests_caller::{Answer, Line, finds, fits, geo_of, perform};
use cm_geo::{Geo, MAX_KEY_BYTES, hash};
use cm_plain::{Bytes, Op, PlainSegment, Reply};
use cm_segment::look;
use cm_words::{FixedMem, Never, Words};
use std::alloc::Global;
use std::process::Abort;
use std::test::Fail;

/// Numbers after a start, by xorshift with the shifts 13, 7 and 17 (Marsaglia, Xorshift RNGs, 2003).
#[derive(Drop)]
pub struct Draws {
    pub state: u64,
}

impl Draws {
    /// The next number below a limit that isn't 0.
    pub fn below(&mut self, limit: u64) -> u64 {
        self.state ^= self.state << 13;
        self.state ^= self.state >> 7;
        self.state ^= self.state << 17;
        self.state.checked_rem(limit).unwrap_or(0)
    }
}

/// A key's run, as the plain rule places it.
#[derive(Clone, Copy)]
struct Taken {
    key: u64,
    place: u32,
    chunk: u32,
    chunks: u32,
}

/// The runs of a segment's entries, and the chunks of each tier that are in one.
#[derive(Drop)]
struct Runs {
    chain: u32,
    taken: Vec<Taken>,
    bits: [u64; 8],
}

/// The bits of so many chunks from a chunk on; None where the tier doesn't have them.
fn bits_of(chunk: u32, chunks: u32) -> Option<u64> {
    if 64 < chunk.saturating_add(chunks) {
        return None;
    }
    Some((chunk..chunk.saturating_add(chunks)).fold(0, |bits, chunk| {
        bits | 1u64.checked_shl(chunk).unwrap_or(0)
    }))
}

impl Runs {
    fn run_of(&self, key: u64) -> Option<Taken> {
        self.taken.iter().find(|taken| taken.key == key).copied()
    }

    fn are_free(&self, place: u32, chunk: u32, chunks: u32) -> bool {
        let taken = self.bits.get(place as usize).copied().unwrap_or(0);
        bits_of(chunk, chunks).is_some_and(|bits| taken & bits == 0)
    }

    /// Where a value of so many chunks goes; None where there is no room.
    fn room(&self, geo: &Geo, key: u64, chunks: u32) -> Option<(u32, u32)> {
        if let Some(old) = self.run_of(key) {
            let end = old.chunk.saturating_add(old.chunks);
            let more = chunks.saturating_sub(old.chunks);
            if chunks <= old.chunks || self.are_free(old.place, end, more) {
                return Some((old.place, old.chunk));
            }
        }
        for place in 0..self.chain {
            for chunk in 0..64 {
                if self.are_free(place, chunk, chunks) {
                    return Some((place, chunk));
                }
            }
        }
        (self.chain < geo.tiers()).then_some((self.chain, 0))
    }

    /// Turns the bits of a run.
    fn turn(&mut self, run: Taken) {
        if let Some(bits) = self.bits.get_mut(run.place as usize) {
            *bits ^= bits_of(run.chunk, run.chunks).unwrap_or(0);
        }
    }

    fn remove(&mut self, key: u64) {
        if let Some(run) = self.run_of(key) {
            self.turn(run);
        }
        self.taken.retain(|taken| taken.key != key);
    }

    fn put(&mut self, geo: &Geo, key: u64, chunks: u32) -> Result<(), Fail> {
        if let Some((place, chunk)) = self.room(geo, key, chunks) {
            self.remove(key);
            self.chain = self.chain.max(place.saturating_add(1));
            let run = Taken {
                key,
                place,
                chunk,
                chunks,
            };
            self.turn(run);
            self.taken.push(run)?;
        }
        Ok(())
    }
}

/// The only segment of a map, as the plain segment keeps it.
#[derive(Drop)]
struct OnlySegment {
    geo: Geo,
    segment: PlainSegment,
    ghost geo_same: { segment.geo ≡ geo },
    ghost index: { segment.segment ≡ 0 },
}

impl OnlySegment {
    fn new(alloc: Global, geo: Geo) -> Result<OnlySegment, Fail> {
        Ok(OnlySegment {
            geo,
            segment: PlainSegment::new(alloc, &geo, 0)?,
        })
    }

    fn answer(&mut self, rt: &impl Abort, alloc: Global, op: &Op) -> Result<Reply, Fail> {
        assert!(rt; may_ask(&self.geo, op));
        Ok(self.segment.answer(alloc, op, true)?)
    }
}

/// Whether an operation of one key keeps the limits and is of the only segment.
fn may_ask(geo: &Geo, op: &Op) -> bool
    ensures limits { IsTrue result → KeepsLimits geo.now op.now }
    ensures here { IsTrue result → segment_of geo.now op.now ≡ 0 }
{
    match op {
        Op::Put { key, value } => is_here(geo, key) && fits(geo, key.as_slice(), value.as_slice()),
        Op::Get { key } | Op::Remove { key } => is_here(geo, key) && is_key(key),
        _ => false,
    }
}

fn is_here(geo: &Geo, key: &Bytes) -> bool
    ensures { IsTrue result → segment_of_key geo.now key.now ≡ 0 }
{
    geo.segment_of(hash(key.as_slice())) == 0
}

fn is_key(key: &Bytes) -> bool
    ensures { IsTrue result → IsKey key.now }
{
    let len = key.as_slice().len();
    1 <= len && len <= MAX_KEY_BYTES as usize
}

/// The bytes of a key: two that tell its number, and more behind them.
fn key_bytes(number: u64) -> ([u8; 12], usize)
    ensures { result.1 ≤ length result.0 }
{
    let mut bytes = [b'.'; 12];
    bytes[0] = b'a'.wrapping_add((number % 26) as u8);
    bytes[1] = b'a'.wrapping_add((number / 26 % 26) as u8);
    (bytes, 2 + (number % 11) as usize)
}

/// The same changes of words, of the plain segment and of the list of runs.
#[derive(Drop)]
struct Sides {
    words: Words,
    plain: OnlySegment,
    runs: Runs,
}

impl Sides {
    fn new(alloc: Global, geo: Geo) -> Result<Sides, Fail> {
        let words = Words::empty(alloc, &geo)?;
        let plain = OnlySegment::new(alloc, geo)?;
        let taken = Vec::new(alloc);
        Ok(Sides {
            words,
            plain,
            runs: Runs {
                chain: 1,
                taken,
                bits: [0; 8],
            },
        })
    }

    fn put(&mut self, rt: &impl Abort, alloc: Global, key: u64, value: &[u8]) -> Result<(), Fail> {
        let (bytes, len) = key_bytes(key);
        let name = &bytes[..len];
        let op = Op::Put {
            key: Bytes::of(alloc, name)?,
            value: Bytes::of(alloc, value)?,
        };
        let reply = self.plain.answer(rt, alloc, &op)?;
        let line = Line {
            key: name,
            value: Some(value),
        };
        let answer = perform(&mut self.words, &line, Never)?;
        assert!(rt; is_told(&reply, answer), "at put of {key}");
        let words = 2 + len.div_ceil(8) + value.len().div_ceil(8);
        let geo = self.plain.geo;
        let chunks = u32::try_from(words.div_ceil(4)).unwrap_or(u32::MAX);
        self.runs.put(&geo, key, chunks)?;
        self.compare_place(rt, key)
    }

    fn remove(&mut self, rt: &impl Abort, alloc: Global, key: u64) -> Result<(), Fail> {
        let (bytes, len) = key_bytes(key);
        let name = &bytes[..len];
        let op = Op::Remove {
            key: Bytes::of(alloc, name)?,
        };
        let reply = self.plain.answer(rt, alloc, &op)?;
        let line = Line {
            key: name,
            value: None,
        };
        let answer = perform(&mut self.words, &line, Never)?;
        assert!(rt; is_told(&reply, answer), "at removal of {key}");
        self.runs.remove(key);
        self.compare_place(rt, key)
    }

    /// The key stands where the list of runs has it.
    #[tactic(auto, using(cm_geo::proofs::Ranges::segments_range))]
    fn compare_place(&self, rt: &impl Abort, key: u64) -> Result<(), Fail> {
        let (bytes, len) = key_bytes(key);
        let mut mem = FixedMem::new(&self.words, 0);
        let sight = look(&mut mem, self.words.geo(), &bytes[..len])?;
        let place = sight.map(|sight| (sight.place, sight.chunk));
        let expected = self.runs.run_of(key).map(|run| (run.place, run.chunk));
        assert_eq!(rt; place, expected, "of {key}");
        Ok(())
    }

    /// Each key has the value that the plain segment gives it.
    fn compare_all(&mut self, rt: &impl Abort, alloc: Global, keys: u64) -> Result<(), Fail> {
        for key in 0..keys {
            let (bytes, len) = key_bytes(key);
            let name = &bytes[..len];
            let op = Op::Get {
                key: Bytes::of(alloc, name)?,
            };
            let same = match self.plain.answer(rt, alloc, &op)? {
                Reply::Value(value) => finds(&self.words, name, Some(value.as_slice())),
                _ => finds(&self.words, name, None),
            };
            assert!(rt; same, "of {key}");
            self.compare_place(rt, key)?;
        }
        Ok(())
    }
}

/// Whether a caller is told what the plain segment replies.
fn is_told(reply: &Reply, answer: Answer) -> bool {
    matches!(
        (reply, answer),
        (Reply::New, Answer::New)
            | (Reply::Replaced, Answer::Replaced)
            | (Reply::Removed, Answer::Removed)
            | (Reply::Missing, Answer::Missing)
            | (Reply::FullChain, Answer::FullChain)
    )
}

/// A length in bytes: mostly of one or two chunks, at times of many.
fn draw_len(draws: &mut Draws) -> usize {
    let limit = if draws.below(16) == 0 { 700 } else { 40 };
    draws.below(limit) as usize
}

/// So many changes of as many keys as fill a part of the tiers or all of them.
fn run_changes(
    rt: &impl Abort,
    alloc: Global,
    draws: &mut Draws,
    tiers: u32,
    changes: u32,
) -> Result<(), Fail> {
    let mut sides = Sides::new(alloc, geo_of(tiers)?)?;
    let keys = 20 + 32 * u64::from(tiers);
    for number in 0..changes {
        let key = draws.below(keys);
        if draws.below(10) < 3 {
            sides.remove(rt, alloc, key)?;
        } else {
            let value = [draws.below(256).to_le_bytes()[0]; 700];
            let len = draw_len(draws).min(value.len());
            sides.put(rt, alloc, key, &value[..len])?;
        }
        if number % 256 == 255 {
            sides.compare_all(rt, alloc, keys)?;
        }
    }
    sides.compare_all(rt, alloc, keys)
}

#[test]
fn random_changes_are_those_of_the_plain_segment(rt: HostRuntime) -> Result<(), Fail> {
    let mut draws = Draws {
        state: 0x2545_f491_4f6c_dd1d,
    };
    for tiers in 1..=8 {
        run_changes(&rt, rt.alloc(), &mut draws, tiers, 1250)?;
    }
    Ok(())
}

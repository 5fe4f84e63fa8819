//! A segment's calls, one after the other as a store makes them, for the tests.

ghost use Rattle.std.specs.Prelude.{◌≡◌, ◌<◌, ◌^◌, IfSome, IsTrue, None, length};
ghost use Rattle.cm_geo.specs.Hash.{segment_of_key};
ghost use Rattle.cm_geo.specs.Need.{Fits};
ghost use Rattle.cm_plain.specs.Plans.{op_of_ask};
ghost use Rattle.cm_words.specs.Maps.{number_word};
ghost use Rattle.cm_words.specs.Memory.{HasEvenNumber};
ghost use Rattle.cm_words.specs.Parity.{IsEven};
ghost use Rattle.cm_words.specs.Calls.{IsWritable};
ghost use Rattle.cm_segment.specs.Planning.{MayBegin};

use cm_entry::value_equals;
use cm_geo::{Geo, MAX_KEY_BYTES, MAX_VALUE_BYTES, hash};
use cm_plain::{Plan, PlanKind};
use cm_segment::{Planned, apply, look, plan_put, plan_remove};
use cm_words::{Dead, FixedMem, Fuse, Mem, Never, PlainMem, Words};
use std::alloc::Global;
use std::test::Fail;

/// A change: the key, and the value that it gets, or none.
#[derive(Clone, Copy, Debug)]
pub struct Line<'a> {
    pub key: &'a [u8],
    pub value: Option<&'a [u8]>,
}

/// The change that a text tells: `put a 1` or `remove a`. `put-long f 62` gives f a value with which it takes 62
/// chunks, where f has at most 8 bytes.
pub fn line_of(text: &str) -> Line<'_> {
    let mut words = text.split(' ');
    let verb = words.next().unwrap_or("");
    let key = words.next().unwrap_or("").as_bytes();
    let value = value_of(verb, words.next().unwrap_or(""));
    Line { key, value }
}

fn value_of<'a>(verb: &str, word: &'a str) -> Option<&'a [u8]> {
    if verb == "put" {
        return Some(word.as_bytes());
    }
    if verb == "put-long" {
        return Some(value_of_chunks(word));
    }
    None
}

// A value that fills so many chunks of four words, behind the first two words and a key's.
fn value_of_chunks(chunks: &str) -> &'static [u8] {
    const LONGEST: &[u8] = &[7; 2024];
    let chunks: usize = chunks.parse().unwrap_or(1);
    let words = chunks.wrapping_mul(4).wrapping_sub(3);
    LONGEST.get(..words.wrapping_mul(8)).unwrap_or(LONGEST)
}

/// What becomes of it.
#[derive(Clone, Copy, Debug, PartialEq, Eq)]
pub enum Answer {
    New,
    Replaced,
    Removed,
    Missing,
    FullChain,
    /// The segment can't be changed so.
    Refused,
}

/// The only segment of a map of so many tiers of 64 chunks, four words each.
pub fn geo_of(tiers: u32) -> Result<Geo, Fail> {
    Ok(Geo::new(1, tiers, 64, 4, tiers.saturating_sub(1))?)
}

/// The change of a plan, between its two change numbers.
fn make<M: Mem>(mem: &mut M, geo: &Geo, plan: &Plan<'_>) -> Result<(), Dead>
    requires writable { IsWritable (M.seen mem.old) geo.now }
    requires idle { (M.seen mem.old).plan ≡ None }
    requires number { HasEvenNumber (M.seen mem.old) }
    requires may { MayBegin (M.seen mem.old) geo.now (op_of_ask plan.now.ask) plan.now }
{
    mem.begin(plan)?;
    apply(mem, geo, plan)?;
    mem.finish()?;
    Ok(())
}

fn put<M: Mem>(mem: &mut M, geo: &Geo, key: &[u8], value: &[u8]) -> Result<Answer, Dead>
    requires writable { IsWritable (M.seen mem.old) geo.now }
    requires idle { (M.seen mem.old).plan ≡ None }
    requires number { HasEvenNumber (M.seen mem.old) }
    requires fits { Fits geo.now (length key.now) (length value.now) }
    requires segment { segment_of_key geo.now key.now ≡ (M.seen mem.old).setting.segment }
{
    let plan = match plan_put(mem, geo, key, value)? {
        Planned::FullChain => return Ok(Answer::FullChain),
        Planned::Ready(plan) | Planned::NeedsTier(plan) => plan,
    };
    make(mem, geo, &plan)?;
    if plan.kind == PlanKind::Fresh {
        Ok(Answer::New)
    } else {
        Ok(Answer::Replaced)
    }
}

fn remove<M: Mem>(mem: &mut M, geo: &Geo, key: &[u8]) -> Result<Answer, Dead>
    requires writable { IsWritable (M.seen mem.old) geo.now }
    requires idle { (M.seen mem.old).plan ≡ None }
    requires number { HasEvenNumber (M.seen mem.old) }
{
    let Some(plan) = plan_remove(mem, geo, key)? else {
        return Ok(Answer::Missing);
    };
    make(mem, geo, &plan)?;
    Ok(Answer::Removed)
}

/// Makes a change in a guarded memory.
pub fn perform<F: Fuse>(words: &mut Words, line: &Line<'_>, fuse: F) -> Result<Answer, Dead> {
    let geo = *words.geo();
    if !may_change(words, line) {
        return Ok(Answer::Refused);
    }
    let mut mem = PlainMem::guarded(words, 0, fuse);
    match line.value {
        Some(value) => put(&mut mem, &geo, line.key, value),
        None => remove(&mut mem, &geo, line.key),
    }
}

/// Whether no change of the only segment is under way, one more can be counted, and the line's key and
/// value may be stored there.
fn may_change(words: &Words, line: &Line<'_>) -> bool
    ensures even { IsTrue result → IsEven (number_word words.now 0) }
    ensures not_last { IsTrue result → number_word words.now 0 < 2 ^ 63 }
    ensures segment { IsTrue result → segment_of_key words.now.geo line.now.key.now ≡ 0 }
    ensures fits { IsTrue result → IfSome line.now.value (λ value. Fits words.now.geo (length line.now.key.now) (length value.now)) }
{
    let geo = words.geo();
    if geo.total_words() <= 1 {
        return false;
    }
    let number = words.get(1);
    number % 2 == 0
        && number < 1 << 63
        && geo.segment_of(hash(line.key)) == 0
        && fits(geo, line.key, line.value.unwrap_or(b""))
}

/// Whether a key and a value may be stored.
pub fn fits(geo: &Geo, key: &[u8], value: &[u8]) -> bool
    ensures { IsTrue result → Fits geo.now (length key.now) (length value.now) }
{
    key.len() <= MAX_KEY_BYTES as usize
        && value.len() <= MAX_VALUE_BYTES as usize
        && geo.fits(key.len() as u32, value.len() as u32)
}

/// The words after these changes, each of which is made.
pub fn words_after(alloc: Global, geo: &Geo, lines: &[&str]) -> Result<Words, Fail> {
    let mut words = Words::empty(alloc, geo)?;
    for line in lines {
        perform(&mut words, &line_of(line), Never)?;
    }
    Ok(words)
}

/// The words of the only segment.
#[tactic(auto, using(cm_geo::proofs::Ranges::segments_range))]
pub fn segment_of(words: &Words) -> &[u64] {
    words.segment(0)
}

/// The word at an address; 0 behind the last one.
pub fn word_at(words: &Words, at: u32) -> u64 {
    if at < words.geo().total_words() {
        words.get(at)
    } else {
        0
    }
}

/// A copy of the words.
pub fn copy_of(alloc: Global, words: &Words) -> Result<Words, Fail> {
    let geo = *words.geo();
    let mut copy = Words::empty(alloc, &geo)?;
    for at in 0..geo.total_words() {
        if at < copy.geo().total_words() {
            copy.set(at, words.get(at));
        }
    }
    Ok(copy)
}

/// Whether a look for a key finds this value, or nothing where there is none.
#[tactic(auto, using(cm_geo::proofs::Ranges::segments_range))]
pub fn finds(words: &Words, key: &[u8], value: Option<&[u8]>) -> bool {
    let geo = *words.geo();
    let mut mem = FixedMem::new(words, 0);
    match (look(&mut mem, &geo, key), value) {
        (Ok(None), None) => true,
        (Ok(Some(sight)), Some(value)) => {
            sight.key_len as usize == key.len()
                && sight.value_len as usize == value.len()
                && value_equals(&mut mem, &geo, sight.place, sight.chunk, value) == Ok(true)
        }
        _ => false,
    }
}

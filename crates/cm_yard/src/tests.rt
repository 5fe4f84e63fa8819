//! Yards of a few claims, and callers that know of a yard what its public clauses say.

ghost use Rattle.std.specs.Prelude.{◌≡◌, ◌<◌, ◌≤◌, ◌+◌, ◌∷◌, [], IfOk, IfSome, length, sum};
ghost use Rattle.cm_yard.specs.Claims.{claims_for};
ghost use Rattle.cm_yard.specs.Trials.{given_by, owned_first};
ghost use Rattle.cm_yard.specs.Views.{root_view};
ghost use Rattle.cm_yard.specs.Yards.{IsOf, key_of, view_of};

use crate::yard::first_words;
use crate::{Claim, Yard, YardSeat};
use cm_geo::Geo;
use cm_plain::NoMemory;
use cm_words::{Dead, Fuse, KillFuse, Never};
use std::alloc::Global;
use std::test::Fail;
use std::thread;
use std::thread::Threads;

/// A claim that can't die.
fn claim(yard: &Yard, seat: &mut YardSeat, segment: u32) -> Claim
    requires its { IsOf seat.old yard.now }
    requires segment { segment < (key_of yard.now).geo.segments }
    ensures its { IsOf seat.new yard.now }
    ensures number { (view_of seat.new).number ≡ (view_of seat.old).number }
    ensures for_segment { claims_for segment (view_of seat.new) ≡ claims_for segment (view_of seat.old) + given_by result }
    ensures given { length (view_of seat.new).claims ≡ length (view_of seat.old).claims + given_by result }
{
    match yard.claim(seat, &mut Never, segment) {
        Ok(answer) => answer,
        Err(Dead) => unreachable!(),
    }
}

/// What two seats were answered, and how many claim words were owned at the end.
#[derive(Drop)]
struct Ended {
    first: Claim,
    second: Claim,
    owned: u32,
}

/// Two seats that are split off a root claim for a segment each, are joined, and the yard is closed. What is owned then
/// was owned at the start, or was given.
fn claim_by_two(
    alloc: Global,
    yard: Yard,
    mut root: YardSeat,
    segments: (u32, u32),
) -> Result<Ended, NoMemory>
    requires its { IsOf root yard }
    requires start { view_of root ≡ root_view }
    requires first { segments.0 < (key_of yard).geo.segments }
    requires second { segments.1 < (key_of yard).geo.segments }
    ensures { IfOk result (λ ended. ended.owned ≡ owned_first (key_of yard) + given_by ended.first + given_by ended.second) }
{
    let mut one = yard.split(&mut root, 0);
    let mut two = yard.split(&mut root, 1);
    let first = claim(&yard, &mut one, segments.0);
    let second = claim(&yard, &mut two, segments.1);
    yard.join(&mut root, two);
    yard.join(&mut root, one);
    let owned = yard.close(alloc, root)?;
    Ok(Ended {
        first,
        second,
        owned,
    })
}

#[test]
fn what_two_seats_were_given_is_owned_at_the_end(rt: HostRuntime) -> Result<(), Fail> {
    let (yard, root) = start(rt.alloc(), 2, 3, &[0, 2])?;
    let ended = claim_by_two(rt.alloc(), yard, root, (1, 0))?;
    assert_eq!(rt; ended.first, Claim::Given { index: 2 });
    assert_eq!(rt; ended.second, Claim::Spent);
    assert_eq!(rt; ended.owned, 3);
    Ok(())
}

/// Where a claim is answered Spent, all claim words are owned at the end.
fn owned_after_spent(
    alloc: Global,
    yard: Yard,
    mut root: YardSeat,
    segment: u32,
) -> Result<Option<u32>, NoMemory>
    requires its { IsOf root yard }
    requires start { view_of root ≡ root_view }
    requires segment { segment < (key_of yard).geo.segments }
    ensures { IfOk result (λ owned. IfSome owned (λ count. count ≡ (key_of yard).geo.extra)) }
{
    match yard.claim(&mut root, &mut Never, segment) {
        Ok(Claim::Spent) => Ok(Some(yard.close(alloc, root)?)),
        Ok(Claim::Given { index: _ }) | Err(Dead) => Ok(None),
    }
}

#[test]
fn all_is_owned_after_spent(rt: HostRuntime) -> Result<(), Fail> {
    let (yard, root) = start(rt.alloc(), 2, 3, &[1, 2])?;
    assert_eq!(rt; owned_after_spent(rt.alloc(), yard, root, 1)?, Some(3));
    let (yard, root) = start(rt.alloc(), 2, 3, &[1, 1])?;
    assert_eq!(rt; owned_after_spent(rt.alloc(), yard, root, 1)?, None);
    Ok(())
}

/// A geometry with so many segments, of three tiers at most, and so many extra tiers.
fn geo_of(segments: u32, extra: u32) -> Result<Geo, Fail>
    ensures { IfOk result (λ geo. (geo.segments ≡ segments) × (geo.extra ≡ extra)) }
{
    Ok(Geo::new(segments, 3, 64, 4, extra)?)
}

/// The words at the start of four segments, with eight claims.
fn words_of_four(alloc: Global, linked: [u32; 4]) -> Result<Vec<u64>, Fail>
    requires { sum linked ≤ 8 }
{
    Ok(first_words(alloc, &geo_of(4, 8)?, &linked)?)
}

#[test]
fn the_first_claims_are_of_the_tiers_linked_at_the_start(rt: HostRuntime) -> Result<(), Fail> {
    let rows = [
        (
            words_of_four(rt.alloc(), [0, 0, 0, 0])?,
            [0, 0, 0, 0, 0, 0, 0, 0, 0, 0, 0, 0],
        ),
        (
            words_of_four(rt.alloc(), [2, 0, 1, 0])?,
            [0, 0, 0, 0, 1, 1, 3, 0, 0, 0, 0, 0],
        ),
        (
            words_of_four(rt.alloc(), [2, 2, 2, 2])?,
            [0, 0, 0, 0, 1, 1, 2, 2, 3, 3, 4, 4],
        ),
    ];
    for (words, expected) in rows {
        assert_eq!(rt; words.as_slice(), expected.as_slice());
    }
    Ok(())
}

/// A yard with these numbers of linked tiers, and its root.
fn start(alloc: Global, segments: u32, extra: u32, linked: &[u32]) -> Result<(Yard, YardSeat), Fail>
    requires length_is { length linked.now ≡ segments }
    requires within_limit { sum linked.now ≤ extra }
    ensures its { IfOk result (λ r. IsOf r.1 r.0) }
    ensures geo { IfOk result (λ r. ((key_of r.0).geo.segments ≡ segments) × ((key_of r.0).geo.extra ≡ extra)) }
    ensures root { IfOk result (λ r. view_of r.1 ≡ root_view) }
{
    let geo = geo_of(segments, extra)?;
    Ok(Yard::new(alloc, &geo, linked)?)
}

/// Four seats of one root are joined, and the yard is closed: how many claim words are owned.
fn end_of_four(
    alloc: Global,
    yard: Yard,
    mut root: YardSeat,
    first: YardSeat,
    second: YardSeat,
    third: YardSeat,
    fourth: YardSeat,
) -> Result<u32, NoMemory>
    requires its { IsOf root yard × IsOf first yard × IsOf second yard × IsOf third yard × IsOf fourth yard }
    requires root { (view_of root).number ≡ 64 }
    requires made { (view_of root).made ≡ (view_of fourth).number ∷ (view_of third).number ∷ (view_of second).number ∷ (view_of first).number ∷ [] }
{
    yard.join(&mut root, fourth);
    yard.join(&mut root, third);
    yard.join(&mut root, second);
    yard.join(&mut root, first);
    yard.close(alloc, root)
}

#[test]
fn claims_are_given_once_and_in_order(rt: HostRuntime) -> Result<(), Fail> {
    let (yard, mut root) = start(rt.alloc(), 2, 4, &[0, 1])?;
    let mut first = yard.split(&mut root, 0);
    let mut second = yard.split(&mut root, 1);
    let mut third = yard.split(&mut root, 2);
    let mut fourth = yard.split(&mut root, 63);
    let answers = [
        claim(&yard, &mut first, 1),
        claim(&yard, &mut second, 0),
        claim(&yard, &mut third, 1),
        claim(&yard, &mut fourth, 0),
        claim(&yard, &mut first, 1),
    ];
    let expected = [
        Claim::Given { index: 1 },
        Claim::Given { index: 2 },
        Claim::Given { index: 3 },
        Claim::Spent,
        Claim::Spent,
    ];
    assert_eq!(rt; answers, expected);
    let owned = end_of_four(rt.alloc(), yard, root, first, second, third, fourth)?;
    assert_eq!(rt; owned, 4);
    Ok(())
}

/// Two seats, and what their claims were answered.
#[derive(Drop)]
struct Pair {
    one: YardSeat,
    two: YardSeat,
    answers: [Claim; 4],
}

/// Two seats claim in turn, twice each.
fn claim_in_turn(yard: &Yard, mut one: YardSeat, mut two: YardSeat) -> Pair
    requires its { IsOf one yard.now × IsOf two yard.now }
    requires segments { 1 < (key_of yard.now).geo.segments }
    ensures its { IsOf result.one yard.now × IsOf result.two yard.now }
    ensures numbers { ((view_of result.one).number ≡ (view_of one).number) × ((view_of result.two).number ≡ (view_of two).number) }
{
    let answers = [
        claim(yard, &mut one, 0),
        claim(yard, &mut two, 1),
        claim(yard, &mut one, 0),
        claim(yard, &mut two, 1),
    ];
    Pair { one, two, answers }
}

/// Two pairs of seats claim beside each other.
fn claim_on_two_threads<R: Threads>(
    rt: &R,
    yard: &Yard,
    first: YardSeat,
    second: YardSeat,
    third: YardSeat,
    fourth: YardSeat,
) -> (Pair, Pair)
    requires its { IsOf first yard.now × IsOf second yard.now × IsOf third yard.now × IsOf fourth yard.now }
    requires segments { 1 < (key_of yard.now).geo.segments }
    ensures its { IsOf result.0.one yard.now × IsOf result.0.two yard.now × IsOf result.1.one yard.now × IsOf result.1.two yard.now }
    ensures numbers { ((view_of result.0.one).number ≡ (view_of first).number) × ((view_of result.0.two).number ≡ (view_of second).number) × ((view_of result.1.one).number ≡ (view_of third).number) × ((view_of result.1.two).number ≡ (view_of fourth).number) }
{
    thread::join(
        rt,
        || -> Pair
            requires { IsOf first yard.now × IsOf second yard.now × (1 < (key_of yard.now).geo.segments) }
            ensures { IsOf result.one yard.entry.now × IsOf result.two yard.entry.now × ((view_of result.one).number ≡ (view_of first).number) × ((view_of result.two).number ≡ (view_of second).number) }
        { claim_in_turn(yard, first, second) },
        || -> Pair
            requires { IsOf third yard.now × IsOf fourth yard.now × (1 < (key_of yard.now).geo.segments) }
            ensures { IsOf result.one yard.entry.now × IsOf result.two yard.entry.now × ((view_of result.one).number ≡ (view_of third).number) × ((view_of result.two).number ≡ (view_of fourth).number) }
        { claim_in_turn(yard, third, fourth) },
    )
}

/// The index of a claim that was given.
fn index_of(answer: &Claim) -> u32 {
    match answer {
        Claim::Given { index } => *index,
        Claim::Spent => u32::MAX,
    }
}

#[test]
fn claims_on_two_threads_are_given_once(rt: HostRuntime) -> Result<(), Fail> {
    let (yard, mut root) = start(rt.alloc(), 4, 8, &[0, 0, 0, 0])?;
    let first = yard.split(&mut root, 0);
    let second = yard.split(&mut root, 1);
    let third = yard.split(&mut root, 2);
    let fourth = yard.split(&mut root, 3);
    let (left, right) = claim_on_two_threads(&rt, &yard, first, second, third, fourth);
    let mut indices = Vec::new(rt.alloc());
    for answer in left.answers.iter().chain(right.answers.iter()) {
        indices.push(index_of(answer))?;
    }
    indices.sort()?;
    assert_eq!(rt; indices.as_slice(), [0, 1, 2, 3, 4, 5, 6, 7].as_slice());
    let Pair {
        one: first,
        two: second,
        answers: _,
    } = left;
    let Pair {
        one: third,
        two: fourth,
        answers: _,
    } = right;
    let owned = end_of_four(rt.alloc(), yard, root, first, second, third, fourth)?;
    assert_eq!(rt; owned, 8);
    Ok(())
}

/// How a claim under this fuse ended where three claim words are owned, or one of three; what another seat was answered
/// behind it; and how many are owned then.
fn claim_under(
    alloc: Global,
    are_all_owned: bool,
    mut fuse: KillFuse,
) -> Result<(Result<Claim, Dead>, Claim, u32), Fail> {
    let linked = if are_all_owned { 3 } else { 1 };
    let (yard, mut root) = start(alloc, 2, 3, &[0, linked])?;
    let mut first = yard.split(&mut root, 0);
    let mut second = yard.split(&mut root, 1);
    let third = yard.split(&mut root, 2);
    let fourth = yard.split(&mut root, 3);
    let found = yard.claim(&mut first, &mut fuse, 0);
    let behind = claim(&yard, &mut second, 0);
    let owned = end_of_four(alloc, yard, root, first, second, third, fourth)?;
    Ok((found, behind, owned))
}

#[test]
fn a_claim_dies_at_each_of_its_exchanges(rt: HostRuntime) -> Result<(), Fail> {
    let given = |index| Claim::Given { index };
    let events = |left| KillFuse::Events { left };
    let rows = [
        (true, events(0), Err(Dead), Claim::Spent, 3),
        (true, events(1), Err(Dead), Claim::Spent, 3),
        (true, events(2), Err(Dead), Claim::Spent, 3),
        (true, events(3), Ok(Claim::Spent), Claim::Spent, 3),
        (false, events(0), Err(Dead), given(1), 2),
        (false, events(1), Err(Dead), given(1), 2),
        (false, events(2), Ok(given(1)), given(2), 3),
        (
            false,
            KillFuse::Stores { left: 0 },
            Ok(given(1)),
            given(2),
            3,
        ),
        (false, KillFuse::Spent { deaths: 1 }, Err(Dead), given(1), 2),
        (false, KillFuse::Never, Ok(given(1)), given(2), 3),
    ];
    for (are_all_owned, fuse, answer, behind, owned) in rows {
        let found = claim_under(rt.alloc(), are_all_owned, fuse)?;
        assert_eq!(rt; found, (answer, behind, owned));
    }
    Ok(())
}

#[test]
fn a_stop_word_is_that_of_its_segment(rt: HostRuntime) -> Result<(), Fail> {
    let (yard, mut root) = start(rt.alloc(), 2, 0, &[0, 0])?;
    let mut seat = yard.split(&mut root, 0);
    assert_eq!(rt; yard.stopped(&mut root, 1), 0);
    yard.raise_stop(&mut seat, 1, 2);
    assert_eq!(rt; yard.stopped(&mut root, 0), 0);
    assert_eq!(rt; yard.stopped(&mut root, 1), 2);
    yard.raise_stop(&mut seat, 0, 1);
    assert_eq!(rt; yard.stopped(&mut root, 0), 1);
    assert_eq!(rt; claim(&yard, &mut seat, 1), Claim::Spent);
    yard.join(&mut root, seat);
    assert_eq!(rt; yard.close(rt.alloc(), root)?, 0);
    Ok(())
}

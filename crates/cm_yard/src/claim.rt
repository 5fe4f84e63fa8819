//! Claims of extra tiers.

ghost use Rattle.std.specs.Prelude.{◌≡◌, ◌≢◌, ◌+◌, ◌-◌, ◌<◌, ◌≤◌, ◌∷◌, [], IfOk, OnOk, OnErr, IfErr, MatchResult, IsTrue, ◌↔◌, true, false};
ghost use Rattle.cm_words.specs.declared.fuse.Admit.TheVariants.{Go, Die};
ghost use Rattle.cm_words.specs.declared.fuse.EventKind.TheVariants.{Exchange};
ghost use Rattle.cm_words.specs.Fuses.{Admits};
ghost use Rattle.cm_words.specs.Meters.{CountsForBudget, ReportsDeath};
ghost use Rattle.cm_yard.specs.Claims.{seat_meter};
ghost use Rattle.cm_yard.specs.Views.{with_claim, with_misses};

use crate::plays::{ClaimExchange, Says};
use crate::view::View;
use crate::yard::{Yard, YardSeat};
use atomic_table::Seat;
use cm_words::{Admit, Dead, EventKind, Fuse};
use std::marker::Brand;

/// What a claim for a segment answers.
#[derive(Clone, Copy, Debug, PartialEq, Eq)]
pub enum Claim {
    /// The claim word with this index is the segment's from now on.
    Given { index: u32 },
    /// Each claim word was found owned.
    Spent,
}

/// Asks a fuse for one exchange.
fn ask<F: Fuse>(fuse: &mut F) -> Result<(), Dead>
    ensures { MatchResult result (λ _. Admits Exchange (F.fused fuse.old) (F.fused fuse.new) Go) (λ _. Admits Exchange (F.fused fuse.old) (F.fused fuse.new) Die) }
{
    match fuse.admit(EventKind::Exchange) {
        Admit::Go => Ok(()),
        Admit::Die => Err(Dead),
    }
}

impl Yard {
    ghost use Rattle.cm_yard.specs.Claims.{AnswersClaim, DiesInClaim, OnlyClaims};
    ghost use Rattle.cm_yard.specs.Yards.{IsOf, key_of, view_of};

    /// One exchange of the claim word at a place, which is that with an index.
    fn exchange_as<B: Says>(
        &self,
        seat: &mut Seat<(), View>,
        _index: u32,
        place: usize,
        segment: u32,
    ) -> u64
        requires its { seat.old.table_id ≡ self.now.table.shared.table_id }
        requires live { seat.old.me.0.number ≤ 64 }
        requires index { B.says < (key_of self.now).geo.extra }
        requires place { place ≡ (key_of self.now).geo.segments + B.says }
        requires segment { segment < (key_of self.now).geo.segments }
        ensures its { seat.new.table_id ≡ seat.old.table_id }
        ensures bare { seat.new.me.1 ≡ seat.old.me.1 }
        ensures given { result ≡ 0 → seat.new.me.0 ≡ with_claim seat.old.me.0 B.says segment }
        ensures owned { result ≢ 0 → seat.new.me.0 ≡ with_misses seat.old.me.0 (record { index = B.says; segment = result - 1 } ∷ []) }
    {
        self.table
            .shared
            .compare_exchange::<ClaimExchange<B>>(seat, place, 0, u64::from(segment) + 1)
    }

    /// One exchange of a claim word from 0 to a segment's: the word that it found.
    fn exchange(&self, seat: &mut YardSeat, index: u32, segment: u32) -> u64
        requires its { IsOf seat.old self.now }
        requires index { index < (key_of self.now).geo.extra }
        requires segment { segment < (key_of self.now).geo.segments }
        ensures its { IsOf seat.new self.now }
        ensures given { result ≡ 0 → view_of seat.new ≡ with_claim (view_of seat.old) index segment }
        ensures owned { result ≢ 0 → view_of seat.new ≡ with_misses (view_of seat.old) (record { index = index; segment = result - 1 } ∷ []) }
    {
        let place = self.segments as usize + index as usize;
        self.exchange_as::<Brand>(&mut seat.seat, index, place, segment)
    }

    /// Claims a tier for a segment: tries each claim word once, in order, by one exchange.
    ///
    /// Given comes with the first claim word that was found 0, and Spent exactly where each was found owned.
    /// The fuse is asked before each exchange; after Dead those before it were made, and found their words
    /// owned.
    pub fn claim<F: Fuse>(
        &self,
        seat: &mut YardSeat,
        fuse: &mut F,
        segment: u32,
    ) -> Result<Claim, Dead>
        requires its { IsOf seat.old self.now }
        requires segment { segment < (key_of self.now).geo.segments }
        ensures its { IsOf seat.new self.now }
        ensures fuse { ReportsDeath (seat_meter (F.fused fuse.old) (view_of seat.old)) (seat_meter (F.fused fuse.new) (view_of seat.new)) result }
        ensures only { OnlyClaims (view_of seat.old) (view_of seat.new) }
        ensures claims { IfOk result (λ answer. AnswersClaim (key_of self.now).geo.extra segment (view_of seat.old) (view_of seat.new) answer) }
        ensures dead { OnErr result (DiesInClaim (key_of self.now).geo.extra (view_of seat.old) (view_of seat.new)) }
        ensures counts { OnErr result (CountsForBudget Exchange (F.fused fuse.old).budget) }
    {
        for index in 0..self.extra {
            ask(fuse)?;
            if self.exchange(seat, index, segment) == 0 {
                return Ok(Claim::Given { index });
            }
        }
        Ok(Claim::Spent)
    }
}

//! Rounds of loads without a level.

ghost use Rattle.std.specs.Prelude.{◌≡◌, ◌≢◌, ◌/◌, ◌%◌, ◌+◌, ◌==◌, ◌<◌, ◌≤◌, ◌^◌, Some, None, IsSome, if◌then◌else◌};
ghost use Rattle.cm_geo.specs.Addresses.{words_in_segment};
ghost use Rattle.cm_plain.specs.Plans.{op_of_ask};
ghost use Rattle.cm_plain.specs.Replies.{reply_of_heard};
ghost use Rattle.cm_words.specs.declared.fuse.EventKind.TheVariants.{Load};
ghost use Rattle.cm_lock.specs.Calls.{MakesOneEvent};
ghost use Rattle.cm_lock.specs.Rounds.{ClosesRound, IsFoundAtOnce, IsReplyToFound, OpensRound};
ghost use Rattle.cm_lock.specs.Views.{after_close, after_failed_round, after_open, after_peek};
ghost use Rattle.cm_lock.specs.declared.view.Level.TheVariants.{Free};
ghost use Rattle.cm_lock.specs.declared.view.Round.{Round};

use crate::ask::ask_fuse;
use crate::plays::{CloseLoad, OpenLoad, PeekLoad, PicksRoundAnswer};
use crate::table::{SegSeat, SegTable};
use crate::view::View;
use atomic_table::Seat;
use cm_plain::{Ask, Heard};
use cm_words::{Dead, EventKind, Fuse};
use std::marker::Brand;

impl SegTable {
    ghost use Rattle.cm_lock.specs.Tables.{IsOf, key_of, level_of, view_of};

    fn load_first(&self, seat: &mut Seat<(), View>) -> u64
        requires its { seat.old.table_id ≡ self.now.table.shared.table_id }
        requires live { seat.old.me.0.own.number ≤ 64 }
        requires level { seat.old.me.0.own.level ≡ Free }
        requires closed { seat.old.me.0.round ≡ None }
        ensures its { seat.new.table_id ≡ seat.old.table_id }
        ensures view { seat.new.me.0 ≡ (if result % 2 == 0 then after_open seat.old.me.0 result else after_failed_round seat.old.me.0 result) }
        ensures bare { seat.new.me.1 ≡ seat.old.me.1 }
        ensures seen { seat.old.me.0.seen ≤ result / 2 }
    {
        self.table.shared.load::<OpenLoad>(seat, 1)
    }

    fn load_found(&self, seat: &mut Seat<(), View>, at: u32) -> u64
        requires its { seat.old.table_id ≡ self.now.table.shared.table_id }
        requires live { seat.old.me.0.own.number ≤ 64 }
        requires inner { 1 < at }
        requires in_range { at < words_in_segment (key_of self.now).geo }
        requires open { IsSome seat.old.me.0.round }
        ensures its { seat.new.table_id ≡ seat.old.table_id }
        ensures id { seat.new.id ≡ seat.old.id }
        ensures view { (round : Round) → seat.old.me.0.round ≡ Some round → seat.new.me.0 ≡ after_peek seat.old.me.0 round at result }
        ensures bare { seat.new.me.1 ≡ seat.old.me.1 }
    {
        self.table.shared.load::<PeekLoad>(seat, at as usize)
    }

    fn load_last_as<B: PicksRoundAnswer>(
        &self,
        seat: &mut Seat<(), View>,
        _ask: &Ask<'_>,
        _heard: &Heard<'_>,
    ) -> u64
        requires its { seat.old.table_id ≡ self.now.table.shared.table_id }
        requires live { seat.old.me.0.own.number ≤ 64 }
        requires open { IsSome seat.old.me.0.round }
        requires right { (round : Round) → seat.old.me.0.round ≡ Some round → IsReplyToFound (key_of self.now) round B.op B.reply }
        requires claim { (round : Round) → IsFoundAtOnce (key_of self.now) round → B.claim round }
        ensures its { seat.new.table_id ≡ seat.old.table_id }
        ensures same { (round : Round) → seat.old.me.0.round ≡ Some round → result ≡ round.first → (seat.new.me.0 ≡ after_close seat.old.me.0 B.op B.reply result) × B.claim round }
        ensures other { (round : Round) → seat.old.me.0.round ≡ Some round → result ≢ round.first → seat.new.me.0 ≡ after_failed_round seat.old.me.0 result }
        ensures bare { seat.new.me.1 ≡ seat.old.me.1 }
        ensures seen { seat.old.me.0.seen ≤ result / 2 }
    {
        self.table.shared.load::<CloseLoad<B>>(seat, 1)
    }

    fn load_last(&self, seat: &mut Seat<(), View>, ask: &Ask<'_>, heard: &Heard<'_>) -> u64
        requires its { seat.old.table_id ≡ self.now.table.shared.table_id }
        requires live { seat.old.me.0.own.number ≤ 64 }
        requires open { IsSome seat.old.me.0.round }
        requires right { (round : Round) → seat.old.me.0.round ≡ Some round → IsReplyToFound (key_of self.now) round (op_of_ask ask.now) (reply_of_heard heard.now) }
        ensures its { seat.new.table_id ≡ seat.old.table_id }
        ensures same { (round : Round) → seat.old.me.0.round ≡ Some round → result ≡ round.first → (seat.new.me.0 ≡ after_close seat.old.me.0 (op_of_ask ask.now) (reply_of_heard heard.now) result) × IsFoundAtOnce (key_of self.now) round }
        ensures other { (round : Round) → seat.old.me.0.round ≡ Some round → result ≢ round.first → seat.new.me.0 ≡ after_failed_round seat.old.me.0 result }
        ensures bare { seat.new.me.1 ≡ seat.old.me.1 }
        ensures seen { seat.old.me.0.seen ≤ result / 2 }
    {
        self.load_last_as::<Brand>(seat, ask, heard)
    }

    /// Begins a round by one load of the change number: true exactly where that is even, so that no change is
    /// under way. A round is then open; else the seat counts one that failed.
    pub fn open_round<F: Fuse>(&self, seat: &mut SegSeat, fuse: &mut F) -> Result<bool, Dead>
        requires its { IsOf seat.old self.now }
        requires level { level_of seat.old ≡ Free }
        requires closed { (view_of seat.old).round ≡ None }
        ensures its { IsOf seat.new self.now }
        ensures opens { MakesOneEvent Load OpensRound (F.fused fuse.old) (F.fused fuse.new) (view_of seat.old) (view_of seat.new) result }
    {
        ask_fuse(fuse, EventKind::Load)?;
        let word = self.load_first(&mut seat.seat);
        seat.first = word;
        Ok(word % 2 == 0)
    }

    /// Ends the open round by one load of the change number. Where it is still the one that the round began
    /// with, all that was found stood in the segment at once: the answer is entered at half of that number,
    /// which is given. Else the round failed, which the seat counts, and the answer is None.
    ///
    /// The condition is that the reply is right for each state that a list of words with all that was found
    /// represents. Where there is no such list any reply may be given.
    pub fn close_round<F: Fuse>(
        &self,
        seat: &mut SegSeat,
        fuse: &mut F,
        ask: Ask<'_>,
        heard: Heard<'_>,
    ) -> Result<Option<u64>, Dead>
        requires its { IsOf seat.old self.now }
        requires open { IsSome (view_of seat.old).round }
        requires right { (round : Round) → (view_of seat.old).round ≡ Some round → IsReplyToFound (key_of self.now) round (op_of_ask ask) (reply_of_heard heard) }
        ensures its { IsOf seat.new self.now }
        ensures closes { MakesOneEvent Load (ClosesRound (key_of self.now) (op_of_ask ask.entry) (reply_of_heard heard.entry)) (F.fused fuse.old) (F.fused fuse.new) (view_of seat.old) (view_of seat.new) result }
    {
        ask_fuse(fuse, EventKind::Load)?;
        let word = self.load_last(&mut seat.seat, &ask, &heard);
        if word == seat.first {
            Ok(Some(word / 2))
        } else {
            Ok(None)
        }
    }
}

impl SegSeat {
    ghost use Rattle.cm_lock.specs.Tables.{IsOf, key_of, view_of};

    /// The word at an address, by one load of the open round.
    pub(crate) fn peek(&mut self, table: &SegTable, at: u32) -> u64
        requires its { IsOf self.old table.now }
        requires inner { 1 < at }
        requires in_range { at < words_in_segment (key_of table.now).geo }
        requires open { IsSome (view_of self.old).round }
        ensures its { self.new.seat.table_id ≡ self.old.seat.table_id }
        ensures id { self.new.seat.id ≡ self.old.seat.id }
        ensures view { (round : Round) → (view_of self.old).round ≡ Some round → view_of self.new ≡ after_peek (view_of self.old) round at result }
    {
        table.load_found(&mut self.seat, at)
    }
}

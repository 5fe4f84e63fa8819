//! Answers that change nothing.

ghost use Rattle.std.specs.Prelude.{◌≡◌, ◌≢◌, ◌/◌, ◌≤◌, None};
ghost use Rattle.cm_plain.specs.Plans.{op_of_ask};
ghost use Rattle.cm_plain.specs.Replies.{reply_of_heard};
ghost use Rattle.cm_words.specs.declared.fuse.EventKind.TheVariants.{Load};
ghost use Rattle.cm_lock.specs.Answers.{EntersAnswer, IsReplyHere};
ghost use Rattle.cm_lock.specs.Calls.{MakesOneEvent};
ghost use Rattle.cm_lock.specs.Rule.{known_of};
ghost use Rattle.cm_lock.specs.Views.{after_answer};
ghost use Rattle.cm_lock.specs.declared.view.Level.TheVariants.{Free};

use crate::ask::ask_fuse;
use crate::plays::{AnswerLoad, PicksAnswer};
use crate::table::{SegSeat, SegTable};
use crate::view::View;
use atomic_table::Seat;
use cm_plain::{Ask, Heard};
use cm_words::{Dead, EventKind, Fuse};
use std::marker::Brand;

impl SegTable {
    ghost use Rattle.cm_lock.specs.Tables.{IsOf, key_of, level_of, view_of};

    fn load_answer_as<B: PicksAnswer>(
        &self,
        seat: &mut Seat<(), View>,
        _ask: &Ask<'_>,
        _heard: &Heard<'_>,
    ) -> u64
        requires its { seat.old.table_id ≡ self.now.table.shared.table_id }
        requires live { seat.old.me.0.own.number ≤ 64 }
        requires level { seat.old.me.0.own.level ≢ Free }
        requires idle { seat.old.me.0.own.plan ≡ None }
        requires right { IsReplyHere (known_of (key_of self.now) seat.old.me.0.own) B.op B.reply }
        ensures its { seat.new.table_id ≡ seat.old.table_id }
        ensures view { seat.new.me.0 ≡ after_answer seat.old.me.0 B.op B.reply (result / 2) }
        ensures bare { seat.new.me.1 ≡ seat.old.me.1 }
        ensures seen { seat.old.me.0.seen ≤ result / 2 }
    {
        self.table.shared.load::<AnswerLoad<B>>(seat, 1)
    }

    fn load_answer(&self, seat: &mut Seat<(), View>, ask: &Ask<'_>, heard: &Heard<'_>) -> u64
        requires its { seat.old.table_id ≡ self.now.table.shared.table_id }
        requires live { seat.old.me.0.own.number ≤ 64 }
        requires level { seat.old.me.0.own.level ≢ Free }
        requires idle { seat.old.me.0.own.plan ≡ None }
        requires right { IsReplyHere (known_of (key_of self.now) seat.old.me.0.own) (op_of_ask ask.now) (reply_of_heard heard.now) }
        ensures its { seat.new.table_id ≡ seat.old.table_id }
        ensures view { seat.new.me.0 ≡ after_answer seat.old.me.0 (op_of_ask ask.now) (reply_of_heard heard.now) (result / 2) }
        ensures bare { seat.new.me.1 ≡ seat.old.me.1 }
        ensures seen { seat.old.me.0.seen ≤ result / 2 }
    {
        self.load_answer_as::<Brand>(seat, ask, heard)
    }

    /// Enters an answer that changes nothing, by one load of the change number, at half of it: the number of
    /// changes of the state that it speaks of. That is no less than any number that the seat has seen. The
    /// condition is that the reply is right for each state for which a list that fits the notes rests.
    pub fn tell<F: Fuse>(
        &self,
        seat: &mut SegSeat,
        fuse: &mut F,
        ask: Ask<'_>,
        heard: Heard<'_>,
    ) -> Result<u64, Dead>
        requires its { IsOf seat.old self.now }
        requires level { level_of seat.old ≢ Free }
        requires idle { (view_of seat.old).own.plan ≡ None }
        requires right { IsReplyHere (known_of (key_of self.now) (view_of seat.old).own) (op_of_ask ask) (reply_of_heard heard) }
        ensures its { IsOf seat.new self.now }
        ensures enters { MakesOneEvent Load (EntersAnswer (op_of_ask ask.entry) (reply_of_heard heard.entry)) (F.fused fuse.old) (F.fused fuse.new) (view_of seat.old) (view_of seat.new) result }
    {
        ask_fuse(fuse, EventKind::Load)?;
        let word = self.load_answer(&mut seat.seat, &ask, &heard);
        Ok(word / 2)
    }
}

//! Steps of a seat that holds a level.

ghost use Rattle.std.specs.Prelude.{◌≡◌, ◌≢◌, ◌+◌, ◌/◌, ◌<◌, ◌≤◌, ◌^◌, Some, None, IsSome};
ghost use Rattle.cm_geo.specs.Addresses.{words_in_segment};
ghost use Rattle.cm_plain.specs.Changes.{Change};
ghost use Rattle.cm_plain.specs.Plans.{plan_change};
ghost use Rattle.cm_words.specs.Memory.{HasEvenNumber, IsDone, IsPlanHere, MayStore, Note};
ghost use Rattle.cm_words.specs.Parity.{IsOdd};
ghost use Rattle.cm_lock.specs.Rule.{known_of};
ghost use Rattle.cm_lock.specs.Steps.{HasEnded, IsHeldWord};
ghost use Rattle.cm_lock.specs.Views.{after_begin, after_finish, after_load, after_store, note_at};
ghost use Rattle.cm_lock.specs.declared.view.ChangeCopy.{ChangeCopy};
ghost use Rattle.cm_lock.specs.declared.view.Level.TheVariants.{Free, Write};

use crate::plays::{BeginStore, FinishStore, HeldLoad, HeldStore, PicksChange};
use crate::table::{SegSeat, SegTable};
use crate::view::View;
use atomic_table::Seat;
use cm_plain::Plan;
use std::marker::Brand;

impl SegTable {
    ghost use Rattle.cm_lock.specs.Tables.{key_of};

    fn load_word(&self, seat: &mut Seat<(), View>, at: u32) -> u64
        requires its { seat.old.table_id ≡ self.now.table.shared.table_id }
        requires live { seat.old.me.0.own.number ≤ 64 }
        requires in_range { at < words_in_segment (key_of self.now).geo }
        requires level { seat.old.me.0.own.level ≢ Free }
        ensures its { seat.new.table_id ≡ seat.old.table_id }
        ensures id { seat.new.id ≡ seat.old.id }
        ensures view { seat.new.me.0 ≡ after_load seat.old.me.0 at result }
        ensures bare { seat.new.me.1 ≡ seat.old.me.1 }
        ensures word { IsHeldWord seat.old.me.0 at result }
    {
        self.table.shared.load::<HeldLoad>(seat, at as usize)
    }

    fn store_word(&self, seat: &mut Seat<(), View>, at: u32, word: u64) -> u64
        requires its { seat.old.table_id ≡ self.now.table.shared.table_id }
        requires live { seat.old.me.0.own.number ≤ 64 }
        requires inner { 1 < at }
        requires in_range { at < words_in_segment (key_of self.now).geo }
        requires level { seat.old.me.0.own.level ≡ Write }
        requires allowed { MayStore (known_of (key_of self.now) seat.old.me.0.own) at word }
        ensures its { seat.new.table_id ≡ seat.old.table_id }
        ensures id { seat.new.id ≡ seat.old.id }
        ensures view { seat.new.me.0 ≡ after_store seat.old.me.0 at result word }
        ensures bare { seat.new.me.1 ≡ seat.old.me.1 }
        ensures noted { (note : Note) → note_at seat.old.me.0.own.notes at ≡ Some note → note.present ≡ result }
        ensures fits { result < 2 ^ 64 }
    {
        self.table.shared.swap::<HeldStore>(seat, at as usize, word)
    }

    fn store_begin_as<B: PicksChange>(&self, seat: &mut Seat<(), View>, word: u64, _plan: &Plan<'_>)
        requires its { seat.old.table_id ≡ self.now.table.shared.table_id }
        requires live { seat.old.me.0.own.number ≤ 64 }
        requires level { seat.old.me.0.own.level ≡ Write }
        requires idle { seat.old.me.0.own.plan ≡ None }
        requires next { (was : Note) × (note_at seat.old.me.0.own.notes 1 ≡ Some was) × (word ≡ was.present + 1) }
        requires number { HasEvenNumber (known_of (key_of self.now) seat.old.me.0.own) }
        requires planned { IsPlanHere (known_of (key_of self.now) seat.old.me.0.own) B.change }
        ensures its { seat.new.table_id ≡ seat.old.table_id }
        ensures id { seat.new.id ≡ seat.old.id }
        ensures view { seat.new.me.0 ≡ after_begin seat.old.me.0 B.change word }
        ensures bare { seat.new.me.1 ≡ seat.old.me.1 }
        ensures odd { IsOdd word }
    {
        self.table.shared.store::<BeginStore<B>>(seat, 1, word);
    }

    fn store_begin(&self, seat: &mut Seat<(), View>, word: u64, plan: &Plan<'_>)
        requires its { seat.old.table_id ≡ self.now.table.shared.table_id }
        requires live { seat.old.me.0.own.number ≤ 64 }
        requires level { seat.old.me.0.own.level ≡ Write }
        requires idle { seat.old.me.0.own.plan ≡ None }
        requires next { (was : Note) × (note_at seat.old.me.0.own.notes 1 ≡ Some was) × (word ≡ was.present + 1) }
        requires number { HasEvenNumber (known_of (key_of self.now) seat.old.me.0.own) }
        requires planned { IsPlanHere (known_of (key_of self.now) seat.old.me.0.own) (plan_change plan.now) }
        ensures its { seat.new.table_id ≡ seat.old.table_id }
        ensures id { seat.new.id ≡ seat.old.id }
        ensures view { seat.new.me.0 ≡ after_begin seat.old.me.0 (plan_change plan.now) word }
        ensures bare { seat.new.me.1 ≡ seat.old.me.1 }
        ensures odd { IsOdd word }
    {
        self.store_begin_as::<Brand>(seat, word, plan);
    }

    fn store_end(&self, seat: &mut Seat<(), View>, word: u64)
        requires its { seat.old.table_id ≡ self.now.table.shared.table_id }
        requires live { seat.old.me.0.own.number ≤ 64 }
        requires level { seat.old.me.0.own.level ≡ Write }
        requires under_way { IsSome seat.old.me.0.own.plan }
        requires next { (was : Note) × (note_at seat.old.me.0.own.notes 1 ≡ Some was) × (word ≡ was.present + 1) }
        requires done { (change : Change) → (known_of (key_of self.now) seat.old.me.0.own).plan ≡ Some change → IsDone (known_of (key_of self.now) seat.old.me.0.own) change }
        ensures its { seat.new.table_id ≡ seat.old.table_id }
        ensures id { seat.new.id ≡ seat.old.id }
        ensures ended { HasEnded seat.old.me.0 seat.new.me.0 word }
        ensures bare { seat.new.me.1 ≡ seat.old.me.1 }
    {
        self.table.shared.store::<FinishStore>(seat, 1, word);
    }
}

impl SegSeat {
    ghost use Rattle.cm_lock.specs.Tables.{IsOf, key_of, level_of, view_of};

    /// The word at an address, by one load.
    pub(crate) fn load(&mut self, table: &SegTable, at: u32) -> u64
        requires its { IsOf self.old table.now }
        requires in_range { at < words_in_segment (key_of table.now).geo }
        requires level { level_of self.old ≢ Free }
        ensures its { self.new.seat.table_id ≡ self.old.seat.table_id }
        ensures id { self.new.seat.id ≡ self.old.seat.id }
        ensures view { view_of self.new ≡ after_load (view_of self.old) at result }
        ensures word { IsHeldWord (view_of self.old) at result }
    {
        let word = table.load_word(&mut self.seat, at);
        if at == 1 {
            self.number = word;
        }
        word
    }

    /// Sets the word at an address, by one swap: the word that it found.
    pub(crate) fn store(&mut self, table: &SegTable, at: u32, word: u64) -> u64
        requires its { IsOf self.old table.now }
        requires inner { 1 < at }
        requires in_range { at < words_in_segment (key_of table.now).geo }
        requires level { level_of self.old ≡ Write }
        requires allowed { MayStore (known_of (key_of table.now) (view_of self.old).own) at word }
        ensures its { self.new.seat.table_id ≡ self.old.seat.table_id }
        ensures id { self.new.seat.id ≡ self.old.seat.id }
        ensures view { view_of self.new ≡ after_store (view_of self.old) at result word }
        ensures noted { (note : Note) → note_at (view_of self.old).own.notes at ≡ Some note → note.present ≡ result }
        ensures fits { result < 2 ^ 64 }
    {
        table.store_word(&mut self.seat, at, word)
    }

    /// Begins a change: stores the next change number.
    pub(crate) fn begin(&mut self, table: &SegTable, plan: &Plan<'_>)
        requires its { IsOf self.old table.now }
        requires level { level_of self.old ≡ Write }
        requires idle { (view_of self.old).own.plan ≡ None }
        requires number { HasEvenNumber (known_of (key_of table.now) (view_of self.old).own) }
        requires planned { IsPlanHere (known_of (key_of table.now) (view_of self.old).own) (plan_change plan.now) }
        ensures its { self.new.seat.table_id ≡ self.old.seat.table_id }
        ensures id { self.new.seat.id ≡ self.old.seat.id }
        ensures view { view_of self.new ≡ after_begin (view_of self.old) (plan_change plan.now) (self.old.number + 1) }
        ensures noted { (was : Note) × (note_at (view_of self.old).own.notes 1 ≡ Some was) × (was.present ≡ self.old.number) }
    {
        let word = self.number + 1;
        table.store_begin(&mut self.seat, word, plan);
        self.number = word;
    }

    /// Ends the change under way: stores the next change number, and answers it.
    pub(crate) fn finish(&mut self, table: &SegTable) -> u64
        requires its { IsOf self.old table.now }
        requires level { level_of self.old ≡ Write }
        requires under_way { IsSome (view_of self.old).own.plan }
        requires done { (change : Change) → (known_of (key_of table.now) (view_of self.old).own).plan ≡ Some change → IsDone (known_of (key_of table.now) (view_of self.old).own) change }
        ensures its { self.new.seat.table_id ≡ self.old.seat.table_id }
        ensures id { self.new.seat.id ≡ self.old.seat.id }
        ensures view { (c : ChangeCopy) × ((view_of self.old).own.plan ≡ Some c) × (view_of self.new ≡ after_finish (view_of self.old) c (self.old.number + 1)) }
        ensures above { (view_of self.old).seen < (self.old.number + 1) / 2 }
        ensures value { result ≡ self.old.number + 1 }
        ensures noted { (was : Note) × (note_at (view_of self.old).own.notes 1 ≡ Some was) × (was.present ≡ self.old.number) }
        ensures odd { IsOdd self.old.number }
    {
        let word = self.number + 1;
        table.store_end(&mut self.seat, word);
        self.number = word;
        word
    }
}

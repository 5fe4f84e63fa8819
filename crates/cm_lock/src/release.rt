//! Lower levels, and releases.

ghost use Rattle.std.specs.Prelude.{◌≡◌, ◌≢◌, ◌≤◌, None};
ghost use Rattle.cm_words.specs.declared.fuse.EventKind.TheVariants.{Exchange};
ghost use Rattle.cm_lock.specs.Calls.{MakesOneEvent};
ghost use Rattle.cm_lock.specs.Views.{after_release, with_level};
ghost use Rattle.cm_lock.specs.declared.view.Level.TheVariants.{Free, Read, Update, Write};

use crate::ask::ask_fuse;
use crate::plays::{LowerSwap, LowerToReadSubtract, ReleaseExchange};
use crate::table::{SegSeat, SegTable};
use crate::view::{Level, View};
use atomic_table::Seat;
use cm_words::{Dead, EventKind, Fuse};

impl SegTable {
    ghost use Rattle.cm_lock.specs.Tables.{IsOf, level_of, view_of};

    fn swap_to_update(&self, seat: &mut Seat<(), View>)
        requires its { seat.old.table_id ≡ self.now.table.shared.table_id }
        requires live { seat.old.me.0.own.number ≤ 64 }
        requires level { seat.old.me.0.own.level ≡ Write }
        requires idle { seat.old.me.0.own.plan ≡ None }
        ensures its { seat.new.table_id ≡ seat.old.table_id }
        ensures view { seat.new.me.0 ≡ with_level Update seat.old.me.0 }
        ensures bare { seat.new.me.1 ≡ seat.old.me.1 }
    {
        let _ = self.table.shared.swap::<LowerSwap>(seat, 0, 1 << 30);
    }

    fn subtract_to_read(&self, seat: &mut Seat<(), View>)
        requires its { seat.old.table_id ≡ self.now.table.shared.table_id }
        requires live { seat.old.me.0.own.number ≤ 64 }
        requires level { seat.old.me.0.own.level ≡ Update }
        ensures its { seat.new.table_id ≡ seat.old.table_id }
        ensures view { seat.new.me.0 ≡ with_level Read seat.old.me.0 }
        ensures bare { seat.new.me.1 ≡ seat.old.me.1 }
    {
        let _ = self
            .table
            .shared
            .fetch_sub::<LowerToReadSubtract>(seat, 0, (1 << 30) - 1);
    }

    /// One exchange that takes a level back out of the lock word. Nobody else has a level beside Write.
    fn take_out(&self, seat: &mut Seat<(), View>, level: Level)
        requires its { seat.old.table_id ≡ self.now.table.shared.table_id }
        requires live { seat.old.me.0.own.number ≤ 64 }
        requires level { seat.old.me.0.own.level ≡ level }
        requires held { level ≢ Free }
        requires idle { seat.old.me.0.own.plan ≡ None }
        ensures its { seat.new.table_id ≡ seat.old.table_id }
        ensures view { seat.new.me.0 ≡ after_release seat.old.me.0 }
        ensures bare { seat.new.me.1 ≡ seat.old.me.1 }
    {
        let shared = &self.table.shared;
        let _ = match level {
            Level::Free => unreachable!(),
            Level::Read => shared.fetch_sub::<ReleaseExchange>(seat, 0, 1),
            Level::Update => shared.fetch_sub::<ReleaseExchange>(seat, 0, 1 << 30),
            Level::Write => shared.swap::<ReleaseExchange>(seat, 0, 0),
        };
    }

    /// From Write to Update; notes stay. The condition is that no plan is under way.
    pub fn lower<F: Fuse>(&self, seat: &mut SegSeat, fuse: &mut F) -> Result<(), Dead>
        requires its { IsOf seat.old self.now }
        requires level { level_of seat.old ≡ Write }
        requires idle { (view_of seat.old).own.plan ≡ None }
        ensures its { IsOf seat.new self.now }
        ensures lowers { MakesOneEvent Exchange (λ _ old now. now ≡ with_level Update old) (F.fused fuse.old) (F.fused fuse.new) (view_of seat.old) (view_of seat.new) result }
    {
        ask_fuse(fuse, EventKind::Exchange)?;
        self.swap_to_update(&mut seat.seat);
        seat.level = Level::Update;
        Ok(())
    }

    /// From Update to Read; notes stay.
    pub fn lower_to_read<F: Fuse>(&self, seat: &mut SegSeat, fuse: &mut F) -> Result<(), Dead>
        requires its { IsOf seat.old self.now }
        requires level { level_of seat.old ≡ Update }
        ensures its { IsOf seat.new self.now }
        ensures lowers { MakesOneEvent Exchange (λ _ old now. now ≡ with_level Read old) (F.fused fuse.old) (F.fused fuse.new) (view_of seat.old) (view_of seat.new) result }
    {
        ask_fuse(fuse, EventKind::Exchange)?;
        self.subtract_to_read(&mut seat.seat);
        seat.level = Level::Read;
        Ok(())
    }

    /// From any level to Free; the seat forgets what it noted. The condition is that no plan is under way.
    pub fn release<F: Fuse>(&self, seat: &mut SegSeat, fuse: &mut F) -> Result<(), Dead>
        requires its { IsOf seat.old self.now }
        requires level { level_of seat.old ≢ Free }
        requires idle { (view_of seat.old).own.plan ≡ None }
        ensures its { IsOf seat.new self.now }
        ensures releases { MakesOneEvent Exchange (λ _ old now. now ≡ after_release old) (F.fused fuse.old) (F.fused fuse.new) (view_of seat.old) (view_of seat.new) result }
    {
        ask_fuse(fuse, EventKind::Exchange)?;
        let level = seat.level;
        self.take_out(&mut seat.seat, level);
        seat.level = Level::Free;
        Ok(())
    }
}

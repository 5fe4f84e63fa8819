//! The memory of one segment, on which every layer works.

ghost use Rattle.std.specs.Prelude.{◌≡◌, ◌≢◌, ◌<◌, IfOk, OnOk, OnErr, IsSome, IsTrue, None, Some, ℕ};
ghost use Rattle.cm_geo.specs.Addresses.{words_in_segment};
ghost use Rattle.cm_plain.specs.Changes.{Change};
ghost use Rattle.cm_plain.specs.Plans.{IsShort, plan_change};
ghost use Rattle.cm_words.specs.declared.access.Access.TheVariants.{Closed, Writable};
ghost use Rattle.cm_words.specs.declared.fuse.EventKind.TheVariants.{Store};
ghost use Rattle.cm_words.specs.Memory.{HasEvenNumber, IsDone, IsPlanHere, MayStore, MemSeen};
ghost use Rattle.cm_words.specs.Meters.{MakesEvent, ReportsDeath};
ghost use Rattle.cm_words.specs.Effects.{Begins, Finishes, IsAsBefore, Knows, KnowsNumber};
ghost use Rattle.cm_words.specs.Calls.{LoadsOnce, PerformsOnce, StoresOnce};

use crate::fuse::Dead;
use cm_plain::Plan;

/// The words of one segment, one event at a time.
///
/// A memory tells its geometry and its segment, how it may be used, the plan under way, notes of the
/// words that it loaded or stored, its fuse, and how many events and stores were counted. Contracts
/// speak of each list of words that fits the notes. Addresses are counted from the segment's first word.
/// Every call answers `Dead` exactly where its fuse died in place of an event, and then this event
/// wasn't made.
pub trait Mem {
    ghost seen: { Self → MemSeen };

    // All that no call over a memory changes. It is a relation, since a memory that is shared may learn
    // more of what others did. `finish` alone changes it: it adds its change with its number, and the laws
    // at the end join that with what calls before and behind it leave.
    ghost same_rest: { Self → Self → Type 0 };

    ghost rest_with: { Self → Self → Change → ℕ → Type 0 };

    /// The word at an address.
    fn load(&mut self, at: u32) -> Result<u64, Dead>
        requires open { (seen self.old).setting.access ≢ Closed }
        requires in_range { at < words_in_segment (seen self.old).setting.geo }
        ensures loads { LoadsOnce seen same_rest self.old self.new result }
        ensures word { IfOk result (Knows (seen self.new) at) };

    /// Sets the word at an address behind the lock word and the change number; all others stay.
    ///
    /// A guarded memory is stored in under a plan alone, and each store has to leave the words torn for
    /// this plan, so that recovery finds the state before or after it; where a value was replaced in place, it
    /// may also find the key absent, or a value whose checksum is by chance the old one.
    fn store(&mut self, at: u32, word: u64) -> Result<(), Dead>
        requires writable { (seen self.old).setting.access ≡ Writable }
        requires in_range { at < words_in_segment (seen self.old).setting.geo }
        requires inner { 1 < at }
        requires allowed { MayStore (seen self.old) at word }
        ensures stores { StoresOnce seen same_rest at word self.old self.new result }
        ensures word { OnOk result (Knows (seen self.new) at word) };

    /// Half of the change number, by one load: how many changes the segment took.
    fn number(&mut self) -> Result<u64, Dead>
        requires open { (seen self.old).setting.access ≢ Closed }
        requires idle { (seen self.old).plan ≡ None }
        ensures loads { LoadsOnce seen same_rest self.old self.new result }
        ensures number { IfOk result (KnowsNumber (seen self.new)) };

    /// Begins a change: stores the next change number, which is odd, and the plan is under way.
    fn begin(&mut self, plan: &Plan<'_>) -> Result<(), Dead>
        requires writable { (seen self.old).setting.access ≡ Writable }
        requires idle { (seen self.old).plan ≡ None }
        requires within_limits { IsShort (plan_change plan.now) }
        requires number { HasEvenNumber (seen self.old) }
        requires planned { IsPlanHere (seen self.old) (plan_change plan.now) }
        ensures begins { PerformsOnce seen same_rest Store (λ old now. Begins old now (plan_change plan.now)) self.old self.new result };

    /// Ends the change: stores the next change number, which is even, and answers its half.
    fn finish(&mut self) -> Result<u64, Dead>
        requires writable { (seen self.old).setting.access ≡ Writable }
        requires under_way { IsSome (seen self.old).plan }
        requires done { (change : Change) → (seen self.old).plan ≡ Some change → IsDone (seen self.old) change }
        ensures rest { IfOk result (λ number. (change : Change) → (seen self.old).plan ≡ Some change → rest_with self.old self.new change number) }
        ensures fuse { ReportsDeath (seen self.old).meter (seen self.new).meter result }
        ensures event { MakesEvent Store (seen self.old).meter (seen self.new).meter result }
        ensures finishes { IfOk result (Finishes (seen self.old) (seen self.new)) }
        ensures dead { OnErr result (IsAsBefore (seen self.old) (seen self.new)) }
        ensures dead_rest { OnErr result (same_rest self.old self.new) };

    ghost lock_unnoted: { (m : Self) → IsTrue (seen m).setting.shared → (seen m).noted 0 ≡ None };

    ghost rest_reflexive: { (m : Self) → same_rest m m };

    ghost rest_transitive: { (a b c : Self) → same_rest a b → same_rest b c → same_rest a c };

    ghost rest_then_change: { (a b c : Self) (change : Change) (number : ℕ) → same_rest a b → rest_with b c change number → rest_with a c change number };

    ghost change_then_rest: { (a b c : Self) (change : Change) (number : ℕ) → rest_with a b change number → same_rest b c → rest_with a c change number };
}

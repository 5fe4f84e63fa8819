//! Makers of gates: who gives each caller of a run its fuse, and takes it back.

ghost use Rattle.std.specs.Prelude.{◌-◌, ◌<◌, ◌^◌};
ghost use Rattle.cm_run.specs.Gates.{CountsDeath, MakerSeen, MakesGate};

use cm_command::Kill;
use cm_words::Fuse;

/// A maker of gates, which are the fuses of a run's callers.
///
/// It tells for which caller and kill its gate can die, whether its gates tell the number of their kill, and for each
/// caller how many gates were made, the kill of the last one, and how many came back dead. The counts never fall.
pub trait GateMaker {
    type Gate: Fuse + Send;

    ghost seen: { Self → MakerSeen };

    /// A gate for a caller with this kill, or with none. It is alive, can die only where the maker says so of this caller
    /// and kill, and tells the number of its kill where the maker's gates do.
    fn make(&mut self, caller: u32, kill: Option<Kill>) -> Self::Gate
        requires caller { caller < 64 }
        requires countable { ((seen self.old).of caller).made < 2 ^ 64 - 1 }
        ensures { MakesGate caller kill (seen self.old) (seen self.new) (Self.Gate.fused result) };

    /// Takes a gate of a caller back: the caller's count of deaths rises by one where the gate died, and all else stays.
    fn back(&mut self, caller: u32, gate: Self::Gate)
        requires caller { caller < 64 }
        requires countable { ((seen self.old).of caller).deaths < 2 ^ 64 - 1 }
        ensures { CountsDeath caller (seen self.old) (seen self.new) (Self.Gate.fused gate) };
}

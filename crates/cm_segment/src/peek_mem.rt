//! A memory whose words are found by a peek.

ghost use Rattle.std.specs.Prelude.{◌≡◌};

use cm_plain::Plan;
use cm_words::{Dead, Mem, Peek};

/// A memory over the words that a peek finds beside writers. It is `Readable`, has no plan, and makes one
/// load a call.
///
/// A peek doesn't find the lock word and the change number, on which no state depends: here they are 0.
/// Each word may be of another moment, and where one was found with two values, no list of words fits the
/// notes.
pub(crate) struct PeekMem<'a, P: Peek> {
    peek: &'a mut P,
}

impl<'a, P: Peek> PeekMem<'a, P> {
    /// A memory over what the peek found and finds.
    pub(crate) fn new(peek: &'a mut P) -> PeekMem<'a, P>
        ensures name { result.peek.ghost_name ≡ peek.entry.ghost_name }
        ensures peek { result.peek.now ≡ peek.old }
    {
        PeekMem { peek }
    }
}

// The peek as it was left is the lender's.
impl<'a, P: Peek> Drop for PeekMem<'a, P> {
    fn drop(self)
        ensures { self.exit.0.now ≡ self.entry.peek.now }
    {
        let PeekMem { peek: _ } = self;
    }
}

impl<'a, P: Peek> Mem for PeekMem<'a, P> {
    ghost use Rattle.cm_words.specs.Notes.{not_shared};
    ghost use Rattle.cm_segment.specs.PeekNotes.{SameRest, peek_mem_seen, same_rest_reflexive, same_rest_transitive};
    ghost use Rattle.std.proofs.Common.{refl};

    ghost seen = { λ m. peek_mem_seen P.seen m };

    ghost same_rest = { λ a b. SameRest P.seen P.same_rest a b };

    ghost rest_with = { λ a b change number. SameRest P.seen P.same_rest a b };

    ghost lock_unnoted = { λ m. not_shared (peek_mem_seen P.seen m) refl };

    ghost rest_reflexive = { λ m. same_rest_reflexive P.seen P.same_rest m (P.rest_reflexive m.peek.now) };

    ghost rest_transitive = { λ a b c. same_rest_transitive P.seen P.same_rest a b c (P.rest_transitive a.peek.now b.peek.now c.peek.now) };

    ghost rest_then_change = { λ a b c change number. same_rest_transitive P.seen P.same_rest a b c (P.rest_transitive a.peek.now b.peek.now c.peek.now) };

    ghost change_then_rest = { λ a b c change number. same_rest_transitive P.seen P.same_rest a b c (P.rest_transitive a.peek.now b.peek.now c.peek.now) };

    fn load(&mut self, at: u32) -> Result<u64, Dead> {
        if at < 2 {
            // the event of this call is the load of a word that may be found
            self.peek.load(2)?;
            return Ok(0);
        }
        self.peek.load(at)
    }

    fn number(&mut self) -> Result<u64, Dead> {
        Ok(self.load(1)? / 2)
    }

    // Nobody stores here, since the memory is never `Writable`: these three do nothing.
    fn store(&mut self, _at: u32, _word: u64) -> Result<(), Dead>
        ensures { self.new ≡ self.old }
    {
        Err(Dead)
    }

    fn begin(&mut self, _plan: &Plan<'_>) -> Result<(), Dead>
        ensures { self.new ≡ self.old }
    {
        Err(Dead)
    }

    fn finish(&mut self) -> Result<u64, Dead>
        ensures { self.new ≡ self.old }
    {
        Err(Dead)
    }
}

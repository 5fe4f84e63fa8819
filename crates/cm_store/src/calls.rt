//! The calls of a store: each by one pass, at the seat of its segment. A call answers Busy exactly where all tries of a take
//! or of a raise of it failed, one look each, and the release behind it didn't die, and Died exactly where an event died.

ghost use Rattle.std.specs.Prelude.{◌≡◌, ◌<◌, ◌≤◌, [], OnOk, length};
ghost use Rattle.cm_geo.specs.Hash.{segment_of_key};
ghost use Rattle.cm_plain.specs.declared.op.Op.TheVariants as op;
ghost use Rattle.cm_lock.specs.declared.view.Level.TheVariants.{Free, Read, Write};
ghost use Rattle.cm_turn.specs.Calls.{IsRefused, IsRefusedChange};
ghost use Rattle.cm_store.specs.Passes.{AlsoAt, Called, MayCall, settled_of};
ghost use Rattle.cm_turn.specs.Looks.{MayRaise, TakesOnce};
ghost use Rattle.cm_turn.specs.Rounds.{EndsGet};

use crate::pass::Pass;
use crate::store::Store;
use cm_geo::hash;
use cm_lock::Stop;
use cm_turn::{
    AbsentCall, Count, Done, GetCall, Put, ReadCall, Remove, RemoveIf, Replace, ReplaceIf,
    UpdateCall, WriteCall,
};
use cm_words::Fuse;

impl Store {
    /// The segment of a key.
    fn segment_of(&self, key: &[u8]) -> u32
        ensures value { result ≡ segment_of_key self.now.geo key.now }
        ensures here { result < self.now.geo.segments }
    {
        self.geo.segment_of(hash(key))
    }

    /// Gives a key a value, under Write: New, Replaced, FullChain, FullSpent or Worn.
    pub fn put<F: Fuse>(
        &self,
        pass: &mut Pass<F>,
        key: &[u8],
        value: &[u8],
        tries: u32,
    ) -> Result<Done, Stop>
        requires may { MayCall self.now (op.Put key.now value.now) pass.old }
        requires nonzero { 1 ≤ tries }
        ensures called { Called F.fused self.now (IsRefused Free Write tries) (op.Put key.now value.now) [] pass.old pass.new result }
        ensures looks { AlsoAt (λ was then. OnOk (settled_of result) (TakesOnce tries was then)) (segment_of_key self.now.geo key.now) pass.old pass.new }
    {
        let operation = Put { key, value };
        let call = WriteCall { operation, tries };
        self.perform(pass, self.segment_of(key), &call, &mut [])
    }

    /// Gives a key a value if it has none, under Update, which is raised for the change: New, FullChain, FullSpent or
    /// Worn; or Kept, with its value in `out`.
    pub fn put_if_absent<F: Fuse>(
        &self,
        pass: &mut Pass<F>,
        key: &[u8],
        value: &[u8],
        out: &mut [u8],
        tries: u32,
    ) -> Result<Done, Stop>
        requires may { MayCall self.now (op.PutIfAbsent key.now value.now) pass.old }
        requires room { 4096 ≤ length out.old }
        requires nonzero { 1 ≤ tries }
        ensures called { Called F.fused self.now (IsRefusedChange tries) (op.PutIfAbsent key.now value.now) out.new pass.old pass.new result }
        ensures looks { AlsoAt (λ was then. OnOk (settled_of result) (MayRaise tries tries was then)) (segment_of_key self.now.geo key.now) pass.old pass.new }
        ensures long { length out.new ≡ length out.old }
    {
        let call = AbsentCall { key, value, tries };
        self.perform(pass, self.segment_of(key), &call, out)
    }

    /// Gives a key another value, under Update, which is raised for the change: Missing, Replaced, FullChain,
    /// FullSpent or Worn.
    pub fn replace<F: Fuse>(
        &self,
        pass: &mut Pass<F>,
        key: &[u8],
        value: &[u8],
        tries: u32,
    ) -> Result<Done, Stop>
        requires may { MayCall self.now (op.Replace key.now value.now) pass.old }
        requires nonzero { 1 ≤ tries }
        ensures called { Called F.fused self.now (IsRefusedChange tries) (op.Replace key.now value.now) [] pass.old pass.new result }
        ensures looks { AlsoAt (λ was then. OnOk (settled_of result) (MayRaise tries tries was then)) (segment_of_key self.now.geo key.now) pass.old pass.new }
    {
        let operation = Replace { key, value };
        let call = UpdateCall { operation, tries };
        self.perform(pass, self.segment_of(key), &call, &mut [])
    }

    /// Gives a key another value if it has the expected one, under Update, which is raised for the change: Missing,
    /// Differs, Replaced, FullChain, FullSpent or Worn.
    pub fn replace_if<F: Fuse>(
        &self,
        pass: &mut Pass<F>,
        key: &[u8],
        expected: &[u8],
        value: &[u8],
        tries: u32,
    ) -> Result<Done, Stop>
        requires may { MayCall self.now (op.ReplaceIf key.now expected.now value.now) pass.old }
        requires nonzero { 1 ≤ tries }
        ensures called { Called F.fused self.now (IsRefusedChange tries) (op.ReplaceIf key.now expected.now value.now) [] pass.old pass.new result }
        ensures looks { AlsoAt (λ was then. OnOk (settled_of result) (MayRaise tries tries was then)) (segment_of_key self.now.geo key.now) pass.old pass.new }
    {
        let operation = ReplaceIf {
            key,
            expected,
            value,
        };
        let call = UpdateCall { operation, tries };
        self.perform(pass, self.segment_of(key), &call, &mut [])
    }

    /// Takes a key's entry away, under Write: Removed, Missing or Worn.
    pub fn remove<F: Fuse>(&self, pass: &mut Pass<F>, key: &[u8], tries: u32) -> Result<Done, Stop>
        requires may { MayCall self.now (op.Remove key.now) pass.old }
        requires nonzero { 1 ≤ tries }
        ensures called { Called F.fused self.now (IsRefused Free Write tries) (op.Remove key.now) [] pass.old pass.new result }
        ensures looks { AlsoAt (λ was then. OnOk (settled_of result) (TakesOnce tries was then)) (segment_of_key self.now.geo key.now) pass.old pass.new }
    {
        let operation = Remove { key };
        let call = WriteCall { operation, tries };
        self.perform(pass, self.segment_of(key), &call, &mut [])
    }

    /// Takes a key's entry away if it has the expected value, under Update, which is raised for the change: Missing,
    /// Differs, Removed or Worn.
    pub fn remove_if<F: Fuse>(
        &self,
        pass: &mut Pass<F>,
        key: &[u8],
        expected: &[u8],
        tries: u32,
    ) -> Result<Done, Stop>
        requires may { MayCall self.now (op.RemoveIf key.now expected.now) pass.old }
        requires nonzero { 1 ≤ tries }
        ensures called { Called F.fused self.now (IsRefusedChange tries) (op.RemoveIf key.now expected.now) [] pass.old pass.new result }
        ensures looks { AlsoAt (λ was then. OnOk (settled_of result) (MayRaise tries tries was then)) (segment_of_key self.now.geo key.now) pass.old pass.new }
    {
        let operation = RemoveIf { key, expected };
        let call = UpdateCall { operation, tries };
        self.perform(pass, self.segment_of(key), &call, &mut [])
    }

    /// The number of a segment's entries, under Read.
    pub fn count<F: Fuse>(&self, pass: &mut Pass<F>, segment: u32, tries: u32) -> Result<Done, Stop>
        requires may { MayCall self.now (op.Count segment) pass.old }
        requires nonzero { 1 ≤ tries }
        ensures called { Called F.fused self.now (IsRefused Free Read tries) (op.Count segment) [] pass.old pass.new result }
        ensures looks { AlsoAt (λ was then. OnOk (settled_of result) (TakesOnce tries was then)) segment pass.old pass.new }
    {
        let question = Count { segment };
        let call = ReadCall { question, tries };
        self.perform(pass, segment, &call, &mut [])
    }

    /// A key's value, which comes to `out`: Value or Missing. At most three rounds of loads are made beside the
    /// writers, without a level; Read is taken only where all three failed. Busy comes exactly where that take was.
    pub fn get_into<F: Fuse>(
        &self,
        pass: &mut Pass<F>,
        key: &[u8],
        out: &mut [u8],
        tries: u32,
    ) -> Result<Done, Stop>
        requires may { MayCall self.now (op.Get key.now) pass.old }
        requires room { 4096 ≤ length out.old }
        requires nonzero { 1 ≤ tries }
        ensures called { Called F.fused self.now (IsRefused Free Read tries) (op.Get key.now) out.new pass.old pass.new result }
        ensures looks { AlsoAt (λ was then. EndsGet tries was then (settled_of result)) (segment_of_key self.now.geo key.now) pass.old pass.new }
        ensures long { length out.new ≡ length out.old }
    {
        let call = GetCall { key, tries };
        self.perform(pass, self.segment_of(key), &call, out)
    }
}

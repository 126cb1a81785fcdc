use dep_index::{GetError, PutError};
use root_row::{LeafCall, Row};
use std::alloc::Global;
use std::marker::Model;
use std::sync::{Arc, Wait};
use use_indicator::Leaf;

/// A worker's leaf with its row. What a lock gives out is known by its type alone, so the type says that the
/// leaf is of this row. Contracts see the leaf.
#[derive(Drop)]
#[repr(C)]
pub struct OwnLeaf {
    leaf: Leaf,
    row: Arc<Row, Global>,
    /// Two cache lines, so that another leaf's counts, which may lie after it, share none with it.
    room: [u64; 16],
}

impl Model for OwnLeaf {
    ghost use Rattle.std.specs.Arc.{arc_value};
    ghost use Rattle.root_row.specs.Seats.{Seated, IsOf};

    ghost Value = { Seated };

    ghost view = { λ l. l.leaf };

    ghost invariant = { λ l. IsOf (arc_value l.row) l.leaf };
}

impl OwnLeaf {
    ghost use Rattle.std.specs.Prelude.{◌≡◌, ◌<◌, ◌≤◌, ◌↔◌, IfSome, IfNone, IsNone, MatchOption};
    ghost use Rattle.std.specs.Arc.{arc_value};
    ghost use Rattle.dep_index.specs.Refusals.{reply_of, get_refusal, put_refusal};
    ghost use Rattle.root_row.specs.World.{slots};
    ghost use Rattle.root_row.specs.Seats.{IsOf, KnowsTable};
    ghost use Rattle.root_row.specs.Views.{count_of};
    ghost use Rattle.root_row.specs.Steps.{LeafAnswered};
    ghost use Rattle.root_row.specs.StepsMade.{SameView};
    ghost use Rattle.use_indicator.specs.Counted.{GetSteps, TrySteps, GivenUp, PutSteps};

    pub fn new(leaf: Leaf, row: Arc<Row, Global>) -> OwnLeaf
        requires { IsOf (arc_value row) leaf }
        ensures { result ≡ leaf }
    {
        OwnLeaf {
            leaf,
            row,
            room: [0; 16],
        }
    }

    /// What the leaf has seen is a legal history, so removals are safe in it, and its counts are the table's after it. A
    /// guard's holder knows it before the first call.
    pub fn laws(&self)
        ensures { KnowsTable self.now.view }
    {
        self.leaf.laws()
    }

    /// How many modules the catalogue has.
    pub fn slots(&self) -> usize
        ensures { result ≡ slots self.now.view.world }
    {
        self.row.slots()
    }

    /// How often the worker holds the module. It is None if the slot is out of range, as for each call.
    pub fn held(&self, slot: usize) -> Option<u32>
        ensures range { IsNone result ↔ (slots self.now.view.world ≤ slot) }
        ensures count { IfSome result (λ count. count ≡ count_of self.now.view slot) }
    {
        if slot >= self.row.slots() {
            return None;
        }
        Some(self.leaf.held(slot))
    }

    /// Takes one reference. It may try again for ever while other workers change the word.
    pub fn get<R: Wait>(&mut self, rt: &R, slot: usize) -> Option<Result<(), GetError>>
        ensures range { MatchOption result ((slots self.old.view.world ≤ slot) × (self.new ≡ self.old)) (λ _. slot < slots self.old.view.world) }
        ensures call { MatchOption result (self.new ≡ self.old) (λ r. LeafAnswered self.old.view slot LeafCall.Get (reply_of get_refusal r) self.new.view) }
        ensures steps { IfSome result (λ r. GetSteps slot (count_of self.old.view slot) (reply_of get_refusal r) self.old self.new) }
        ensures row { self.new.row ≡ self.old.row }
    {
        if slot >= self.row.slots() {
            return None;
        }
        Some(self.leaf.get(rt, &self.row, slot))
    }

    /// As `get`, but it tries at most this many times. The inner None: the worker holds no reference to the module, each try
    /// was missed, and no word and no count is changed.
    pub fn try_get(&mut self, slot: usize, tries: u32) -> Option<Option<Result<(), GetError>>>
        ensures range { MatchOption result ((slots self.old.view.world ≤ slot) × (self.new ≡ self.old)) (λ _. slot < slots self.old.view.world) }
        ensures call { IfSome result (λ o. IfSome o (λ r. LeafAnswered self.old.view slot LeafCall.Get (reply_of get_refusal r) self.new.view)) }
        ensures missed { IfSome result (λ o. IfNone o (SameView self.old self.new × GivenUp tries slot self.old self.new)) }
        ensures held { IfSome result (λ o. IfNone o (count_of self.old.view slot ≡ 0)) }
        ensures steps { IfSome result (λ o. IfSome o (λ r. TrySteps tries slot (count_of self.old.view slot) (reply_of get_refusal r) self.old self.new)) }
        ensures row { self.new.row ≡ self.old.row }
    {
        if slot >= self.row.slots() {
            return None;
        }
        Some(self.leaf.try_get(&self.row, slot, tries))
    }

    /// Gives one reference back.
    pub fn put(&mut self, slot: usize) -> Option<Result<(), PutError>>
        ensures range { MatchOption result ((slots self.old.view.world ≤ slot) × (self.new ≡ self.old)) (λ _. slot < slots self.old.view.world) }
        ensures call { MatchOption result (self.new ≡ self.old) (λ r. LeafAnswered self.old.view slot LeafCall.Put (reply_of put_refusal r) self.new.view) }
        ensures steps { IfSome result (λ _. PutSteps slot (count_of self.old.view slot) self.old self.new) }
        ensures row { self.new.row ≡ self.old.row }
    {
        if slot >= self.row.slots() {
            return None;
        }
        Some(self.leaf.put(&self.row, slot))
    }
}

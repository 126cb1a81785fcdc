//! How a leaf takes its first reference to a slot: a look and an exchange, and again after a short, growing pause.
//! If it guesses that nobody holds the slot, an exchange without a look comes first.
use crate::leaf::Leaf;
use dep_index::GetError;
use dep_index::words::CLOSED;
use root_row::{LeafCall, Row};
use std::hint::spin_loop;
use std::sync::Wait;

/// How many turns a get waits before its second look at a word, and at most: each miss doubles it. In so much time the
/// worker that has the word's cache line makes dozens of pairs of calls, and does not lose it at each of them.
const SHORTEST_PAUSE: u32 = 32;

const LONGEST_PAUSE: u32 = 1024;

fn pause(turns: u32) {
    for _ in 0..turns {
        spin_loop();
    }
}

fn longer(turns: u32) -> u32 {
    turns
        .saturating_mul(2)
        .max(SHORTEST_PAUSE)
        .min(LONGEST_PAUSE)
}

impl Leaf {
    ghost use Rattle.std.specs.Prelude.{◌≡◌, ◌<◌, ℕ, List, [], IfSome, IfNone};
    ghost use Rattle.dep_index.specs.Refusals.{reply_of, get_refusal};
    ghost use Rattle.root_row.specs.World.{slots};
    ghost use Rattle.root_row.specs.Seats.{IsOf};
    ghost use Rattle.root_row.specs.Views.{count_of};
    ghost use Rattle.root_row.specs.Steps.{LeafAnswered};
    ghost use Rattle.root_row.specs.StepsMade.{SameView};
    ghost use Rattle.use_indicator.specs.Counted.{FirstSteps, TrySteps, GivenUp, UnusedSteps, UnusedGivenUp};

    // The worker does not hold the slot yet: one look and one exchange. None: the exchange was missed.
    fn attempt(&mut self, row: &Row, slot: usize) -> Option<Result<(), GetError>>
        requires own { IsOf row.now self.old }
        requires inside { slot < slots row.now.world }
        requires none_held { count_of self.old.view slot ≡ 0 }
        ensures own { IsOf row.now self.new }
        ensures call { IfSome result (λ r. LeafAnswered self.old.view slot LeafCall.Get (reply_of get_refusal r) self.new.view) }
        ensures missed { IfNone result (SameView self.old self.new × GivenUp 1 slot self.old self.new) }
        ensures steps { IfSome result (λ r. FirstSteps slot [] (reply_of get_refusal r) self.old self.new) }
    {
        let word = row.look(&mut self.seat, slot, LeafCall::Get);
        **self.found_unused = word == 0;
        if word >= CLOSED {
            return Some(Err(GetError::NotLive));
        }
        if !row.try_arrive(&mut self.seat, slot, word) {
            return None;
        }
        self.counts[slot] = 1;
        Some(Ok(()))
    }

    // The worker does not hold the slot yet. The first try is apart from the others, which are rare.
    #[inline]
    pub(crate) fn first<R: Wait>(&mut self, rt: &R, row: &Row, slot: usize) -> Result<(), GetError>
        requires own { IsOf row.now self.old }
        requires inside { slot < slots row.now.world }
        requires none_held { count_of self.old.view slot ≡ 0 }
        ensures own { IsOf row.now self.new }
        ensures call { LeafAnswered self.old.view slot LeafCall.Get (reply_of get_refusal result) self.new.view }
        ensures steps { (found : List ℕ) × FirstSteps slot found (reply_of get_refusal result) self.old self.new }
    {
        match self.attempt(row, slot) {
            Some(answer) => answer,
            None => self.again(rt, row, slot),
        }
    }

    // A try was missed: others follow, until one is not.
    #[cold]
    #[inline(never)]
    fn again<R: Wait>(&mut self, rt: &R, row: &Row, slot: usize) -> Result<(), GetError>
        requires own { IsOf row.now self.old }
        requires inside { slot < slots row.now.world }
        requires none_held { count_of self.old.view slot ≡ 0 }
        ensures own { IsOf row.now self.new }
        ensures call { LeafAnswered self.old.view slot LeafCall.Get (reply_of get_refusal result) self.new.view }
        ensures steps { (found : List ℕ) × FirstSteps slot found (reply_of get_refusal result) self.old self.new }
    {
        let mut turns = SHORTEST_PAUSE;
        for _ in rt.forever() {
            pause(turns);
            if let Some(answer) = self.attempt(row, slot) {
                return answer;
            }
            turns = longer(turns);
        }
        unreachable!()
    }

    // As `first`: the first try is apart from the others.
    #[inline]
    pub(crate) fn try_first(
        &mut self,
        row: &Row,
        slot: usize,
        tries: u32,
    ) -> Option<Result<(), GetError>>
        requires own { IsOf row.now self.old }
        requires inside { slot < slots row.now.world }
        requires none_held { count_of self.old.view slot ≡ 0 }
        ensures own { IsOf row.now self.new }
        ensures call { IfSome result (λ r. LeafAnswered self.old.view slot LeafCall.Get (reply_of get_refusal r) self.new.view) }
        ensures missed { IfNone result (SameView self.old self.new × GivenUp tries slot self.old self.new) }
        ensures steps { IfSome result (λ r. TrySteps tries slot 0 (reply_of get_refusal r) self.old self.new) }
    {
        if tries == 0 {
            return None;
        }
        match self.attempt(row, slot) {
            Some(answer) => Some(answer),
            None => self.try_again(row, slot, tries - 1),
        }
    }

    // A guess that nobody holds the slot, if it is likely, and if it is wrong, tries.
    #[inline]
    pub(crate) fn guess_first(
        &mut self,
        row: &Row,
        slot: usize,
        tries: u32,
    ) -> Option<Result<(), GetError>>
        requires own { IsOf row.now self.old }
        requires inside { slot < slots row.now.world }
        requires none_held { count_of self.old.view slot ≡ 0 }
        ensures own { IsOf row.now self.new }
        ensures call { IfSome result (λ r. LeafAnswered self.old.view slot LeafCall.Get (reply_of get_refusal r) self.new.view) }
        ensures missed { IfNone result (SameView self.old self.new × UnusedGivenUp tries slot self.old self.new) }
        ensures steps { IfSome result (λ r. UnusedSteps tries slot 0 (reply_of get_refusal r) self.old self.new) }
    {
        if !**self.found_unused {
            return self.try_first(row, slot, tries);
        }
        if row.try_arrive(&mut self.seat, slot, 0) {
            self.counts[slot] = 1;
            return Some(Ok(()));
        }
        self.try_first(row, slot, tries)
    }

    // A try was missed: so many others may follow.
    #[cold]
    #[inline(never)]
    fn try_again(&mut self, row: &Row, slot: usize, tries: u32) -> Option<Result<(), GetError>>
        requires own { IsOf row.now self.old }
        requires inside { slot < slots row.now.world }
        requires none_held { count_of self.old.view slot ≡ 0 }
        ensures own { IsOf row.now self.new }
        ensures call { IfSome result (λ r. LeafAnswered self.old.view slot LeafCall.Get (reply_of get_refusal r) self.new.view) }
        ensures missed { IfNone result (SameView self.old self.new × GivenUp tries slot self.old self.new) }
        ensures steps { IfSome result (λ r. TrySteps tries slot 0 (reply_of get_refusal r) self.old self.new) }
    {
        let mut turns = SHORTEST_PAUSE;
        for _tried in 0..tries {
            pause(turns);
            if let Some(answer) = self.attempt(row, slot) {
                return Some(answer);
            }
            turns = longer(turns);
        }
        None
    }
}

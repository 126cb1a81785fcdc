//! A get of several slots for one worker: all or none.
ghost use Rattle.std.specs.Prelude.{◌≡◌, ℕ, ◌<◌, ◌≤◌, List, [], ◌∷◌, length, IfOk, IfErr, IfNone, MatchBool};
ghost use Rattle.root_row.specs.World.{slots};
ghost use Rattle.root_row.specs.Views.{worker_of, count_of, counts_of};
ghost use Rattle.use_indicator.specs.Counted.{GivenUp};
ghost use Rattle.managed_table.specs.Kept.{leaf_fits};
ghost use Rattle.managed_table.specs.Turns.{since};
ghost use Rattle.managed_table.specs.Holdings.{MadeInOrder};
ghost use Rattle.managed_table.specs.AllOrNone.{get_done, refused_get, back_puts, tried_in_order, one_more, with_gets, row_left};
ghost use Rattle.managed_table.specs.AllOrNone.{AreBelow, IsOneBeyond, MadeSteps, WasGivenUp};

use dep_index::GetError;
use root_row::Row;
use use_indicator::Leaf;

/// Why not all of several slots were taken: the place of one among them, and its refusal. None: each try of the module's word
/// was missed.
#[derive(Drop)]
pub struct NotTaken {
    pub place: usize,
    pub refusal: Option<GetError>,
}

// Whether the row has each of these slots.
pub(crate) fn has_slots(row: &Row, wanted: &[usize]) -> bool
    ensures { MatchBool result (AreBelow (slots row.now.world) wanted.now) (IsOneBeyond (slots row.now.world) wanted.now) }
{
    for place in 0..wanted.len() {
        if wanted[place] >= row.slots() {
            return false;
        }
    }
    true
}

// The leaf takes one reference, or says why not.
#[tactic(auto, using(crate::proofs::Taking::get_fits, crate::proofs::Taking::get_made, crate::proofs::Taking::got_counts, crate::proofs::Taking::kept_counts, crate::proofs::Taking::missed_fits, crate::proofs::Taking::missed_made, crate::proofs::Taking::got_steps, crate::proofs::Taking::gave_up_steps))]
fn take_one(row: &Row, leaf: &mut Leaf, slot: usize, tries: u32) -> Result<(), Option<GetError>>
    requires fits { leaf_fits row.now (worker_of leaf.old.view) leaf.old }
    requires inside { slot < slots row.now.world }
    ensures fits { leaf_fits row.now (worker_of leaf.old.view) leaf.new }
    ensures made { IfOk result (λ _. MadeInOrder (get_done (worker_of leaf.old.view) slot ∷ []) leaf.old leaf.new) }
    ensures counts { IfOk result (λ _. counts_of leaf.new.view ≡ one_more (counts_of leaf.old.view) slot) }
    ensures refused { IfErr result (λ why. MadeInOrder (refused_get (worker_of leaf.old.view) slot why) leaf.old leaf.new) }
    ensures same { IfErr result (λ why. counts_of leaf.new.view ≡ counts_of leaf.old.view) }
    ensures held { IfErr result (λ why. IfNone why (count_of leaf.old.view slot ≡ 0)) }
    ensures given_up { IfErr result (λ why. IfNone why (GivenUp tries slot leaf.old leaf.new)) }
    ensures steps { MadeSteps leaf.old leaf.new }
{
    match leaf.try_get(row, slot, tries) {
        Some(Ok(())) => Ok(()),
        Some(Err(refusal)) => Err(Some(refusal)),
        None => Err(None),
    }
}

// The leaf gives back what it took for the first so many of these slots, the last first.
fn give_back(row: &Row, leaf: &mut Leaf, wanted: &[usize], count: usize)
    requires fits { leaf_fits row.now (worker_of leaf.old.view) leaf.old }
    requires inside { AreBelow (slots row.now.world) wanted.now }
    requires count { count ≤ length wanted.now }
    requires took { (counts : List ℕ) × (length counts ≡ slots row.now.world) × (counts_of leaf.old.view ≡ with_gets counts wanted.now count) }
    ensures fits { leaf_fits row.now (worker_of leaf.old.view) leaf.new }
    ensures made { MadeInOrder (back_puts (worker_of leaf.old.view) wanted.now count) leaf.old leaf.new }
    ensures back { (counts : List ℕ) → length counts ≡ slots row.now.world → counts_of leaf.old.view ≡ with_gets counts wanted.now count → counts_of leaf.new.view ≡ counts }
    ensures steps { MadeSteps leaf.old leaf.new }
{
    for back in 0..count {
        let _ = leaf.put(row, wanted[count - 1 - back]);
    }
}

// The leaf takes one reference to each of these slots, or gives back those that it took.
pub(crate) fn take_all(
    row: &Row,
    leaf: &mut Leaf,
    wanted: &[usize],
    tries: u32,
) -> Result<(), NotTaken>
    requires fits { leaf_fits row.now (worker_of leaf.old.view) leaf.old }
    requires inside { AreBelow (slots row.now.world) wanted.now }
    ensures fits { leaf_fits row.now (worker_of leaf.old.view) leaf.new }
    ensures made { MadeInOrder (tried_in_order (worker_of leaf.old.view) wanted.now result) leaf.old leaf.new }
    ensures left { counts_of leaf.new.view ≡ row_left (counts_of leaf.old.view) wanted.now result }
    ensures place { IfErr result (λ failed. failed.place < length wanted.now) }
    ensures given_up { IfErr result (WasGivenUp tries (counts_of leaf.old.view) wanted.now (since leaf.old.steps leaf.new)) }
{
    leaf.laws();
    for place in 0..wanted.len() {
        if let Err(refusal) = take_one(row, leaf, wanted[place], tries) {
            give_back(row, leaf, wanted, place);
            return Err(NotTaken { place, refusal });
        }
    }
    Ok(())
}

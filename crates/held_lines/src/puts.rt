//! The references that a holder gives back to some modules: all of them, or none.
ghost use Rattle.std.specs.Prelude.{◌≡◌, ◌<◌, length, All, IfSome, IfNone, None};
ghost use Rattle.dep_index.specs.Table.{Table as OneThread};
ghost use Rattle.dep_index.specs.Laws.{IsShaped};
ghost use Rattle.dep_index.specs.Catalogue.{modules_of};
ghost use Rattle.modprobe.specs.declared.refusal.Code.TheVariants.{NotHeld};
ghost use Rattle.modprobe.specs.Setup.{name_at};
ghost use Rattle.modprobe.specs.Refusals.{refuse};
ghost use Rattle.held_lines.specs.Held.{given_back};
ghost use Rattle.held_lines.specs.Holds.{first_not_held, each_given_back};

use modprobe::Setup;
use seq_table::Modules;

/// The first of these modules that the holder does not hold.
#[tactic(auto, using(crate::proofs::SlotLemmas::modules_of_length))]
pub(crate) fn first_not_held<M: Modules>(
    setup: &Setup,
    table: &M,
    number: usize,
    slots: &[usize],
) -> Option<usize>
    requires over { M.catalogue table.now ≡ modules_of setup.now.catalogue }
    requires number { number < length (M.table table.now).rows }
    requires slots { All (λ slot. slot < length setup.now.catalogue) slots.now }
    ensures some { IfSome result (λ slot. first_not_held setup.now number (M.table table.now) slots.now ≡ refuse NotHeld (name_at setup.now slot)) }
    ensures within { IfSome result (λ slot. slot < length setup.now.catalogue) }
    ensures none { IfNone result (first_not_held setup.now number (M.table table.now) slots.now ≡ None) }
{
    for slot in slots {
        if table.held(number, *slot) == 0 {
            return Some(*slot);
        }
    }
    None
}

/// A holder gives back all references to a module.
fn give_back<M: Modules>(table: &mut M, number: usize, slot: usize)
    requires number { number < length (M.table table.old).rows }
    requires slot { slot < length (M.catalogue table.old) }
    ensures table { M.table table.new ≡ given_back number slot (M.table table.old) }
    ensures named { M.names table.new ≡ M.names table.old }
    ensures over { M.catalogue table.new ≡ M.catalogue table.old }
{
    table.laws();
    while table.held(number, slot) > 0 {
        let _ = table.put(number, slot);
    }
}

/// A holder gives back all references to each of these modules.
pub(crate) fn give_back_each<M: Modules>(table: &mut M, number: usize, slots: &[usize])
    requires number { number < length (M.table table.old).rows }
    requires slots { All (λ slot. slot < length (M.catalogue table.old)) slots.now }
    ensures table { M.table table.new ≡ each_given_back number slots.now (M.table table.old) }
    ensures named { M.names table.new ≡ M.names table.old }
    ensures over { M.catalogue table.new ≡ M.catalogue table.old }
{
    for slot in slots {
        give_back(table, number, *slot);
    }
}

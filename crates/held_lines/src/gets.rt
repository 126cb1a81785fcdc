//! The references that a holder takes to some modules: all of them, or none.
ghost use Rattle.std.specs.Prelude.{◌≡◌, ◌<◌, None, unwrap_or, length, All, IfOk, IfErr, OnOk, OnErr};
ghost use Rattle.std.specs.Option.{ForSome};
ghost use Rattle.dep_index.specs.Table.{Table as OneThread, count_of};
ghost use Rattle.dep_index.specs.Laws.{IsShaped};
ghost use Rattle.dep_index.specs.Catalogue.{modules_of};
ghost use Rattle.dep_index.specs.declared.table.calls.Call.TheVariants as calls;
ghost use Rattle.modprobe.specs.Refusals.{code_of};
ghost use Rattle.modprobe.specs.Changes.{call_change};
ghost use Rattle.held_lines.specs.Holds.{to_take, gets};
ghost use Rattle.held_lines.specs.ForProofs.{Tells};

use dep_index::GetError;
use modprobe::{Code, Setup};
use seq_table::Modules;
use std::alloc::{AllocError, Global};

/// Why a holder takes no reference.
#[derive(Clone, Copy, Drop)]
pub(crate) enum TakeError {
    /// The get of the module of this slot is refused.
    Refused(Code, usize),
    /// The holder is new, and 65,536 are there.
    Full,
    Memory,
}

/// How often a holder holds a module; one that is not there holds nothing.
fn count<M: Modules>(table: &M, number: Option<usize>, slot: usize) -> u32
    requires number { ForSome number (λ n. n < length (M.table table.now).rows) }
    requires slot { slot < length (M.catalogue table.now) }
    ensures { result ≡ count_of (M.table table.now) (unwrap_or number (length (M.table table.now).rows)) slot }
{
    match number {
        Some(number) => table.held(number, slot),
        None => 0,
    }
}

/// The modules of these that a holder does not hold, or all if it takes them again.
pub(crate) fn to_take<M: Modules>(
    alloc: Global,
    table: &M,
    again: bool,
    number: Option<usize>,
    slots: &[usize],
) -> Result<Vec<usize>, AllocError>
    requires number { ForSome number (λ n. n < length (M.table table.now).rows) }
    requires slots { All (λ slot. slot < length (M.catalogue table.now)) slots.now }
    ensures taken { IfOk result (λ taken. taken.items ≡ to_take again (unwrap_or number (length (M.table table.now).rows)) (M.table table.now) slots.now) }
    ensures within { IfOk result (λ taken. All (λ slot. slot < length (M.catalogue table.now)) taken.items) }
{
    let mut taken = Vec::new(alloc);
    for slot in slots {
        if again || count(table, number, *slot) == 0 {
            taken.push(*slot)?;
        }
    }
    Ok(taken)
}

/// A holder takes a reference.
#[tactic(auto, using(crate::proofs::SlotLemmas::modules_of_length))]
pub(crate) fn take<M: Modules>(
    setup: &Setup,
    table: &mut M,
    number: usize,
    slot: usize,
) -> Result<(), TakeError>
    requires over { M.catalogue table.old ≡ modules_of setup.now.catalogue }
    requires number { number < length (M.table table.old).rows }
    requires slot { slot < length setup.now.catalogue }
    ensures ok { OnOk result (call_change setup.now code_of slot (calls.Get number slot) (M.table table.old) ≡ (None, M.table table.new)) }
    ensures refused { IfErr result (λ e. Tells setup.now e (call_change setup.now code_of slot (calls.Get number slot) (M.table table.old)).0) }
    ensures unchanged { OnErr result (M.table table.new ≡ M.table table.old) }
    ensures named { M.names table.new ≡ M.names table.old }
    ensures over { M.catalogue table.new ≡ M.catalogue table.old }
{
    if table.make_room(number).is_err() {
        return Err(TakeError::Memory);
    }
    match table.get(number, slot) {
        Ok(()) => Ok(()),
        Err(GetError::NotLive) => Err(TakeError::Refused(Code::NotLive, slot)),
        Err(GetError::TooMany) => Err(TakeError::Refused(Code::TooMany, slot)),
    }
}

/// A holder puts back the references that it took to these modules, the last one first.
#[tactic(auto, using(crate::proofs::SlotLemmas::modules_of_length))]
fn put_back<M: Modules>(setup: &Setup, table: &mut M, number: usize, slots: &[usize])
    requires over { M.catalogue table.old ≡ modules_of setup.now.catalogue }
    requires number { number < length (M.table table.old).rows }
    requires slots { All (λ slot. slot < length setup.now.catalogue) slots.now }
    ensures undone { (t : OneThread) → IsShaped (length (M.catalogue table.old)) (length (M.table table.old).rows) t
        → gets setup.now number slots.now t ≡ (None, M.table table.old) → M.table table.new ≡ t }
    ensures named { M.names table.new ≡ M.names table.old }
    ensures over { M.catalogue table.new ≡ M.catalogue table.old }
{
    let mut left = slots;
    while let Some((slot, earlier)) = left.split_last() {
        let _ = table.put(number, *slot);
        left = earlier;
    }
}

/// A holder takes a reference to each of these modules, in order. If one is refused, or memory runs out, it takes none.
#[tactic(auto, using(crate::proofs::SlotLemmas::modules_of_length))]
pub(crate) fn take_each<M: Modules>(
    setup: &Setup,
    table: &mut M,
    number: usize,
    slots: &[usize],
) -> Result<(), TakeError>
    requires over { M.catalogue table.old ≡ modules_of setup.now.catalogue }
    requires number { number < length (M.table table.old).rows }
    requires slots { All (λ slot. slot < length setup.now.catalogue) slots.now }
    ensures ok { OnOk result (gets setup.now number slots.now (M.table table.old) ≡ (None, M.table table.new)) }
    ensures refused { IfErr result (λ e. Tells setup.now e (gets setup.now number slots.now (M.table table.old)).0) }
    ensures unchanged { OnErr result (M.table table.new ≡ M.table table.old) }
    ensures named { M.names table.new ≡ M.names table.old }
    ensures over { M.catalogue table.new ≡ M.catalogue table.old }
{
    table.laws();
    for (i, slot) in slots.iter().enumerate() {
        if let Err(error) = take(setup, table, number, *slot) {
            put_back(setup, table, number, &slots[..i]);
            return Err(error);
        }
    }
    Ok(())
}

//! `put` and `release`: a holder gives references back.
ghost use Rattle.std.specs.Prelude.{◌≡◌, ◌<◌, Some, length, All, IfOk, OnErr};
ghost use Rattle.text_parts.specs.Text.{texts_of};
ghost use Rattle.dep_index.specs.Catalogue.{modules_of};
ghost use Rattle.held_lines.specs.declared.asked.Reference.TheVariants as references;
ghost use Rattle.held_table.specs.Names.{name_bytes, place_of};
ghost use Rattle.held_lines.specs.Found.{found_for};
ghost use Rattle.held_lines.specs.Outcomes.{by_found, refer_at, release_by, release_all_by};
ghost use Rattle.held_lines.specs.ForProofs.{Answers};

use crate::found::{FoundError, found_for};
use crate::puts::{first_not_held, give_back_each};
use crate::reply::{HeldReply, done, first_name, refuse};
use dep_index::PutError;
use held_table::{HeldTable, HolderName, MOST_HOLDERS};
use modprobe::{Code, Setup};
use seq_table::Modules;
use std::alloc::{AllocError, Global};

/// `put HOLDER NAME`: a holder puts a reference to the module of a slot back. One that holds nothing then goes.
#[tactic(auto, using(crate::proofs::SlotLemmas::modules_of_length))]
pub(crate) fn put(
    alloc: Global,
    setup: &Setup,
    holders: &mut HeldTable,
    holder: &HolderName,
    slot: usize,
) -> Result<HeldReply, AllocError>
    requires over { holders.old.catalogue ≡ modules_of setup.now.catalogue }
    requires slot { slot < length setup.now.catalogue }
    ensures answers { IfOk result (λ r. Answers r holders.old.held holders.new.held
        (refer_at setup.now holders.old.held references.Put (name_bytes holder.now) slot)) }
    ensures unchanged { OnErr result (holders.new.held ≡ holders.old.held) }
    ensures over { holders.new.catalogue ≡ holders.old.catalogue }
{
    holders.holder_laws();
    let name = setup.catalogue().name(slot);
    let Some(number) = holders.number(holder) else {
        let is_full = holders.workers() >= MOST_HOLDERS;
        let code = if is_full { Code::Worker } else { Code::NotHeld };
        return refuse(alloc, code, name);
    };
    let reply = done(alloc)?;
    match holders.put(number, slot) {
        Ok(()) => {
            holders.settle(number);
            Ok(HeldReply {
                reply,
                changed: true,
            })
        }
        Err(PutError::NotHeld) => refuse(alloc, Code::NotHeld, name),
    }
}

/// A holder gives back all references to these modules, or to none.
#[tactic(auto, using(crate::proofs::SlotLemmas::modules_of_length))]
fn release_each(
    alloc: Global,
    setup: &Setup,
    holders: &mut HeldTable,
    holder: &HolderName,
    slots: &[usize],
) -> Result<HeldReply, AllocError>
    requires over { holders.old.catalogue ≡ modules_of setup.now.catalogue }
    requires slots { All (λ slot. slot < length setup.now.catalogue) slots.now }
    ensures answers { IfOk result (λ r. Answers r holders.old.held holders.new.held
        (release_by setup.now holders.old.held slots.now (place_of holders.old.held.names (name_bytes holder.now)))) }
    ensures unchanged { OnErr result (holders.new.held ≡ holders.old.held) }
    ensures over { holders.new.catalogue ≡ holders.old.catalogue }
{
    holders.holder_laws();
    let Some(number) = holders.number(holder) else {
        return refuse(alloc, Code::NotHeld, first_name(setup, slots));
    };
    if let Some(slot) = first_not_held(setup, holders, number, slots) {
        return refuse(alloc, Code::NotHeld, setup.catalogue().name(slot));
    }
    let reply = done(alloc)?;
    give_back_each(holders, number, slots);
    holders.settle(number);
    Ok(HeldReply {
        reply,
        changed: true,
    })
}

/// `release HOLDER NAME..`: the modules are those that are found for the words.
pub(crate) fn release(
    alloc: Global,
    setup: &Setup,
    holders: &mut HeldTable,
    holder: &HolderName,
    words: &[&[u8]],
) -> Result<HeldReply, AllocError>
    requires over { holders.old.catalogue ≡ modules_of setup.now.catalogue }
    ensures answers { IfOk result (λ r. Answers r holders.old.held holders.new.held
        (by_found holders.old.held (λ slots. release_by setup.now holders.old.held slots (place_of holders.old.held.names (name_bytes holder.now))) (found_for setup.now (texts_of words.now)))) }
    ensures unchanged { OnErr result (holders.new.held ≡ holders.old.held) }
    ensures over { holders.new.catalogue ≡ holders.old.catalogue }
{
    match found_for(alloc, setup, words) {
        Ok(slots) => release_each(alloc, setup, holders, holder, &slots),
        Err(FoundError::Unknown(name)) => refuse(alloc, Code::Enoent, name.as_bytes()),
        Err(FoundError::Memory) => Err(AllocError),
    }
}

/// `release HOLDER`: a holder gives back all that it holds, and goes. One that is not there holds nothing.
pub(crate) fn release_all(
    alloc: Global,
    holders: &mut HeldTable,
    holder: &HolderName,
) -> Result<HeldReply, AllocError>
    ensures answers { IfOk result (λ r. Answers r holders.old.held holders.new.held
        (release_all_by holders.old.held (place_of holders.old.held.names (name_bytes holder.now)))) }
    ensures unchanged { OnErr result (holders.new.held ≡ holders.old.held) }
    ensures over { holders.new.catalogue ≡ holders.old.catalogue }
{
    let reply = done(alloc)?;
    let Some(number) = holders.number(holder) else {
        return Ok(HeldReply::of(reply));
    };
    holders.holder_laws();
    holders.release(number);
    holders.settle(number);
    Ok(HeldReply {
        reply,
        changed: true,
    })
}

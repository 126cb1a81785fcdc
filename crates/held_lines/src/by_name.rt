//! What a line asks of one module or one holder.
ghost use Rattle.std.specs.Prelude.{◌≡◌, IfOk, OnErr};
ghost use Rattle.dep_index.specs.Catalogue.{modules_of, slot_named};
ghost use Rattle.held_table.specs.Names.{name_bytes, place_of};
ghost use Rattle.held_lines.specs.Outcomes.{refer_outcome, holders_outcome, held_outcome};
ghost use Rattle.held_lines.specs.ForProofs.{Answers};

use crate::asked::Reference;
use crate::gives::put;
use crate::listing::{held_text, holders_text};
use crate::reply::{HeldReply, refuse};
use crate::takes::get;
use held_table::{HeldTable, HolderName};
use modprobe::{Code, Reply, Setup};
use std::alloc::{AllocError, Global};
use text_parts::Name;

/// A holder takes a reference to the module of a name, or puts one back.
pub(crate) fn refer(
    alloc: Global,
    setup: &Setup,
    holders: &mut HeldTable,
    reference: Reference,
    holder: HolderName,
    name: &Name,
) -> Result<HeldReply, AllocError>
    requires over { holders.old.catalogue ≡ modules_of setup.now.catalogue }
    ensures answers { IfOk result (λ r. Answers r holders.old.held holders.new.held
        (refer_outcome setup.now holders.old.held reference (name_bytes holder) name.now)) }
    ensures unchanged { OnErr result (holders.new.held ≡ holders.old.held) }
    ensures over { holders.new.catalogue ≡ holders.old.catalogue }
{
    let Some(slot) = setup.catalogue().slot(name.as_bytes()) else {
        return refuse(alloc, Code::Enoent, name.as_bytes());
    };
    match reference {
        Reference::Get => get(alloc, setup, holders, holder, slot),
        Reference::Put => put(alloc, setup, holders, &holder, slot),
    }
}

/// `holders NAME`: who holds a module.
#[tactic(auto, using(crate::proofs::SlotLemmas::modules_of_length))]
pub(crate) fn who_holds(
    alloc: Global,
    setup: &Setup,
    holders: &HeldTable,
    name: &Name,
) -> Result<Reply, AllocError>
    requires { holders.now.catalogue ≡ modules_of setup.now.catalogue }
    ensures { IfOk result (λ r. r ≡ holders_outcome holders.now.held name.now (slot_named setup.now.catalogue name.now)) }
{
    match setup.catalogue().slot(name.as_bytes()) {
        Some(slot) => Ok(Reply::says(holders_text(alloc, holders, slot)?)),
        None => Reply::refused(alloc, Code::Enoent, name.as_bytes()),
    }
}

/// `held HOLDER`: what a holder holds.
pub(crate) fn what_is_held(
    alloc: Global,
    setup: &Setup,
    holders: &HeldTable,
    holder: &HolderName,
) -> Result<Reply, AllocError>
    requires { holders.now.catalogue ≡ modules_of setup.now.catalogue }
    ensures { IfOk result (λ r. r ≡ held_outcome setup.now holders.now.held (place_of holders.now.held.names (name_bytes holder.now))) }
{
    holders.holder_laws();
    match holders.number(holder) {
        Some(number) => Ok(Reply::says(held_text(alloc, setup, holders, number)?)),
        None => Ok(Reply::says(Vec::new(alloc))),
    }
}

//! `get` and `hold`: a holder takes references.
ghost use Rattle.std.specs.Prelude.{◌≡◌, ◌<◌, ◌∷◌, [], None, Some, true, false, nat_lt, length, All, Ok, IfOk, IfErr, OnOk, OnErr};
ghost use Rattle.text_parts.specs.Text.{texts_of};
ghost use Rattle.dep_index.specs.Catalogue.{modules_of, slot_named};
ghost use Rattle.modprobe.specs.Setup.{name_at};
ghost use Rattle.held_lines.specs.declared.asked.Reference.TheVariants as references;
ghost use Rattle.held_table.specs.Names.{name_bytes};
ghost use Rattle.held_table.specs.Held.{number_of, entered};
ghost use Rattle.held_lines.specs.Found.{found_for};
ghost use Rattle.held_lines.specs.Holds.{gets, to_take};
ghost use Rattle.held_lines.specs.Outcomes.{by_found, first_name, hold_outcome, refer_at};
ghost use Rattle.held_lines.specs.ForProofs.{Answers, TellsTaking, IsWithin, IsTold};

use crate::found::{FoundError, found_for};
use crate::gets::{TakeError, take_each, to_take};
use crate::guest::{let_in, let_out};
use crate::reply::{HeldReply, done, first_name, held_line, refuse};
use held_table::{EnterError, HeldTable, HolderName};
use modprobe::{Code, Reply, Setup};
use std::alloc::{AllocError, Global};

/// A holder takes a reference to each of these modules, or to none. A new one comes in first.
#[tactic(auto, using(crate::proofs::SlotLemmas::modules_of_length))]
fn take_as(
    setup: &Setup,
    holders: &mut HeldTable,
    holder: HolderName,
    slots: &[usize],
) -> Result<(), TakeError>
    requires over { holders.old.catalogue ≡ modules_of setup.now.catalogue }
    requires slots { All (λ slot. slot < length setup.now.catalogue) slots.now }
    ensures below { OnOk result (nat_lt (number_of holders.old.held.names (name_bytes holder)) (length (entered holders.old.held (name_bytes holder)).table.rows) ≡ true) }
    ensures table { OnOk result (gets setup.now (number_of holders.old.held.names (name_bytes holder)) slots.now (entered holders.old.held (name_bytes holder)).table ≡ (None, holders.new.held.table)) }
    ensures names { OnOk result (holders.new.held.names ≡ (entered holders.old.held (name_bytes holder)).names) }
    ensures refused { IfErr result (λ e. TellsTaking setup.now e (number_of holders.old.held.names (name_bytes holder)) (entered holders.old.held (name_bytes holder)) slots.now) }
    ensures within { IfErr result (λ e. IsWithin setup.now e) }
    ensures unchanged { OnErr result (holders.new.held ≡ holders.old.held) }
    ensures over { holders.new.catalogue ≡ holders.old.catalogue }
{
    let guest = match let_in(holders, holder) {
        Ok(guest) => guest,
        Err(EnterError::TooMany) => return Err(TakeError::Full),
        Err(EnterError::Memory) => return Err(TakeError::Memory),
    };
    if let Err(error) = take_each(setup, holders, guest.number, slots) {
        let_out(holders, guest);
        return Err(error);
    }
    Ok(())
}

/// Tells why a holder does not take references to these modules.
fn tell(
    alloc: Global,
    setup: &Setup,
    error: TakeError,
    slots: &[usize],
) -> Result<HeldReply, AllocError>
    requires within { IsWithin setup.now error }
    requires slots { All (λ slot. slot < length setup.now.catalogue) slots.now }
    ensures { IfOk result (λ r. IsTold setup.now slots.now error r) }
{
    match error {
        TakeError::Refused(code, slot) => refuse(alloc, code, setup.catalogue().name(slot)),
        TakeError::Full => refuse(alloc, Code::Worker, first_name(setup, slots)),
        TakeError::Memory => Err(AllocError),
    }
}

/// `get HOLDER NAME`: a holder takes a reference to the module of a slot.
pub(crate) fn get(
    alloc: Global,
    setup: &Setup,
    holders: &mut HeldTable,
    holder: HolderName,
    slot: usize,
) -> Result<HeldReply, AllocError>
    requires over { holders.old.catalogue ≡ modules_of setup.now.catalogue }
    requires slot { slot < length setup.now.catalogue }
    ensures answers { IfOk result (λ r. Answers r holders.old.held holders.new.held
        (refer_at setup.now holders.old.held references.Get (name_bytes holder) slot)) }
    ensures unchanged { OnErr result (holders.new.held ≡ holders.old.held) }
    ensures over { holders.new.catalogue ≡ holders.old.catalogue }
{
    let reply = done(alloc)?;
    let slots = [slot];
    match take_as(setup, holders, holder, &slots) {
        Ok(()) => Ok(HeldReply {
            reply,
            changed: true,
        }),
        Err(error) => tell(alloc, setup, error, &slots),
    }
}

/// A holder takes a reference to each of these modules, or to each that it does not hold; or it takes none.
#[tactic(auto, using(crate::proofs::SlotLemmas::modules_of_length))]
fn hold_each(
    alloc: Global,
    setup: &Setup,
    holders: &mut HeldTable,
    again: bool,
    holder: HolderName,
    slots: &[usize],
) -> Result<HeldReply, AllocError>
    requires over { holders.old.catalogue ≡ modules_of setup.now.catalogue }
    requires slots { All (λ slot. slot < length setup.now.catalogue) slots.now }
    ensures answers { IfOk result (λ r. Answers r holders.old.held holders.new.held
        (hold_outcome setup.now holders.old.held (name_bytes holder) slots.now
        (to_take again (number_of holders.old.held.names (name_bytes holder)) holders.old.held.table slots.now))) }
    ensures unchanged { OnErr result (holders.new.held ≡ holders.old.held) }
    ensures over { holders.new.catalogue ≡ holders.old.catalogue }
{
    holders.holder_laws();
    let number = holders.number(&holder);
    let taken = to_take(alloc, holders, again, number, slots)?;
    let reply = Reply::says(held_line(alloc, setup, slots)?);
    let changed = number.is_none() || !taken.is_empty();
    match take_as(setup, holders, holder, &taken) {
        Ok(()) => Ok(HeldReply { reply, changed }),
        Err(error) => tell(alloc, setup, error, slots),
    }
}

/// `hold HOLDER NAME..`: the modules are those that are found for the words.
pub(crate) fn hold(
    alloc: Global,
    setup: &Setup,
    holders: &mut HeldTable,
    again: bool,
    holder: HolderName,
    words: &[&[u8]],
) -> Result<HeldReply, AllocError>
    requires over { holders.old.catalogue ≡ modules_of setup.now.catalogue }
    ensures answers { IfOk result (λ r. Answers r holders.old.held holders.new.held
        (by_found holders.old.held (λ slots. hold_outcome setup.now holders.old.held (name_bytes holder) slots
        (to_take again (number_of holders.old.held.names (name_bytes holder)) holders.old.held.table slots)) (found_for setup.now (texts_of words.now)))) }
    ensures unchanged { OnErr result (holders.new.held ≡ holders.old.held) }
    ensures over { holders.new.catalogue ≡ holders.old.catalogue }
{
    match found_for(alloc, setup, words) {
        Ok(slots) => hold_each(alloc, setup, holders, again, holder, &slots),
        Err(FoundError::Unknown(name)) => refuse(alloc, Code::Enoent, name.as_bytes()),
        Err(FoundError::Memory) => Err(AllocError),
    }
}

//! Who holds what, and how often.
ghost use Rattle.std.specs.Prelude.{◌≡◌, ◌<◌, ◌++◌, [], length, codes, slice_index_or, IfOk, OnOk};
ghost use Rattle.dep_index.specs.Catalogue.{modules_of};
ghost use Rattle.held_lines.specs.Listings.{count_line, rows_text, holders_text, held_text, all_text};

use held_table::HeldTable;
use modprobe::Setup;
use proc_modules::push_number;
use seq_table::Modules;
use std::alloc::{AllocError, Global};

/// Adds a line of two parts of a name and a count, if it is not 0.
fn push_count(text: &mut Vec<u8>, front: &[u8], name: &[u8], count: u32) -> Result<(), AllocError>
    ensures { OnOk result (text.new.items ≡ text.old.items ++ count_line (front.now ++ name.now) count) }
{
    if count == 0 {
        return Ok(());
    }
    text.extend_from_slice(front)?;
    text.extend_from_slice(name)?;
    text.extend_from_slice(b" ")?;
    push_number(text, count as usize)?;
    text.push(b'\n')?;
    Ok(())
}

/// Adds what a holder holds, by slots, each line behind `front`.
#[tactic(auto, using(crate::proofs::SlotLemmas::modules_of_length))]
fn push_row<M: Modules>(
    text: &mut Vec<u8>,
    setup: &Setup,
    table: &M,
    front: &[u8],
    number: usize,
) -> Result<(), AllocError>
    requires over { M.catalogue table.now ≡ modules_of setup.now.catalogue }
    requires number { number < length (M.table table.now).rows }
    ensures { OnOk result (text.new.items ≡ text.old.items ++ rows_text setup.now (M.table table.now) front.now number) }
{
    let catalogue = setup.catalogue();
    for slot in 0..catalogue.len() {
        push_count(text, front, catalogue.name(slot), table.held(number, slot))?;
    }
    Ok(())
}

/// Who holds a module, by the holders' numbers.
pub(crate) fn holders_text(
    alloc: Global,
    holders: &HeldTable,
    slot: usize,
) -> Result<Vec<u8>, AllocError>
    requires { slot < length holders.now.catalogue }
    ensures { IfOk result (λ text. text.items ≡ holders_text holders.now.held slot) }
{
    holders.holder_laws();
    let mut text = Vec::new(alloc);
    for number in 0..holders.workers() {
        push_count(
            &mut text,
            b"",
            holders.name(number).as_bytes(),
            holders.held(number, slot),
        )?;
    }
    Ok(text)
}

/// What a holder holds, by slots.
pub(crate) fn held_text<M: Modules>(
    alloc: Global,
    setup: &Setup,
    table: &M,
    number: usize,
) -> Result<Vec<u8>, AllocError>
    requires over { M.catalogue table.now ≡ modules_of setup.now.catalogue }
    requires number { number < length (M.table table.now).rows }
    ensures { IfOk result (λ text. text.items ≡ held_text setup.now (M.table table.now) number) }
{
    let mut text = Vec::new(alloc);
    push_row(&mut text, setup, table, b"", number)?;
    Ok(text)
}

/// Adds what a holder holds, each line behind its name.
fn push_holder(
    text: &mut Vec<u8>,
    alloc: Global,
    setup: &Setup,
    holders: &HeldTable,
    number: usize,
) -> Result<(), AllocError>
    requires over { holders.now.catalogue ≡ modules_of setup.now.catalogue }
    requires number { number < length holders.now.held.names }
    ensures { OnOk result (text.new.items ≡ text.old.items ++ rows_text setup.now holders.now.held.table (slice_index_or holders.now.held.names number [] ++ codes " ") number) }
{
    holders.holder_laws();
    let mut front = Vec::from_slice(alloc, holders.name(number).as_bytes())?;
    front.push(b' ')?;
    push_row(text, setup, holders, &front, number)
}

/// What each holder holds, by the holders' numbers and then by slots.
pub(crate) fn all_text(
    alloc: Global,
    setup: &Setup,
    holders: &HeldTable,
) -> Result<Vec<u8>, AllocError>
    requires { holders.now.catalogue ≡ modules_of setup.now.catalogue }
    ensures { IfOk result (λ text. text.items ≡ all_text setup.now holders.now.held) }
{
    holders.holder_laws();
    let mut text = Vec::new(alloc);
    for number in 0..holders.workers() {
        push_holder(&mut text, alloc, setup, holders, number)?;
    }
    Ok(text)
}

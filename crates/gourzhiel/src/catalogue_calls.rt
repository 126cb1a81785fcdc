//! The calls on the handle of a catalogue.
ghost use Rattle.std.specs.Prelude.{◌≡◌, ℕ, true, false, List, length, Result};
ghost use Rattle.text_parts.specs.Text.{normal_form};
ghost use Rattle.dep_index.specs.Catalogue.{Description, Refusal, catalogue_of, slot_named};
ghost use Rattle.dep_index.specs.Faults.{IsFirstFault};
ghost use Rattle.gourzhiel.specs.Numbers.{out_of_memory};
ghost use Rattle.gourzhiel.specs.Naming.{ReadInto, SlotFound, SlotTold, NeedTold, NameTold, FaultTold};

use crate::handles::GzCatalogue;
use crate::numbers::{
    BAD_LINE, DONE, DUPLICATE, OUT_OF_MEMORY, OUT_OF_RANGE, TOO_MANY_MODULES, TOO_SHORT,
    TWICE_EXPORTED, UNKNOWN_NAME,
};
use crate::parts::{Parts, hand_out};
use dep_index::{CatError, Catalogue, read_catalogue};
use std::alloc::Global;
use text_parts::Name;

// Out of memory has a number of its own, which no fault of the text has.
fn fault(error: CatError, told: &mut usize) -> u32
    ensures memory { result ≡ out_of_memory → error ≡ CatError.Memory }
    ensures fault { (read : Result (List Description) (Refusal × ℕ)) → IsFirstFault error read → FaultTold result told.old told.new read }
{
    let (number, line) = match error {
        CatError::Bad { line } => (BAD_LINE, line),
        CatError::Duplicate { line } => (DUPLICATE, line),
        CatError::TwiceExported { line } => (TWICE_EXPORTED, line),
        CatError::TooMany { line } => (TOO_MANY_MODULES, line),
        CatError::Memory => return OUT_OF_MEMORY,
    };
    *told = line;
    number
}

/// Reads a catalogue from its text, and fills an empty handle with it.
///
/// OUT_OF_MEMORY: nothing is kept. BAD_LINE, DUPLICATE, TWICE_EXPORTED, TOO_MANY_MODULES: the text's first fault, with
/// its line, from 1, which is else left as it is. The handle is then empty as before.
#[unsafe(no_mangle)]
pub extern "C" fn gz_catalogue_read(
    alloc: Global,
    text: &[u8],
    catalogue: &mut GzCatalogue,
    line: &mut usize,
) -> u32
    requires empty { catalogue.old.full ≡ false }
    ensures { ReadInto (catalogue_of text.now) catalogue.old.full result line.old line.new catalogue.new.full catalogue.new.held }
{
    let read = match read_catalogue(alloc, text) {
        Ok(read) => read,
        Err(error) => return fault(error, line),
    };
    match Box::new(alloc, read) {
        Ok(boxed) => {
            *catalogue = hand_out(GzCatalogue::of_parts(Parts::of(boxed)));
            DONE
        }
        Err(_) => OUT_OF_MEMORY,
    }
}

/// How many modules the catalogue has. Their slots are the numbers below.
#[unsafe(no_mangle)]
pub extern "C" fn gz_catalogue_len(catalogue: &mut GzCatalogue) -> usize
    requires full { catalogue.old.full ≡ true }
    ensures kept { (catalogue.new.full ≡ true) × (catalogue.new.held ≡ catalogue.old.held) }
    ensures count { result ≡ length catalogue.old.held }
{
    catalogue.lend().len()
}

/// The slot of a name. In the name `-` and `_` are the same (modprobe(8)).
///
/// UNKNOWN_NAME: no module has the name. OUT_OF_MEMORY. The slot is then left as it is.
#[unsafe(no_mangle)]
pub extern "C" fn gz_catalogue_slot(
    alloc: Global,
    catalogue: &mut GzCatalogue,
    name: &[u8],
    slot: &mut usize,
) -> u32
    requires full { catalogue.old.full ≡ true }
    ensures kept { (catalogue.new.full ≡ true) × (catalogue.new.held ≡ catalogue.old.held) }
    ensures slot { SlotTold (slot_named catalogue.old.held (normal_form name.now)) slot.old result slot.new }
{
    let Ok(normal) = Name::new(alloc, name) else {
        return OUT_OF_MEMORY;
    };
    tell_slot(catalogue.lend(), normal.as_bytes(), slot)
}

// Once the name is in normal form, memory suffices.
fn tell_slot(catalogue: &Catalogue, normal: &[u8], slot: &mut usize) -> u32
    ensures { SlotFound (slot_named catalogue.now normal.now) slot.old result slot.new }
{
    match catalogue.slot(normal) {
        None => UNKNOWN_NAME,
        Some(found) => {
            *slot = found;
            DONE
        }
    }
}

/// The slot of a module that the module in a slot needs, by its place among its needs, in the order of the text.
///
/// OUT_OF_RANGE: the slot is none of the catalogue, or it needs fewer. The need is then left as it is.
#[unsafe(no_mangle)]
pub extern "C" fn gz_catalogue_need(
    catalogue: &mut GzCatalogue,
    slot: usize,
    place: usize,
    need: &mut usize,
) -> u32
    requires full { catalogue.old.full ≡ true }
    ensures kept { (catalogue.new.full ≡ true) × (catalogue.new.held ≡ catalogue.old.held) }
    ensures need { NeedTold catalogue.old.held slot place need.old result need.new }
{
    let modules = catalogue.lend();
    if slot >= modules.len() {
        return OUT_OF_RANGE;
    }
    match modules.needs(slot).get(place) {
        None => OUT_OF_RANGE,
        Some(found) => {
            *need = usize::from(*found);
            DONE
        }
    }
}

/// The name of the module in a slot, written to the front of the buffer, and its length, at most 55.
///
/// OUT_OF_RANGE: the slot is none of the catalogue, and the length is left as it is. TOO_SHORT: the buffer is shorter than
/// the name, whose length is reported; nothing is written.
#[unsafe(no_mangle)]
pub extern "C" fn gz_catalogue_name(
    catalogue: &mut GzCatalogue,
    slot: usize,
    buffer: &mut [u8],
    long: &mut usize,
) -> u32
    requires full { catalogue.old.full ≡ true }
    ensures kept { (catalogue.new.full ≡ true) × (catalogue.new.held ≡ catalogue.old.held) }
    ensures name { NameTold catalogue.old.held slot buffer.old long.old result buffer.new long.new }
{
    let catalogue = catalogue.lend();
    if slot >= catalogue.len() {
        return OUT_OF_RANGE;
    }
    let name = catalogue.name(slot);
    *long = name.len();
    if buffer.len() < name.len() {
        return TOO_SHORT;
    }
    buffer[..name.len()].copy_from_slice(name);
    DONE
}

/// Frees a catalogue. Tables that were made over it go on.
#[unsafe(no_mangle)]
pub extern "C" fn gz_catalogue_free(catalogue: GzCatalogue)
    requires full { catalogue.full ≡ true }
{
    drop(catalogue.into_parts().into_box());
}

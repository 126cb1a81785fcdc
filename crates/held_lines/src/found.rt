//! The modules that are found for the words of a line.
ghost use Rattle.std.specs.Prelude.{◌≡◌, ◌<◌, Ok, All, length, IfOk, IfErr, OnOk};
ghost use Rattle.text_parts.specs.Text.{texts_of};
ghost use Rattle.held_lines.specs.Found.{add_targets, add_word, found_for, FailsAs, with_slot};

use load_plan::FindError;
use modprobe::Setup;
use std::alloc::{AllocError, AllocFailed, Global};
use text_parts::Name;

/// Why no modules are found.
#[derive(Drop)]
pub(crate) enum FoundError {
    /// There is none for this name.
    Unknown(Name),
    Memory,
}

impl From<AllocError> for FoundError {
    ghost use Rattle.std.specs.Prelude.{◌≡◌};
    ghost use Rattle.held_lines.specs.declared.found.FoundError.TheVariants.{Memory};

    ghost from_gives = { λ _ e. e ≡ Memory };

    fn from(_error: AllocError) -> FoundError {
        FoundError::Memory
    }
}

/// Adds a slot, unless it stands there already.
fn add_slot(slots: &mut Vec<usize>, slot: usize) -> Result<(), AllocError>
    ensures { OnOk result (slots.new.items ≡ with_slot slots.old.items slot) }
{
    if !slots.contains(&slot) {
        slots.push(slot)?;
    }
    Ok(())
}

/// Adds the slots of the targets.
fn add_targets(
    alloc: Global,
    setup: &Setup,
    slots: &mut Vec<usize>,
    targets: &[Name],
) -> Result<(), FoundError>
    requires within { All (λ slot. slot < length setup.now.catalogue) slots.old.items }
    ensures found { OnOk result (add_targets setup.now slots.old.items targets.now ≡ Ok slots.new.items) }
    ensures fails { IfErr result (λ e. FailsAs e (add_targets setup.now slots.old.items targets.now)) }
    ensures within { OnOk result (All (λ slot. slot < length setup.now.catalogue) slots.new.items) }
{
    for target in targets {
        match setup.catalogue().slot(target.as_bytes()) {
            Some(slot) => add_slot(slots, slot)?,
            None => return Err(FoundError::Unknown(target.copy(alloc)?)),
        }
    }
    Ok(())
}

/// Adds the slots of the modules that are found for a word.
fn add_word(
    alloc: Global,
    setup: &Setup,
    slots: &mut Vec<usize>,
    word: &[u8],
) -> Result<(), FoundError>
    requires within { All (λ slot. slot < length setup.now.catalogue) slots.old.items }
    ensures found { OnOk result (add_word setup.now slots.old.items word.now ≡ Ok slots.new.items) }
    ensures fails { IfErr result (λ e. FailsAs e (add_word setup.now slots.old.items word.now)) }
    ensures within { OnOk result (All (λ slot. slot < length setup.now.catalogue) slots.new.items) }
{
    let name = Name::new(alloc, word)?;
    match setup.find(alloc, name.as_bytes()) {
        Ok(targets) => add_targets(alloc, setup, slots, &targets),
        Err(FindError::NotFound) => Err(FoundError::Unknown(name)),
        Err(FindError::Memory) => Err(FoundError::Memory),
    }
}

/// The slots of the modules that are found for words, in the order of the words, each once.
pub(crate) fn found_for(
    alloc: Global,
    setup: &Setup,
    words: &[&[u8]],
) -> Result<Vec<usize>, FoundError>
    ensures found { IfOk result (λ slots. found_for setup.now (texts_of words.now) ≡ Ok slots.items) }
    ensures fails { IfErr result (λ e. FailsAs e (found_for setup.now (texts_of words.now))) }
    ensures within { IfOk result (λ slots. All (λ slot. slot < length setup.now.catalogue) slots.items) }
{
    let mut slots = Vec::new(alloc);
    for word in words {
        add_word(alloc, setup, &mut slots, *word)?;
    }
    Ok(slots)
}

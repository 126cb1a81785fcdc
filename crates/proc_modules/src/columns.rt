//! Texts in columns, and names with commas.
ghost use Rattle.std.specs.Prelude.{◌≡◌, ◌≤◌, ◌<◌, ◌++◌, length, replicate, All, OnOk};
ghost use Rattle.std.specs.List.{join_with_byte};
ghost use Rattle.proc_modules.specs.Listings.{left_in, right_in, names_of, comma_before};

use dep_index::Catalogue;
use std::alloc::AllocError;

fn push_spaces(text: &mut Vec<u8>, count: usize) -> Result<(), AllocError>
    ensures { OnOk result (text.new.items ≡ text.old.items ++ replicate count 32) }
{
    for _ in 0..count {
        text.push(b' ')?;
    }
    Ok(())
}

/// Adds a text at the left of so many places; a longer one takes the places that it needs.
pub(crate) fn push_left(text: &mut Vec<u8>, places: usize, column: &[u8]) -> Result<(), AllocError>
    ensures { OnOk result (text.new.items ≡ text.old.items ++ left_in places column.now) }
{
    text.extend_from_slice(column)?;
    push_spaces(text, places.saturating_sub(column.len()))
}

/// Adds a text at the right of so many places; a longer one takes the places that it needs.
pub(crate) fn push_right(text: &mut Vec<u8>, places: usize, column: &[u8]) -> Result<(), AllocError>
    ensures { OnOk result (text.new.items ≡ text.old.items ++ right_in places column.now) }
{
    push_spaces(text, places.saturating_sub(column.len()))?;
    text.extend_from_slice(column)?;
    Ok(())
}

fn push_comma(text: &mut Vec<u8>, is_first: bool) -> Result<(), AllocError>
    ensures { OnOk result (text.new.items ≡ text.old.items ++ comma_before is_first) }
{
    if !is_first {
        text.push(b',')?;
    }
    Ok(())
}

/// Adds the names of the slots with commas between them.
pub(crate) fn push_names(
    text: &mut Vec<u8>,
    catalogue: &Catalogue,
    slots: &[u16],
) -> Result<(), AllocError>
    requires { All (λ slot. slot < length catalogue.now) slots.now }
    ensures { OnOk result (text.new.items ≡ text.old.items ++ join_with_byte 44 (names_of catalogue.now slots.now)) }
{
    for (i, slot) in slots.iter().enumerate() {
        push_comma(text, i == 0)?;
        text.extend_from_slice(catalogue.name(*slot as usize))?;
    }
    Ok(())
}

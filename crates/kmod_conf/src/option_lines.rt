//! The options lines of a module.
ghost use Rattle.std.specs.Prelude.{◌≡◌, map, option_map, option_copied, IfOk};
ghost use Rattle.std.specs.List.{filter_map};
ghost use Rattle.kmod_conf.specs.ForProofs.{filled_at};
ghost use Rattle.kmod_conf.specs.LookUps.{options_in};

use crate::line::TextLine;
use crate::named_lines::NamedLines;
use std::alloc::{AllocError, Global};

/// The line at a place, if it has text.
fn filled_at(lines: &[TextLine], place: usize) -> Option<&TextLine>
    ensures { option_copied result ≡ filled_at lines.entry.now place }
{
    match lines.get(place) {
        Some(line) if !line.text.as_bytes().is_empty() => Some(line),
        _ => None,
    }
}

/// The lines at the places that have text.
fn filled_lines<'a>(
    alloc: Global,
    lines: &'a [TextLine],
    places: &[usize],
) -> Result<Vec<&'a TextLine>, AllocError>
    ensures { IfOk result (λ found. map (λ line. line.now) found.items ≡ filter_map (filled_at lines.entry.now) places.now) }
{
    let mut found = Vec::new(alloc);
    for place in places {
        if let Some(line) = filled_at(lines, *place) {
            found.push(line)?;
        }
    }
    Ok(found)
}

impl NamedLines<TextLine> {
    /// The lines with text whose name is the module's, or that of the alias by which it came.
    pub(crate) fn of(
        &self,
        alloc: Global,
        name: &[u8],
        alias: Option<&[u8]>,
    ) -> Result<Vec<&TextLine>, AllocError>
        ensures { IfOk result (λ found. map (λ line. line.now) found.items
            ≡ options_in self.now name.now (option_map (λ own. own.now) alias.entry)) }
    {
        let other = alias.unwrap_or(name);
        let places = self.places.of_either(alloc, name, other)?;
        filled_lines(alloc, &self.lines, &places)
    }
}

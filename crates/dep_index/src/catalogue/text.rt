//! Reads a catalogue text.
ghost use Rattle.std.specs.Prelude.{◌≡◌, Ok, IfOk, MatchResult};
ghost use Rattle.std.specs.Str.Lines.{lines};
ghost use Rattle.dep_index.specs.Catalogue.{catalogue_of, read_lines, no_draft};
ghost use Rattle.dep_index.specs.Catalogue.Drafts.{modules_read, IsSound, DraftIsRead};
ghost use Rattle.dep_index.specs.Faults.{IsFirstFault};

use crate::catalogue::Catalogue;
use crate::catalogue::draft::Draft;
use crate::catalogue::needs::slots_of;
use crate::faults::CatError;
use std::alloc::{AllocError, Global};
use text_parts::whole_lines;

/// Reads line after line.
fn read_draft<'a>(alloc: Global, text: &'a [u8]) -> Result<Draft<'a>, CatError>
    ensures { DraftIsRead result (read_lines 1 no_draft (lines text.now)) }
{
    let mut draft = Draft::new(alloc);
    let mut words = Vec::new(alloc);
    let mut lines = whole_lines(text);
    let mut number: usize = 1;
    while let Some(line) = lines.next() {
        if let Err(refused) = draft.read_line(alloc, &mut words, line) {
            return Err(refused.at(number));
        }
        number += 1;
    }
    Ok(draft)
}

/// The catalogue of the modules that were read.
fn finish(alloc: Global, draft: &mut Draft<'_>) -> Result<Catalogue, AllocError>
    requires { IsSound draft.old }
    ensures { IfOk result (λ catalogue. catalogue ≡ modules_read draft.old) }
{
    draft.close()?;
    let slots = slots_of(alloc, &draft.earlier, &draft.exporters)?;
    Ok(Catalogue::new(draft.take_modules(alloc), slots))
}

/// The catalogue that a text is, or its first fault with its line. Lines without a word and lines whose first byte
/// is `#` say nothing; the others are `module NAME`, `size N`, `exports SYMBOL..`, `needs SYMBOL..`,
/// `param NAME int|bool|charp` and `permanent`. If the first of them is `version 2`, `softneeds NAME..` is
/// one more, and the limit is 1,024 modules in place of 256. If it is `version 3`, the limit is 65,535 modules,
/// parameters have all of the kernel's standard types, also in arrays, and behind `end N` no further line may say
/// something; N is how many modules stand before it.
pub fn read_catalogue(alloc: Global, text: &[u8]) -> Result<Catalogue, CatError>
    ensures { MatchResult result (λ catalogue. catalogue_of text.now ≡ Ok catalogue) (λ e. IsFirstFault e (catalogue_of text.now)) }
{
    let mut draft = read_draft(alloc, text)?;
    Ok(finish(alloc, &mut draft)?)
}

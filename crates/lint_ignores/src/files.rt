//! Files that say what is not to be noted: lines `FILE KIND NAME`, with `*` for any.
ghost use Rattle.std.specs.Prelude.{◌≡◌, ◌++◌, IfOk, OnOk};
ghost use Rattle.std.specs.Option.{option_to_list};
ghost use Rattle.text_parts.specs.Text.{texts_of};
ghost use Rattle.lint_ignores.specs.Ignores.{file_ignores, ignore_by, is_bad_line, line_ignore};

use crate::ignore::Ignore;
use crate::kinds::is_kind;
use kmod_names::Text;
use std::alloc::{AllocError, Global};
use text_parts::{has_word, is_comment, whole_lines, words};

/// What three words ignore; None if there are more or less, or the second is no kind.
fn ignore_by(alloc: Global, words: &[&[u8]]) -> Result<Option<Ignore>, AllocError>
    ensures { IfOk result (λ ignore. ignore ≡ ignore_by (texts_of words.now)) }
{
    match words {
        [file, kind, name] if is_kind(*kind) => Ok(Some(Ignore {
            place: None,
            file: Text::new(alloc, *file)?,
            kind: Text::new(alloc, *kind)?,
            name: Text::new(alloc, *name)?,
        })),
        _ => Ok(None),
    }
}

fn line_ignore(alloc: Global, line: &[u8]) -> Result<Option<Ignore>, AllocError>
    ensures { IfOk result (λ ignore. ignore ≡ line_ignore line.now) }
{
    if is_comment(line) {
        return Ok(None);
    }
    let words = words(alloc, line)?;
    ignore_by(alloc, &words)
}

fn push(ignores: &mut Vec<Ignore>, ignore: Option<Ignore>) -> Result<(), AllocError>
    ensures { OnOk result (ignores.new.items ≡ ignores.old.items ++ option_to_list ignore) }
{
    if let Some(ignore) = ignore {
        ignores.push(ignore)?;
    }
    Ok(())
}

/// Adds what the lines `FILE KIND NAME` of a text say. Comments, empty lines and bad ones say nothing. It fails only if
/// memory runs out.
pub fn add_file(alloc: Global, ignores: &mut Vec<Ignore>, text: &[u8]) -> Result<(), AllocError>
    ensures { OnOk result (ignores.new.items ≡ ignores.old.items ++ file_ignores text.now) }
{
    let mut lines = whole_lines(text);
    'lines: while let Some(line) = lines.next() {
        push(ignores, line_ignore(alloc, line)?)?;
    }
    Ok(())
}

/// Whether a line of such a text has words, is no comment, and is not of this form. It fails only if memory runs out.
pub fn is_bad_line(alloc: Global, line: &[u8]) -> Result<bool, AllocError>
    ensures { IfOk result (λ is. is ≡ is_bad_line line.now) }
{
    if !has_word(line) || is_comment(line) {
        return Ok(false);
    }
    let words = words(alloc, line)?;
    Ok(ignore_by(alloc, &words)?.is_none())
}

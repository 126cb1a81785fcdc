//! What comments of the configuration say that it is not to be noted.
ghost use Rattle.std.specs.Prelude.{◌≡◌, ◌++◌, map, IfOk, OnOk};
ghost use Rattle.text_parts.specs.Text.{texts_of};
ghost use Rattle.lint_ignores.specs.Ignores.{comment_ignores, ignore_at, kinds_of, text_ignores};

use crate::ignore::Ignore;
use std::alloc::{AllocError, Global};
use text_parts::{whole_lines, words};

/// The kinds that a comment names; none if the line is another one.
pub(crate) fn kinds_of<'a>(alloc: Global, line: &'a [u8]) -> Result<Vec<&'a [u8]>, AllocError>
    ensures { IfOk result (λ kinds. texts_of kinds.items ≡ kinds_of line.now) }
{
    match line.strip_prefix(b"# gz-lint: ignore ") {
        Some(kinds) => words(alloc, kinds),
        None => Ok(Vec::new(alloc)),
    }
}

/// Adds kinds, of the line of a number.
fn add_kinds(
    alloc: Global,
    ignores: &mut Vec<Ignore>,
    source: usize,
    number: usize,
    kinds: &[&[u8]],
) -> Result<(), AllocError>
    ensures { OnOk result (ignores.new.items ≡ ignores.old.items ++ map (ignore_at source number) (texts_of kinds.now)) }
{
    for kind in kinds {
        ignores.push(Ignore::at(alloc, source, number, *kind)?)?;
    }
    Ok(())
}

/// Adds what a line says of the one behind it, which has this number.
fn add_line(
    alloc: Global,
    ignores: &mut Vec<Ignore>,
    source: usize,
    number: usize,
    line: &[u8],
) -> Result<(), AllocError>
    ensures { OnOk result (ignores.new.items ≡ ignores.old.items ++ comment_ignores source (number, line.now)) }
{
    let kinds = kinds_of(alloc, line)?;
    add_kinds(alloc, ignores, source, number, &kinds)
}

/// Adds what the comments of a text of the configuration say: `# gz-lint: ignore KIND ..` stands for each KIND of the line
/// behind it. `source` is the number of the text in the places of notes. It fails only if memory runs out.
pub fn add_comments(
    alloc: Global,
    ignores: &mut Vec<Ignore>,
    source: usize,
    text: &[u8],
) -> Result<(), AllocError>
    ensures { OnOk result (ignores.new.items ≡ ignores.old.items ++ text_ignores source text.now) }
{
    let mut lines = whole_lines(text);
    let mut behind = 2usize;
    'lines: while let Some(line) = lines.next() {
        add_line(alloc, ignores, source, behind, line)?;
        behind += 1;
    }
    Ok(())
}

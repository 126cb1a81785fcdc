//! The catalogue of a machine.
ghost use Rattle.std.specs.Prelude.{◌≡◌, ◌++◌, IfOk, OnOk};
ghost use Rattle.std.specs.List.{flat_map};
ghost use Rattle.table_setup.specs.Host.{host_catalogue, line_of, module_lines, needs_line};

use kmod_index::{DepLine, Index, IndexTexts};
use kmod_names::Text;
use std::alloc::{AllocError, Global};

/// Adds a line with a word before others.
fn push_line(text: &mut Vec<u8>, first: &[u8], others: &[Text]) -> Result<(), AllocError>
    ensures { OnOk result (text.new.items ≡ text.old.items ++ line_of first.now others.now) }
{
    text.extend_from_slice(first)?;
    for other in others {
        text.push(b' ')?;
        text.extend_from_slice(other.as_bytes())?;
    }
    text.push(b'\n')?;
    Ok(())
}

/// Adds the line of what a module needs, if it needs anything.
fn push_needs(text: &mut Vec<u8>, names: &[Text]) -> Result<(), AllocError>
    ensures { OnOk result (text.new.items ≡ text.old.items ++ needs_line names.now) }
{
    if names.is_empty() {
        return Ok(());
    }
    push_line(text, b"needs", names)
}

/// Adds the lines of a module.
fn push_module(alloc: Global, text: &mut Vec<u8>, line: &DepLine<'_>) -> Result<(), AllocError>
    ensures { OnOk result (text.new.items ≡ text.old.items ++ module_lines line.now) }
{
    let name = [line.name(alloc)?];
    push_line(text, b"module", &name)?;
    push_line(text, b"exports", &name)?;
    push_needs(text, &line.needed_names(alloc)?)
}

/// Adds the lines of modules, one after another.
fn push_modules(alloc: Global, text: &mut Vec<u8>, lines: &[DepLine<'_>]) -> Result<(), AllocError>
    ensures { OnOk result (text.new.items ≡ text.old.items ++ flat_map module_lines lines.now) }
{
    for line in lines {
        push_module(alloc, text, line)?;
    }
    Ok(())
}

/// The catalogue that a text of modules.dep makes: each of its modules, with all that its line lists as needs, without
/// sizes and parameters. It is of version 3. Its reader says whether it is a catalogue: it is none if a module has two
/// lines. It fails only if memory runs out.
#[tactic(auto, unfolding(kmod_index::specs::Index::indexes_of))]
pub fn host_catalogue(alloc: Global, dependencies: &[u8]) -> Result<Vec<u8>, AllocError>
    ensures { IfOk result (λ text. text.items ≡ host_catalogue dependencies.now) }
{
    let texts = IndexTexts {
        dep: dependencies,
        alias: b"",
        symbols: b"",
        builtin: b"",
        builtin_modinfo: b"",
    };
    let index = Index::read(texts);
    let mut text = Vec::from_slice(alloc, b"version 3\n")?;
    push_modules(alloc, &mut text, &index.dep_lines(alloc)?)?;
    Ok(text)
}

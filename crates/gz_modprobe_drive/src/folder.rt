//! What the texts of a folder of modules say.
ghost use Rattle.std.specs.Prelude.{◌≡◌, IfOk, IfSome};
ghost use Rattle.kmod_index.specs.Dependencies.{dependencies_of};
ghost use Rattle.kmod_index.specs.Index.{texts_in};
ghost use Rattle.gz_modprobe_drive.specs.Texts.{folder_texts, index_of, text_or_empty};

use kmod_index::{DepTable, Index, IndexTexts};
use modprobe_files::{LaterTexts, ModuleTexts};
use std::alloc::{AllocError, Global};

/// How many names are looked up without tables of the texts: to make these takes as long as the look-up of about so many.
pub(crate) const FEW_NAMES: usize = 32;

/// A name for which all texts have tables: it is that of a symbol, and of no module.
const A_SYMBOL: &[u8] = b"symbol:";

/// A text; one that was not read is empty.
fn lent(text: &Option<Vec<u8>>) -> &[u8]
    ensures { result.now ≡ text_or_empty text.entry.now }
{
    match text {
        Some(text) => text,
        None => b"",
    }
}

/// The texts of a folder of modules. One that was not read is empty.
pub(crate) fn folder_texts<'a>(texts: &'a ModuleTexts, later: &'a LaterTexts) -> IndexTexts<'a>
    ensures { texts_in result ≡ folder_texts texts.entry.now later.entry.now }
{
    IndexTexts {
        dep: &texts.dep,
        alias: lent(&later.alias),
        symbols: lent(&later.symbols),
        builtin: &texts.builtin,
        builtin_modinfo: &texts.builtin_modinfo,
    }
}

/// What the texts of a folder of modules say, for a query of few names. `lines` are those of modules.dep.
pub(crate) fn few_index<'a>(
    texts: &'a ModuleTexts,
    later: &'a LaterTexts,
    lines: &'a DepTable<'a>,
) -> Index<'a>
    requires { lines.now ≡ dependencies_of texts.now.dep.items }
    ensures { result ≡ index_of texts.entry.now later.entry.now }
{
    Index::with_lines(folder_texts(texts, later), lines)
}

/// What the texts of a folder of modules say, for a query of these names, after all that it needs was read. `lines` are
/// those of modules.dep, if they were found already. It fails only if memory runs out.
pub(crate) fn index_by<'a>(
    alloc: Global,
    texts: &'a ModuleTexts,
    later: &'a LaterTexts,
    names: &[&[u8]],
    lines: Option<&'a DepTable<'a>>,
) -> Result<Index<'a>, AllocError>
    requires { IfSome lines (λ lines. lines.now ≡ dependencies_of texts.now.dep.items) }
    ensures { IfOk result (λ index. index ≡ index_of texts.entry.now later.entry.now) }
{
    match lines {
        Some(lines) => Ok(few_index(texts, later, lines)),
        None => index_of(alloc, texts, later, names),
    }
}

/// What the texts of a folder of modules say, in tables of all of them. It fails only if memory runs out.
pub(crate) fn whole_index<'a>(
    alloc: Global,
    texts: &'a ModuleTexts,
    later: &'a LaterTexts,
) -> Result<Index<'a>, AllocError>
    ensures { IfOk result (λ index. index ≡ index_of texts.entry.now later.entry.now) }
{
    Index::with_tables(alloc, folder_texts(texts, later), &[A_SYMBOL])
}

/// What the texts of a folder of modules say, for a query of these names. One that was not read is taken for empty. It fails
/// only if memory runs out.
pub fn index_of<'a>(
    alloc: Global,
    texts: &'a ModuleTexts,
    later: &'a LaterTexts,
    names: &[&[u8]],
) -> Result<Index<'a>, AllocError>
    ensures { IfOk result (λ index. index ≡ index_of texts.entry.now later.entry.now) }
{
    if names.len() > FEW_NAMES {
        return Index::with_tables(alloc, folder_texts(texts, later), names);
    }
    Ok(Index::read(folder_texts(texts, later)))
}

//! What is told of a folder of modules that lacks something.
ghost use Rattle.std.specs.Prelude.{◌≡◌, ◌++◌, IfOk, OnOk};
ghost use Rattle.gz_modprobe_drive.specs.Tree.{notice, notices_of, text_notice, text_notices};

use crate::tree::{Found, Tree};
use modprobe_files::joined;
use std::alloc::{AllocError, Global};

const BY_DEPMOD: &[u8] = b", which depmod(8) writes";

const BY_BUILD: &[u8] = b", which the kernel's build writes";

fn push_notice(lines: &mut Vec<u8>, what: &[u8], path: &[u8], more: &[u8]) -> Result<(), AllocError>
    ensures { OnOk result (lines.new.items ≡ lines.old.items ++ notice what.now path.now more.now) }
{
    lines.extend_from_slice(b"gz-modprobe: NOTICE: ")?;
    lines.extend_from_slice(what)?;
    lines.extend_from_slice(path)?;
    lines.extend_from_slice(more)?;
    lines.extend_from_slice(b"\n")?;
    Ok(())
}

/// Adds what is told of a text, by its path and who writes it.
fn push_text(lines: &mut Vec<u8>, path: &[u8], who: &[u8], found: Found) -> Result<(), AllocError>
    ensures { OnOk result (lines.new.items ≡ lines.old.items ++ text_notice path.now who.now found) }
{
    match found {
        Found::Whole | Found::Unread => Ok(()),
        Found::Cut => push_notice(lines, b"", path, b" ends within a line"),
        Found::Missing => push_notice(lines, b"there is no file ", path, who),
    }
}

fn text_notices(alloc: Global, tree: &Tree<'_>) -> Result<Vec<u8>, AllocError>
    ensures { IfOk result (λ lines. lines.items ≡ text_notices tree.now) }
{
    let mut lines = Vec::new(alloc);
    let folder = tree.directory;
    let dep = joined(alloc, folder, b"/", b"modules.dep")?;
    push_text(&mut lines, &dep, BY_DEPMOD, tree.dep)?;
    let alias = joined(alloc, folder, b"/", b"modules.alias")?;
    push_text(&mut lines, &alias, BY_DEPMOD, tree.alias)?;
    let symbols = joined(alloc, folder, b"/", b"modules.symbols")?;
    push_text(&mut lines, &symbols, BY_DEPMOD, tree.symbols)?;
    let builtin = joined(alloc, folder, b"/", b"modules.builtin")?;
    push_text(&mut lines, &builtin, BY_BUILD, tree.builtin)?;
    Ok(lines)
}

/// What is told of a folder of modules: that it is missing, or which of its texts are missing or end within a line. It fails
/// only if memory runs out.
pub(crate) fn notices(alloc: Global, tree: &Tree<'_>) -> Result<Vec<u8>, AllocError>
    ensures { IfOk result (λ lines. lines.items ≡ notices_of tree.now) }
{
    if tree.is_there {
        return text_notices(alloc, tree);
    }
    let mut lines = Vec::new(alloc);
    push_notice(&mut lines, b"there is no folder ", tree.directory, b"")?;
    Ok(lines)
}

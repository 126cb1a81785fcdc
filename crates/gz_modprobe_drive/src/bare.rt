//! The texts of a folder of modules, with the names of files alone.

use modprobe_files::ModuleTexts;
use std::alloc::{AllocError, Global};

/// How the names of compressed files end.
const COMPRESSED: [&[u8]; 3] = [b".gz", b".xz", b".zst"];

/// The name of a file without its folder, and as if it were not compressed.
fn bare_name(path: &[u8]) -> &[u8] {
    let name = match path.iter().rposition(|byte| *byte == b'/') {
        Some(place) => &path[place + 1..],
        None => path,
    };
    for ending in COMPRESSED.iter() {
        if let Some(bare) = name.strip_suffix(*ending) {
            return bare;
        }
    }
    name
}

/// Adds a line of modules.dep: the file of a module, and those of what it needs.
fn push_line(text: &mut Vec<u8>, line: &[u8]) -> Result<(), AllocError> {
    for (at, word) in line.split(|byte| *byte == b' ').enumerate() {
        if at > 0 {
            text.push(b' ')?;
        }
        match word.strip_suffix(b":") {
            Some(path) => {
                text.extend_from_slice(bare_name(path))?;
                text.push(b':')?;
            }
            None => text.extend_from_slice(bare_name(word))?,
        }
    }
    Ok(())
}

fn bare_dep(alloc: Global, dep: &[u8]) -> Result<Vec<u8>, AllocError> {
    let mut text = Vec::with_capacity(alloc, dep.len())?;
    for (at, line) in dep.split(|byte| *byte == b'\n').enumerate() {
        if at > 0 {
            text.push(b'\n')?;
        }
        push_line(&mut text, line)?;
    }
    Ok(text)
}

/// The texts of a folder of modules in which each file has no folder, and is not compressed: of another kernel the same module
/// may lie elsewhere. It fails only if memory runs out.
pub(crate) fn bare_texts(alloc: Global, modules: &ModuleTexts) -> Result<ModuleTexts, AllocError> {
    Ok(ModuleTexts {
        dep: bare_dep(alloc, &modules.dep)?,
        builtin: Vec::from_slice(alloc, &modules.builtin)?,
        builtin_modinfo: Vec::from_slice(alloc, &modules.builtin_modinfo)?,
    })
}

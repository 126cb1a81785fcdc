//! What is not to be noted, by comments of the configuration and by the files that `--ignore` names.
ghost use Rattle.std.specs.Prelude.{◌≡◌, ◌++◌, IfOk, OnOk};
ghost use Rattle.std.specs.List.{flat_map};
ghost use Rattle.modprobe_words.specs.Variable.{bytes_of};
ghost use Rattle.lint_ignores.specs.Ignores.{file_ignores};
ghost use Rattle.gz_modprobe_drive.specs.Ignored.{comments_of, ignores_of, unknown_of};

use crate::run::Run;
use lint_ignores::{Ignore, add_comments, add_file, add_unknown, is_bad_line};
use machine_lint::Note;
use modprobe_files::{ConfTexts, System, TextFile, tell_unread};
use modprobe_words::{Level, Messages};
use std::alloc::{AllocError, Global};
use std::io::{ErrorKind, Write};
use text_parts::whole_lines;

/// The texts of the files that `--ignore` names.
#[derive(Drop)]
pub(crate) struct IgnoreFiles {
    pub(crate) texts: Vec<Vec<u8>>,
    /// Whether each file was read, and each of its lines has the form.
    pub(crate) are_read: bool,
}

/// Tells the lines of such a text that are not of the form. Returns whether there is none.
fn are_lines_good<E: Write>(
    alloc: Global,
    path: &[u8],
    text: &[u8],
    messages: &mut Messages<'_, E>,
) -> Result<bool, AllocError> {
    let mut are_good = true;
    let mut lines = whole_lines(text);
    let mut number = 1usize;
    'lines: while let Some(line) = lines.next() {
        if is_bad_line(alloc, line)? {
            let place = format!(in alloc; " line {} is not of the form ", number)?;
            let form = b"FILE KIND NAME";
            messages.tell_always(Level::Error, path, place.as_bytes(), form, b"");
            are_good = false;
        }
        number += 1;
    }
    Ok(are_good)
}

/// Reads the files that `--ignore` names, and tells what is wrong with them. They do not lie below a root. It fails only if
/// memory runs out.
pub(crate) fn read_ignores<S: System, E: Write>(
    run: &Run<'_, S>,
    messages: &mut Messages<'_, E>,
) -> Result<IgnoreFiles, AllocError> {
    let alloc = run.host.alloc();
    let mut files = IgnoreFiles {
        texts: Vec::new(alloc),
        are_read: true,
    };
    for path in &run.asked.ignores {
        match run.beside.read(*path) {
            Ok(text) => {
                if !are_lines_good(alloc, *path, &text, messages)? {
                    files.are_read = false;
                }
                files.texts.push(text)?;
            }
            Err(error) if error.kind() == ErrorKind::OutOfMemory => return Err(AllocError),
            Err(error) => {
                tell_unread(*path, &error, messages)?;
                files.are_read = false;
            }
        }
    }
    Ok(files)
}

fn add_all_comments(
    alloc: Global,
    ignores: &mut Vec<Ignore>,
    files: &[TextFile],
) -> Result<(), AllocError>
    ensures { OnOk result (ignores.new.items ≡ ignores.old.items ++ comments_of files.now) }
{
    let mut source = 0usize;
    let mut rest = files;
    while let Some((file, later)) = rest.split_first() {
        add_comments(alloc, ignores, source, &file.text)?;
        source += 1;
        rest = later;
    }
    Ok(())
}

/// Adds what files of ignores say.
fn add_all_files(
    alloc: Global,
    ignores: &mut Vec<Ignore>,
    texts: &[Vec<u8>],
) -> Result<(), AllocError>
    ensures { OnOk result (ignores.new.items ≡ ignores.old.items ++ flat_map file_ignores (bytes_of texts.now)) }
{
    for text in texts {
        add_file(alloc, ignores, text)?;
    }
    Ok(())
}

/// What the comments of a configuration and these files of ignores say. It fails only if memory runs out.
pub(crate) fn ignores_of(
    alloc: Global,
    texts: &ConfTexts,
    files: &[Vec<u8>],
) -> Result<Vec<Ignore>, AllocError>
    ensures { IfOk result (λ ignores. ignores.items ≡ ignores_of texts.now (bytes_of files.now)) }
{
    let mut ignores = Vec::new(alloc);
    add_all_comments(alloc, &mut ignores, &texts.files)?;
    add_all_files(alloc, &mut ignores, files)?;
    Ok(ignores)
}

/// Adds a note for each word of a comment of the configuration that is no kind. It fails only if memory runs out.
pub(crate) fn add_all_unknown(
    alloc: Global,
    notes: &mut Vec<Note>,
    files: &[TextFile],
) -> Result<(), AllocError>
    ensures { OnOk result (notes.new.items ≡ notes.old.items ++ unknown_of files.now) }
{
    let mut source = 0usize;
    let mut rest = files;
    while let Some((file, later)) = rest.split_first() {
        add_unknown(alloc, notes, source, &file.text)?;
        source += 1;
        rest = later;
    }
    Ok(())
}

//! Which lines of a machine's configuration have no effect, and which of its files are not read.
ghost use Rattle.std.specs.Prelude.{◌≡◌, ◌≤◌, false, true, IfOk, IsSome, OnOk};
ghost use Rattle.modprobe_words.specs.Variable.{bytes_of};
ghost use Rattle.gz_modprobe_drive.specs.Begun.{AreBegun, WritesFacts};
ghost use Rattle.gz_modprobe_drive.specs.Formed.{form_by};
ghost use Rattle.gz_modprobe_drive.specs.Linted.{AreTold, FoundNothing, IsSilent, IsUnnoted, WasLinted, origin_by, origins_of};
ghost use Rattle.gz_modprobe_drive.specs.Texts.{IsConfOf, index_of};
ghost use Rattle.gz_modprobe_drive.specs.Tree.{is_whole};

use crate::absences::certain_notes;
use crate::answering::tell_unwritten;
use crate::counted::is_noted;
use crate::folder::whole_index;
use crate::formed::{form_by, write_facts};
use crate::ignored::{IgnoreFiles, add_all_unknown, ignores_of, read_ignores};
use crate::judged::judge;
use crate::lint_facts::lint_facts;
use crate::masks::is_of_package;
use crate::missed::is_all_read;
use crate::parameters::known_parameters;
use crate::run::Run;
use crate::tree::Tree;
use crate::unread::unread_files;
use answer_facts::Fact;
use answer_reasons::UnreadFile;
use kmod_index::Index;
use lint_ignores::{Ignore, is_file_left, left_notes};
use machine_lint::{Known, Note, Origin, lint, unchecked};
use modprobe_files::{ConfTexts, LaterTexts, System, TextFile, is_of_folder, read_later};
use modprobe_words::{Form, Level, Messages};
use std::alloc::{AllocError, Global};
use std::io::Write;

fn origin_by(directory: &[u8], path: &[u8]) -> Origin
    ensures { result ≡ origin_by directory.now path.now }
{
    if is_of_folder(directory, path) {
        Origin::Depmod
    } else if is_of_package(path) {
        Origin::Package
    } else {
        Origin::Own
    }
}

fn origins_of(
    alloc: Global,
    directory: &[u8],
    files: &[TextFile],
) -> Result<Vec<Origin>, AllocError>
    ensures { IfOk result (λ origins. origins.items ≡ origins_of directory.now files.now) }
{
    let mut origins = Vec::new(alloc);
    for file in files {
        origins.push(origin_by(directory, &file.path))?;
    }
    Ok(origins)
}

fn write_found<O: Write, E: Write>(
    alloc: Global,
    form: Form,
    facts: &[Fact<'_>],
    output: &mut O,
    messages: &mut Messages<'_, E>,
) -> Result<(), AllocError>
    ensures silent { OnOk result (IsSilent facts.now (O.contents output.old) (O.contents output.new)) }
    ensures begun { WritesFacts form (O.contents output.old) (O.contents output.new) }
{
    if facts.is_empty() {
        return Ok(());
    }
    let written = write_facts(alloc, form, facts, output)?;
    tell_unwritten(written, messages);
    Ok(())
}

/// The notes that are told, in the order of their places. Where the texts of the folder of modules are not whole, nothing is told
/// that they might take away.
fn told_notes(
    alloc: Global,
    texts: &ConfTexts,
    known: &Known<'_>,
    ignores: &[Ignore],
    is_whole: bool,
) -> Result<Vec<Note>, AllocError>
    ensures { IfOk result (λ notes. AreTold is_whole texts.now known.now ignores.now notes.items) }
{
    let mut all = certain_notes(is_whole, lint(alloc, known)?);
    add_all_unknown(alloc, &mut all, &texts.files)?;
    let paths = texts.paths(alloc)?;
    let mut notes = left_notes(&paths, ignores, all);
    notes.sort_by_key(|note| (note.place.source, note.place.line))?;
    Ok(notes)
}

/// The files that are not read and that no ignore names.
fn left_files(ignores: &[Ignore], files: Vec<UnreadFile>) -> Vec<UnreadFile> {
    let mut files = files;
    files.retain(|file| is_file_left(ignores, &file.path, file.reason.word()));
    files
}

/// Returns whether anything is told that counts for the status.
fn write_lint<S: System, O: Write, E: Write>(
    run: &Run<'_, S>,
    known: &Known<'_>,
    ignores: &[Ignore],
    is_whole: bool,
    output: &mut O,
    messages: &mut Messages<'_, E>,
) -> Result<bool, AllocError>
    ensures nothing { IfOk result (λ noted. noted ≡ false → FoundNothing is_whole run.now.asked.now.switches.strict run.now.texts.now known.now ignores.now (O.contents output.old) (O.contents output.new)) }
    ensures begun { WritesFacts (form_by run.now.asked.now.switches.explain) (O.contents output.old) (O.contents output.new) }
{
    let alloc = run.host.alloc();
    let notes = told_notes(alloc, run.texts, known, ignores, is_whole)?;
    let unread = left_files(ignores, unread_files(run)?);
    let facts = lint_facts(alloc, run.texts, ignores, &notes, &unread)?;
    let form = form_by(run.asked.switches.explain);
    write_found(alloc, form, &facts, output, messages)?;
    Ok(is_noted(run.asked.switches.strict, &notes, &facts))
}

#[derive(Clone, Copy)]
struct Linted {
    /// Whether anything is told that counts for the status.
    is_noted: bool,
    /// How many lines set parameters that could not be checked.
    unchecked: usize,
}

fn tell_unchecked<E: Write>(
    alloc: Global,
    unchecked: usize,
    messages: &mut Messages<'_, E>,
) -> Result<(), AllocError> {
    if unchecked > 0 {
        let text =
            b"lines whose parameters are not checked, since the module's file is compressed or cannot be read: ";
        let count = format!(in alloc; "{}", unchecked)?;
        messages.tell(Level::Notice, text, count.as_bytes(), b"", b"");
    }
    Ok(())
}

fn lint_texts<S: System, O: Write, E: Write>(
    run: &Run<'_, S>,
    later: &LaterTexts,
    index: &Index<'_>,
    tree: &Tree<'_>,
    files: &[Vec<u8>],
    output: &mut O,
    messages: &mut Messages<'_, E>,
) -> Result<Linted, AllocError>
    requires conf { IsConfOf run.now.texts.now run.now.conf.now }
    requires index { index.now ≡ index_of run.now.modules.now later.now }
    requires alias { IsSome later.now.alias }
    requires symbols { IsSome later.now.symbols }
    ensures well { IfOk result (λ linted. linted.is_noted ≡ false → IsUnnoted (is_whole tree.now) run.now.asked.now.switches.strict linted.unchecked run.now.texts.now run.now.modules.now later.now (O.contents output.old) (O.contents output.new)) }
    ensures begun { WritesFacts (form_by run.now.asked.now.switches.explain) (O.contents output.old) (O.contents output.new) }
{
    let alloc = run.host.alloc();
    let ignores = ignores_of(alloc, run.texts, files)?;
    let origins = origins_of(alloc, tree.directory, &run.texts.files)?;
    let parameters = known_parameters(run.host, tree.directory, run.conf, index)?;
    let known = Known {
        conf: run.conf,
        index,
        files: &origins,
        parameters: &parameters,
    };
    let places = unchecked(alloc, &known)?;
    let is_noted = write_lint(run, &known, &ignores, tree.is_whole(), output, messages)?;
    Ok(Linted {
        is_noted,
        unchecked: places.len(),
    })
}

/// Whether all was read: what a lint looks at, and the files of ignores.
fn are_all_read<S: System, E: Write>(
    run: &Run<'_, S>,
    ignores: &IgnoreFiles,
    messages: &mut Messages<'_, E>,
) -> Result<bool, AllocError> {
    let is_read = is_all_read(run, messages)?;
    Ok(is_read && ignores.are_read)
}

/// Looks for lines of the configuration that have no effect on the machine, and for files that are not read, and writes those
/// that nobody ignores in the form that is asked for. Returns the status: 0 if none counts, 1 if some do, and 2 if not all was read that is
/// needed, or a text of the folder of modules is damaged, or if there are none and what a line sets could not be checked.
/// `messages` explains, so that hidden files are known.
pub(crate) fn lint_machine<S: System, O: Write, E: Write>(
    run: &Run<'_, S>,
    output: &mut O,
    messages: &mut Messages<'_, E>,
) -> Result<u8, AllocError>
    requires kmod { run.now.texts.now.kmod ≡ run.now.asked.now.kmod }
    requires conf { IsConfOf run.now.texts.now run.now.conf.now }
    ensures status { IfOk result (λ status. status ≤ 2) }
    ensures well { IfOk result (λ status. status ≡ 0 → WasLinted run.now.asked.now.kmod run.now.asked.now.switches.strict (O.contents output.old) (O.contents output.new)) }
    ensures begun { WritesFacts (form_by run.now.asked.now.switches.explain) (O.contents output.old) (O.contents output.new) }
{
    let host = run.host;
    let later = read_later(host, run.directory, true, messages)?;
    let tree = Tree::of(host, run.directory, run.modules, &later)?;
    let index = whole_index(host.alloc(), run.modules, &later)?;
    let ignores = read_ignores(run, messages)?;
    let linted = lint_texts(run, &later, &index, &tree, &ignores.texts, output, messages)?;
    let is_read = are_all_read(run, &ignores, messages)?;
    tell_unchecked(host.alloc(), linted.unchecked, messages)?;
    judge(
        host,
        &tree,
        is_read,
        linted.is_noted,
        linted.unchecked,
        messages,
    )
}

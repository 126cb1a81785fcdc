//! Files of packages that an empty file of their name masks, as a link to /dev/null is. That is meant so, and no fault.
ghost use Rattle.std.specs.Prelude.{◌≡◌, ◌++◌, OnOk};
ghost use Rattle.answer_facts.specs.Facts.{pieces_of_fact, pieces_of_facts};
ghost use Rattle.answer_reasons.specs.FileFacts.{hidden_file};
ghost use Rattle.gz_modprobe_drive.specs.Masks.{hidden_note, hidden_notes, is_empty_at, is_masked, is_quiet};
ghost use Rattle.gz_modprobe_drive.specs.Origins.{is_of_package};

use answer_facts::{Fact, FileFact, Spot, What};
use lint_ignores::{Ignore, is_file_left};
use modprobe_files::{ConfTexts, HiddenFile, TextFile};
use std::alloc::AllocError;
use text_parts::is_same;

/// Whether a path is that of a file in a folder which packages alone fill.
pub(crate) fn is_of_package(path: &[u8]) -> bool
    ensures { result ≡ is_of_package path.now }
{
    path.starts_with(b"/usr/lib/modprobe.d/") || path.starts_with(b"/lib/modprobe.d/")
}

fn is_empty_at(files: &[TextFile], path: &[u8]) -> bool
    ensures { result ≡ is_empty_at files.now path.now }
{
    files
        .iter()
        .any(|file| is_same(&file.path, path) && file.text.is_empty())
}

/// Whether a file of a package gives way to an empty one.
fn is_masked(files: &[TextFile], file: &HiddenFile) -> bool
    ensures { result ≡ is_masked files.now file.now }
{
    is_of_package(&file.path) && is_empty_at(files, &file.by)
}

/// Whether a hidden file is not told: it is masked, or ignored.
fn is_quiet(files: &[TextFile], ignores: &[Ignore], file: &HiddenFile) -> bool
    ensures { result ≡ is_quiet files.now ignores.now file.now }
{
    is_masked(files, file) || !is_file_left(ignores, &file.path, b"hidden")
}

fn fact_of_hidden(file: &HiddenFile) -> Fact<'_>
    ensures { pieces_of_fact result ≡ hidden_file file.entry.now }
{
    Fact {
        whom: &file.path,
        what: What::File(FileFact::Hidden(&file.by)),
        spot: Spot::Nowhere,
    }
}

/// Adds what is said of a hidden file, unless it is quiet.
fn add_one<'a>(
    files: &[TextFile],
    ignores: &[Ignore],
    file: &'a HiddenFile,
    facts: &mut Vec<Fact<'a>>,
) -> Result<(), AllocError>
    ensures { OnOk result (pieces_of_facts facts.new.items ≡ pieces_of_facts facts.old.items ++ hidden_note files.now ignores.now file.entry.now) }
{
    if !is_quiet(files, ignores, file) {
        facts.push(fact_of_hidden(file))?;
    }
    Ok(())
}

/// Adds a fact for each file that another one of its name hides and that is neither masked nor ignored, in their order. It fails only if
/// memory runs out.
pub(crate) fn add_unmasked<'a>(
    texts: &'a ConfTexts,
    ignores: &[Ignore],
    facts: &mut Vec<Fact<'a>>,
) -> Result<(), AllocError>
    ensures { OnOk result (pieces_of_facts facts.new.items ≡ pieces_of_facts facts.old.items ++ hidden_notes texts.entry.now ignores.now) }
{
    let hidden = texts.hidden.as_slice();
    for file in hidden {
        add_one(&texts.files, ignores, file, facts)?;
    }
    Ok(())
}

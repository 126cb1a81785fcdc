//! Words that are paths of modules' files, and what stands there.
ghost use Rattle.std.specs.Prelude.{◌≡◌, IfOk};
ghost use Rattle.text_parts.specs.Text.{texts_of};
ghost use Rattle.gz_modprobe_drive.specs.Paths.{is_path, names_of, paths_of, words_of};

use crate::current::is_adrift;
use kmod_names::Text;
use kmod_query::{Ask, AtPath, PathWord, Query};
use kmod_version::Kmod;
use modprobe_files::{Host, System, absolute_path, reason};
use std::alloc::AllocError;
use std::io::ErrorKind;

const NO_FILE: &[u8] = b"No such file or directory";

const NO_CURRENT_FOLDER: &[u8] = b"The current folder is not known";

fn is_path(kmod: Kmod, word: &[u8]) -> bool
    ensures { result ≡ is_path kmod word.now }
{
    kmod.takes_paths() && (word.starts_with(b"/") || word.starts_with(b"./"))
}

fn names_of<'a>(query: &Query<'a>) -> &'a [&'a [u8]]
    ensures { texts_of result.now ≡ names_of query.now }
{
    match query.ask {
        Ask::ShowDepends | Ask::DryRun | Ask::Resolve => {
            if query.all || query.words.is_empty() {
                query.words
            } else {
                &query.words[..1]
            }
        }
        Ask::Remove | Ask::ShowRemoval | Ask::ShowConfig => &query.words[..0],
    }
}

/// What stands at a path. A folder is taken for a file; what ends with a slash has no name.
fn at_path<S: System>(host: &Host<'_, S>, word: &[u8]) -> Result<AtPath, AllocError> {
    let alloc = host.alloc();
    if is_adrift(host, word)? {
        return Ok(AtPath::Nothing(Text::new(alloc, NO_CURRENT_FOLDER)?));
    }
    match host.look(word) {
        Ok(_) if word.ends_with(b"/") => Ok(AtPath::Nothing(Text::new(alloc, NO_FILE)?)),
        Ok(_) => Ok(AtPath::File(Text::of(absolute_path(host, word)?))),
        Err(error) if error.kind() == ErrorKind::OutOfMemory => Err(AllocError),
        Err(error) => Ok(AtPath::Nothing(Text::new(alloc, reason(&error))?)),
    }
}

/// The paths among the names of a query, and what stands there. It fails only if memory runs out.
pub(crate) fn read_paths<S: System>(
    host: &Host<'_, S>,
    kmod: Kmod,
    query: &Query<'_>,
) -> Result<Vec<PathWord>, AllocError>
    ensures { IfOk result (λ paths. words_of paths.items ≡ paths_of kmod query.now) }
{
    let mut paths = Vec::new(host.alloc());
    let names = names_of(query);
    for word in names {
        if is_path(kmod, word) {
            paths.push(PathWord {
                word: Text::new(host.alloc(), word)?,
                at: at_path(host, word)?,
            })?;
        }
    }
    Ok(paths)
}

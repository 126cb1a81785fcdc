//! What is not to be noted.
ghost use Rattle.std.specs.Prelude.{◌≡◌, IfOk};
ghost use Rattle.text_parts.specs.Text.{texts_of};
ghost use Rattle.lint_ignores.specs.Ignores.{ignore_at, is_at, names_file, names_note, path_of, stands_for};

use answer_facts::because;
use kmod_names::{Place, Text};
use machine_lint::Note;
use std::alloc::{AllocError, Global};
use text_parts::is_same;

/// What is not to be noted: of the line at this place, or of any; of a file; of a kind; of a name. `*` stands for any.
#[derive(Drop)]
pub struct Ignore {
    pub place: Option<Place>,
    pub file: Text,
    pub kind: Text,
    pub name: Text,
}

/// Whether a word that was given stands for another one.
fn stands_for(asked: &[u8], own: &[u8]) -> bool
    ensures { result ≡ stands_for asked.now own.now }
{
    is_same(asked, b"*") || is_same(asked, own)
}

fn is_at(place: Option<Place>, own: Place) -> bool
    ensures { result ≡ is_at place own }
{
    match place {
        Some(place) => place.source == own.source && place.line == own.line,
        None => true,
    }
}

/// The path of the text of a number; empty if there is none.
fn path_of<'a>(paths: &[&'a [u8]], source: usize) -> &'a [u8]
    ensures { result.now ≡ path_of (texts_of paths.now) source }
{
    match paths.get(source) {
        Some(path) => *path,
        None => b"",
    }
}

impl Ignore {
    /// That a kind is ignored of the line of a number.
    pub(crate) fn at(
        alloc: Global,
        source: usize,
        number: usize,
        kind: &[u8],
    ) -> Result<Ignore, AllocError>
        ensures { IfOk result (λ ignore. ignore ≡ ignore_at source number kind.now) }
    {
        let place = Place {
            source,
            line: number,
        };
        Ok(Ignore {
            place: Some(place),
            file: Text::new(alloc, b"*")?,
            kind: Text::new(alloc, kind)?,
            name: Text::new(alloc, b"*")?,
        })
    }

    /// Whether it names a note of a line of these texts.
    pub(crate) fn names_note(&self, paths: &[&[u8]], note: &Note) -> bool
        ensures { result ≡ names_note (texts_of paths.now) note.now self.now }
    {
        is_at(self.place, note.place)
            && stands_for(self.file.as_bytes(), path_of(paths, note.place.source))
            && stands_for(self.kind.as_bytes(), because(note.setting, &note.kind))
            && stands_for(self.name.as_bytes(), note.name.as_bytes())
    }

    /// Whether it names a file that is not read for this reason.
    pub(crate) fn names_file(&self, path: &[u8], reason: &[u8]) -> bool
        ensures { result ≡ names_file path.now reason.now self.now }
    {
        self.place.is_none()
            && stands_for(self.file.as_bytes(), path)
            && stands_for(self.kind.as_bytes(), reason)
            && is_same(self.name.as_bytes(), b"*")
    }
}

//! A line of modules.dep.
ghost use Rattle.std.specs.Prelude.{◌≡◌, map, IfOk};
ghost use Rattle.text_parts.specs.Text.{texts_of};
ghost use Rattle.kmod_names.specs.Names.{name_of_path};
ghost use Rattle.kmod_index.specs.Dependencies.{dependencies_of_line, name_of, needed_names};

use crate::parts::at_first;
use kmod_names::{Text, name_of_path};
use std::alloc::{AllocError, Global};
use std::marker::Model;
use text_parts::words;

/// A line of modules.dep, where it stands: the path of a module's file, and the paths of the modules that it needs.
#[derive(Drop)]
pub struct DepLine<'a> {
    path: &'a [u8],
    needs: &'a [u8],
    number: usize,
}

impl<'a> Model for DepLine<'a> {
    ghost use Rattle.text_parts.specs.Text.{words};
    ghost use Rattle.kmod_index.specs.Dependencies.{Dependencies};

    ghost Value = { Dependencies };

    ghost view = { λ line. record { path = line.path.now; needs = words line.needs.now; number = line.number } };
}

/// The names of the modules in the paths.
fn names_of(alloc: Global, paths: &[&[u8]]) -> Result<Vec<Text>, AllocError>
    ensures { IfOk result (λ names. names.items ≡ map name_of_path (texts_of paths.now)) }
{
    let mut names = Vec::with_capacity(alloc, paths.len())?;
    for path in paths {
        names.push(name_of_path(alloc, path)?)?;
    }
    Ok(names)
}

impl<'a> DepLine<'a> {
    /// The line of this number, from 1, None if it has no colon.
    pub(crate) fn read(number: usize, line: &'a [u8]) -> Option<DepLine<'a>>
        ensures { result ≡ dependencies_of_line (number, line.entry.now) }
    {
        let (path, needs) = at_first(b':', line)?;
        Some(DepLine {
            path,
            needs,
            number,
        })
    }

    /// The same line.
    pub(crate) fn again(&self) -> DepLine<'a>
        ensures { result ≡ self.now }
    {
        DepLine {
            path: self.path,
            needs: self.needs,
            number: self.number,
        }
    }

    /// The path of the module's file, as it stands: below the folder of modules.dep, or from the root if it begins
    /// with `/`.
    pub fn path(&self) -> &'a [u8]
        ensures { result.now ≡ self.now.path }
    {
        self.path
    }

    /// The number of the line, from 1.
    pub fn number(&self) -> usize
        ensures { result ≡ self.now.number }
    {
        self.number
    }

    /// The name of the module. It fails only if memory runs out.
    pub fn name(&self, alloc: Global) -> Result<Text, AllocError>
        ensures { IfOk result (λ name. name ≡ name_of self.now) }
    {
        name_of_path(alloc, self.path())
    }

    /// The names of the modules that it needs, in the order in which they are loaded: the last of the line first. It fails
    /// only if memory runs out.
    pub fn needed_names(&self, alloc: Global) -> Result<Vec<Text>, AllocError>
        ensures { IfOk result (λ names. names.items ≡ needed_names self.now) }
    {
        let needs = words(alloc, self.needs)?;
        let mut names = names_of(alloc, &needs)?;
        names.reverse();
        Ok(names)
    }
}

/// A line of modules.dep that owns its text.
#[derive(Drop)]
pub(crate) struct OwnedLine {
    path: Text,
    needs: Text,
    number: usize,
}

impl Model for OwnedLine {
    ghost use Rattle.text_parts.specs.Text.{words};
    ghost use Rattle.kmod_index.specs.Dependencies.{Dependencies};

    ghost Value = { Dependencies };

    ghost view = { λ line. record { path = line.path; needs = words line.needs; number = line.number } };
}

impl OwnedLine {
    /// The line of this number, from 1, None if it has no colon.
    pub(crate) fn read(
        alloc: Global,
        number: usize,
        line: &[u8],
    ) -> Result<Option<OwnedLine>, AllocError>
        ensures { IfOk result (λ read. read ≡ dependencies_of_line (number, line.now)) }
    {
        let Some((path, needs)) = at_first(b':', line) else {
            return Ok(None);
        };
        Ok(Some(OwnedLine {
            path: Text::new(alloc, path)?,
            needs: Text::new(alloc, needs)?,
            number,
        }))
    }

    /// The name of the module.
    pub(crate) fn name(&self, alloc: Global) -> Result<Text, AllocError>
        ensures { IfOk result (λ name. name ≡ name_of self.now) }
    {
        name_of_path(alloc, self.path.as_bytes())
    }

    /// The line, if it stands here.
    pub(crate) fn lent(&self) -> DepLine<'_>
        ensures { result ≡ self.now }
    {
        DepLine {
            path: self.path.as_bytes(),
            needs: self.needs.as_bytes(),
            number: self.number,
        }
    }
}

//! What a name stands for, by the list that has it.
ghost use Rattle.std.specs.Prelude.{◌≡◌, ◌∷◌, [], map, IfOk};
ghost use Rattle.kmod_index.specs.ForProofs.{pointed};
ghost use Rattle.kmod_query.specs.LookUp.{by_alias, by_one_alias, by_patterns};
ghost use Rattle.kmod_query.specs.Objects.{by_name, object_of, objects_of};
ghost use Rattle.kmod_query.specs.Reasons.{found_by};
ghost use Rattle.kmod_query.specs.World.{name_of, pair_of};

use crate::object::Object;
use kmod_index::{DepLine, IndexLine};
use kmod_names::AliasEntry;
use std::alloc::{AllocError, Global};

/// The first list that has a name, with its lines of that name.
pub enum Finding<'a> {
    /// Aliases of the configuration.
    Configured(Vec<&'a AliasEntry>),
    /// A line of modules.dep.
    Module(DepLine<'a>),
    /// Lines of modules.symbols.
    Exported(Vec<IndexLine>),
    /// The name of an install or a remove line.
    Commanded,
    /// Lines of modules.alias.
    Aliased(Vec<IndexLine>),
    /// A line of modules.builtin.
    BuiltIn,
    /// Entries of modules.builtin.modinfo.
    AliasedBuiltIn(Vec<IndexLine>),
    /// No list has the name.
    Nothing,
}

// By hand, since a derived drop is written out, and proved, at each place where a value is let go.
impl Drop for Finding<'_> {
    fn drop(self) {
        match self {
            Finding::Configured(_) => {}
            Finding::Module(_) => {}
            Finding::Exported(_) => {}
            Finding::Commanded => {}
            Finding::Aliased(_) => {}
            Finding::BuiltIn => {}
            Finding::AliasedBuiltIn(_) => {}
            Finding::Nothing => {}
        }
    }
}

/// The name itself.
fn itself(alloc: Global, name: &[u8]) -> Result<Vec<Object>, AllocError>
    ensures { IfOk result (λ objects. objects_of objects.items ≡ by_name name.now ∷ []) }
{
    let mut objects = Vec::new(alloc);
    objects.push(Object::by_name(alloc, name)?)?;
    Ok(objects)
}

fn object_by_alias(
    alloc: Global,
    name: &[u8],
    alias: &[u8],
    builtin: bool,
) -> Result<Object, AllocError>
    ensures { IfOk result (λ object. object_of object ≡ by_one_alias alias.now builtin name.now) }
{
    Ok(Object {
        name: Vec::from_slice(alloc, name)?,
        alias: Some(Vec::from_slice(alloc, alias)?),
        builtin,
    })
}

/// The targets of aliases of the configuration.
fn by_entries(alloc: Global, entries: &[&AliasEntry]) -> Result<Vec<Object>, AllocError>
    ensures { IfOk result (λ objects. objects_of objects.items ≡ by_patterns (map pair_of (pointed entries.now))) }
{
    let mut found = Vec::new(alloc);
    'entries: for entry in entries {
        let object = object_by_alias(
            alloc,
            entry.target.as_bytes(),
            entry.pattern.as_bytes(),
            false,
        )?;
        found.push(object)?;
    }
    Ok(found)
}

/// The modules of lines that an alias found.
fn by_lines(
    alloc: Global,
    alias: &[u8],
    builtin: bool,
    lines: &[IndexLine],
) -> Result<Vec<Object>, AllocError>
    ensures { IfOk result (λ objects. objects_of objects.items ≡ by_alias alias.now builtin (map name_of lines.now)) }
{
    let mut found = Vec::new(alloc);
    'lines: for line in lines {
        found.push(object_by_alias(alloc, line.name(), alias, builtin)?)?;
    }
    Ok(found)
}

impl Finding<'_> {
    /// The modules for which this name stands. It fails only if memory runs out.
    pub fn objects(&self, alloc: Global, name: &[u8]) -> Result<Vec<Object>, AllocError>
        ensures { IfOk result (λ objects. objects_of objects.items ≡ found_by name.now self.now) }
    {
        match self {
            Finding::Configured(entries) => by_entries(alloc, entries),
            Finding::Module(_) | Finding::Commanded | Finding::BuiltIn => itself(alloc, name),
            Finding::Exported(lines) => by_lines(alloc, name, false, lines),
            Finding::Aliased(lines) => by_lines(alloc, name, false, lines),
            Finding::AliasedBuiltIn(lines) => by_lines(alloc, name, true, lines),
            Finding::Nothing => Ok(Vec::new(alloc)),
        }
    }
}

//! What a name stands for, and which of such things a load has met.
ghost use Rattle.std.specs.Prelude.{◌≡◌, [], IfOk, OnOk, not};
ghost use Rattle.kmod_query.specs.Objects.{alias_of, by_name, has, is_same, object_of, object_with, with_object};

use indexmap::IndexSet;
use std::alloc::{AllocError, Global};
use std::marker::Model;

/// A module, and the alias by which it was found, if it was by one. `builtin` says that this was an alias of
/// modules.builtin.modinfo.
#[derive(PartialEq)]
pub struct Object {
    pub name: Vec<u8>,
    pub alias: Option<Vec<u8>>,
    pub builtin: bool,
}

// By hand, since a derived drop is written out, and proved, at each place where a value is let go.
impl Drop for Object {
    fn drop(self) {
        let Object {
            name: _,
            alias: _,
            builtin: _,
        } = self;
    }
}

/// The parts of an object, by which it is told from others.
type Key = (Vec<u8>, Option<Vec<u8>>, bool);

fn copy_alias(alloc: Global, alias: &Option<Vec<u8>>) -> Result<Option<Vec<u8>>, AllocError>
    ensures { IfOk result (λ copied. alias_of copied ≡ alias_of alias.now) }
{
    match alias {
        Some(text) => Ok(Some(Vec::from_slice(alloc, text)?)),
        None => Ok(None),
    }
}

impl Object {
    /// A module by its own name. It fails only if memory runs out.
    pub fn by_name(alloc: Global, name: &[u8]) -> Result<Object, AllocError>
        ensures { IfOk result (λ object. object_of object ≡ by_name name.now) }
    {
        Ok(Object {
            name: Vec::from_slice(alloc, name)?,
            alias: None,
            builtin: false,
        })
    }

    /// Whether both are the same module, found in the same way.
    pub(crate) fn is_same(&self, other: &Object) -> bool
        ensures { result ≡ is_same (object_of self.now) (object_of other.now) }
    {
        self == other
    }

    pub(crate) fn copy(&self, alloc: Global) -> Result<Object, AllocError>
        ensures { IfOk result (λ copied. object_of copied ≡ object_of self.now) }
    {
        Ok(Object {
            name: Vec::from_slice(alloc, &self.name)?,
            alias: copy_alias(alloc, &self.alias)?,
            builtin: self.builtin,
        })
    }

    fn into_key(self) -> Key
        ensures { object_with result ≡ object_of self }
    {
        let Object {
            name,
            alias,
            builtin,
        } = self;
        (name, alias, builtin)
    }
}

/// Objects that were met, each once.
#[derive(Drop)]
pub(crate) struct Met {
    objects: IndexSet<Key>,
}

impl Model for Met {
    ghost use Rattle.std.specs.Prelude.{List, map};
    ghost use Rattle.kmod_query.specs.Objects.{Object, object_with};

    ghost Value = { List Object };

    ghost view = { λ m. map object_with m.objects.keys };
}

impl Met {
    pub(crate) fn new(alloc: Global) -> Met
        ensures { result ≡ [] }
    {
        Met {
            objects: IndexSet::new(alloc),
        }
    }

    /// Whether the object is new here; it is here from now on.
    pub(crate) fn insert(&mut self, alloc: Global, object: &Object) -> Result<bool, AllocError>
        ensures new { IfOk result (λ new. new ≡ not (has self.old (object_of object.now))) }
        ensures met { OnOk result (self.new ≡ with_object self.old (object_of object.now)) }
    {
        let own = object.copy(alloc)?;
        let key = own.into_key();
        Ok(self.objects.insert(key)?)
    }
}

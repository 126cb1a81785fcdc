//! The soft items of modules, each module looked up once.
ghost use Rattle.std.specs.Prelude.{◌≡◌, IfOk, OnOk};
ghost use Rattle.kmod_query.specs.Facts.{Facts};
ghost use Rattle.kmod_query.specs.Lines.{has_soft_items};
ghost use Rattle.kmod_query.specs.Objects.{objects_of};
ghost use Rattle.kmod_query.specs.Stacks.{AreSoftLists, IsFound, IsSoft, side_of, soft_of};
ghost use Rattle.kmod_query.specs.World.{facts_of};

use crate::look_up::{Place, SoftItems, soft_items};
use crate::object::Object;
use crate::world::World;
use indexmap::IndexMap;
use std::alloc::{AllocError, Global};

/// An object of a list, and the index after it.
#[derive(Drop)]
pub(crate) struct Found {
    pub(crate) object: Object,
    pub(crate) next: usize,
}

/// The object at an index.
fn copy_at(alloc: Global, objects: &[Object], index: usize) -> Result<Option<Found>, AllocError>
    ensures { IfOk result (λ found. IsFound (objects_of objects.now) index found) }
{
    match objects.get(index) {
        Some(object) => Ok(Some(Found {
            object: object.copy(alloc)?,
            next: index + 1,
        })),
        None => Ok(None),
    }
}

/// The soft item at an index on one side.
fn copy_of(
    alloc: Global,
    items: &SoftItems,
    place: Place,
    index: usize,
) -> Result<Option<Found>, AllocError>
    ensures { IfOk result (λ found. IsFound (side_of place items.now) index found) }
{
    match place {
        Place::Before => copy_at(alloc, &items.before, index),
        Place::After => copy_at(alloc, &items.after, index),
    }
}

/// The soft items of modules that were looked up, by the modules' names.
#[derive(Drop)]
pub(crate) struct SoftLists {
    lists: IndexMap<Vec<u8>, SoftItems>,
}

impl SoftLists {
    pub(crate) fn new(alloc: Global) -> SoftLists
        ensures { (facts : Facts) → AreSoftLists facts result }
    {
        SoftLists {
            lists: IndexMap::new(alloc),
        }
    }

    fn keep(&mut self, alloc: Global, name: &[u8], items: SoftItems) -> Result<(), AllocError>
        ensures { OnOk result ((facts : Facts) → IsSoft facts name.now items → AreSoftLists facts self.old → AreSoftLists facts self.new) }
    {
        let key = Vec::from_slice(alloc, name)?;
        self.lists.insert(key, items)?;
        Ok(())
    }

    /// The soft item of a module at an index on one side.
    pub(crate) fn item(
        &mut self,
        alloc: Global,
        world: &World,
        place: Place,
        name: &[u8],
        index: usize,
    ) -> Result<Option<Found>, AllocError>
        ensures item { IfOk result (λ found. AreSoftLists (facts_of world.now) self.old → IsFound (soft_of (facts_of world.now) place name.now) index found) }
        ensures lists { OnOk result (AreSoftLists (facts_of world.now) self.old → AreSoftLists (facts_of world.now) self.new) }
    {
        if let Some(items) = self.lists.get(name) {
            return copy_of(alloc, items, place, index);
        }
        let items = soft_items(alloc, world, name)?;
        let found = copy_of(alloc, &items, place, index)?;
        self.keep(alloc, name, items)?;
        Ok(found)
    }

    /// Whether a module has soft items.
    pub(crate) fn has_items(
        &mut self,
        alloc: Global,
        world: &World,
        name: &[u8],
    ) -> Result<bool, AllocError>
        ensures has { IfOk result (λ has. AreSoftLists (facts_of world.now) self.old → has ≡ has_soft_items (facts_of world.now) name.now) }
        ensures lists { OnOk result (AreSoftLists (facts_of world.now) self.old → AreSoftLists (facts_of world.now) self.new) }
    {
        let before = self.item(alloc, world, Place::Before, name, 0)?.is_some();
        let after = self.item(alloc, world, Place::After, name, 0)?.is_some();
        Ok(before || after)
    }
}

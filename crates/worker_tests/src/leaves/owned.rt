//! A leaf and a reader with their row: gets of so many tries, and slots out of range.
ghost use Rattle.std.specs.Prelude.{◌≡◌, IfOk};
ghost use Rattle.std.specs.Arc.{arc_value};

use super::{Users, live_row};
use dep_index::GetError;
use module_table::{OwnLeaf, OwnReader};
use root_row::Row;
use std::alloc::{AllocError, Global};
use std::sync::Arc;
use std::test::Fail;

/// The row, for two owners.
fn shared(alloc: Global, row: Row) -> Result<(Arc<Row, Global>, Arc<Row, Global>), AllocError>
    ensures { IfOk result (λ r. (arc_value r.0 ≡ row) × (arc_value r.1 ≡ row)) }
{
    let one = Arc::new(alloc, row)?;
    let other = Arc::try_clone(&one)?;
    Ok((one, other))
}

/// A leaf and a reader of a row whose first module is live, with the row.
fn new_owned(alloc: Global) -> Result<(OwnLeaf, OwnReader), Fail> {
    let (row, _, users) = live_row(alloc)?;
    let (one, other) = shared(alloc, row)?;
    let Users {
        leaf,
        other: _,
        reader,
    } = users;
    Ok((OwnLeaf::new(leaf, one), OwnReader::new(reader, other)))
}

/// A first get needs a try, and a further one none.
fn takes_by_tries(leaf: &mut OwnLeaf) -> bool {
    matches!(leaf.try_get(0, 0), Some(None))
        && matches!(leaf.try_get(0, 1), Some(Some(Ok(()))))
        && matches!(leaf.try_get(0, 0), Some(Some(Ok(()))))
        && leaf.held(0) == Some(2)
}

/// A module that was never loaded, and a slot that the row does not have.
fn refuses(leaf: &mut OwnLeaf) -> bool {
    matches!(leaf.try_get(1, 1), Some(Some(Err(GetError::NotLive))))
        && matches!(leaf.try_get(2, 1), None)
}

/// The reader sees the module in use until the leaf gives its references back.
fn is_seen(leaf: &mut OwnLeaf, reader: &mut OwnReader) -> bool {
    reader.in_use(0) == Some(true)
        && matches!(leaf.put(0), Some(Ok(())))
        && matches!(leaf.put(0), Some(Ok(())))
        && reader.in_use(0) == Some(false)
        && reader.in_use(2) == None
}

fn is_right(leaf: &mut OwnLeaf, reader: &mut OwnReader) -> bool {
    takes_by_tries(leaf) && refuses(leaf) && is_seen(leaf, reader)
}

#[test]
fn takes_by_tries_and_is_seen(rt: HostRuntime) -> Result<(), Fail> {
    let (mut leaf, mut reader) = new_owned(rt.alloc())?;
    assert!(rt; is_right(&mut leaf, &mut reader));
    Ok(())
}

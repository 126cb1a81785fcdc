//! What is asked of a world.

use crate::query::Query;
use crate::world::World;
use std::alloc::Global;

/// A query, the world of which it asks, and the memory that its answer is made in.
#[derive(Clone, Copy)]
pub struct Asked<'a> {
    pub alloc: Global,
    pub world: World<'a>,
    pub query: Query<'a>,
}

//! Vectors of one value.
ghost use Rattle.std.specs.Prelude.{◌≡◌, replicate, IfOk};

use std::alloc::{AllocError, Global};

/// So many of one value. A plan fills tables with a value for each module of a catalogue, which `resize` does a tenth
/// faster than `vec!`.
pub(crate) fn filled<T: Copy + Drop>(
    alloc: Global,
    value: T,
    count: usize,
) -> Result<Vec<T>, AllocError>
    ensures { IfOk result (λ values. values.items ≡ replicate count value) }
{
    let mut values = Vec::with_capacity(alloc, count)?;
    values.resize(count, value)?;
    Ok(values)
}

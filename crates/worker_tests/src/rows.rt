//! What a test says of the first row of a table that is wrong.

use std::fmt::Debug;
use std::process::Abort;

/// Fails and names the row, if one is wrong.
pub(crate) fn none_is_wrong<R: Abort, T: Debug + Copy>(rt: &R, wrong: Option<T>) {
    assert!(rt; wrong.is_none(), "this row is wrong: {wrong:?}");
}

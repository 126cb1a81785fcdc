//! The setup that a folder's table stands on: a text that tells whether it was cut or changed, and a machine's catalogue.
#![tactic(auto)]

mod host;
mod sealed;
mod sums;

pub use host::host_catalogue;
pub use sealed::{Sealed, seal};
pub use sums::adler32;

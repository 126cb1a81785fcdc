//! A journal of text lines, each on the disk before it is acknowledged.
#![tactic(auto)]

mod device;
mod following;
mod gates;
mod journal;
mod kill_only;
mod line;
mod reading;
mod recovery;
mod renewable;
mod text;

pub use device::{Device, DeviceError};
pub use following::Followed;
pub use journal::Journal;
pub use kill_only::KillOnly;
pub use line::{are_lines, is_line};
pub use reading::{Found, look, peek, peek_from};
pub use recovery::{Opened, Recovered, Repair, open, open_found, recover};
pub use renewable::{Renewable, Renewed};

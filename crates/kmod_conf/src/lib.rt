//! Configuration, as kmod reads it: the files of modprobe.d, and the kernel's command line.
#![tactic(auto)]

mod bytes;
mod command_line;
mod conf;
mod entry;
mod line;
mod named_lines;
mod option_lines;
mod pattern_lines;
mod softdep;
mod wrapped_lines;

pub use conf::Conf;
pub use line::{NameLine, SoftdepLine, TextLine, WeakdepLine};
pub use softdep::{SoftItems, WeakItems};

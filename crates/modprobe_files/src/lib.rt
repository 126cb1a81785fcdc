//! The files of modprobe(8): which of them count, and what they hold.
#![tactic(auto)]

mod beside;
mod disk;
mod faults;
mod files;
mod hidden_files;
mod host;
mod kernel_folders;
mod laws;
mod machine;
mod releases;
mod sources;
mod system;
mod texts;
mod walk;
mod whole_files;

pub use beside::{is_of_folder, read_beside};
pub use disk::Disk;
pub use faults::{is_rootless, reason, tell_folder, tell_unread};
pub use files::{File, Name, Source, counted_files, is_read};
pub use host::{Host, joined};
pub use kernel_folders::{MODULES, holders_folder};
pub use laws::hidden_files_do_not_count;
pub use machine::{absolute_path, directory, read_configuration, read_later, read_modules};
pub use sources::paths_by_rank;
pub use system::{Entry, Kind, Place, System};
pub use texts::{COMMAND_LINE, ConfTexts, HiddenFile, LaterTexts, ModuleTexts, TextFile};
pub use walk::{Resolved, resolve};

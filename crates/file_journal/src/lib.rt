//! A journal's file in a folder, and the lock of that folder.
#![tactic(auto)]

mod belief;
mod calls;
mod device;
mod disk_file;
mod fault;
mod folder_names;
mod lock;
mod new_file;
mod overwrite;

pub use belief::Belief;
pub use device::{FileDevice, OpenError, Unopened};
pub use disk_file::Syncs;
pub use fault::{Action, Cause, FileFault, Target};
pub use folder_names::FolderNames;
pub use lock::{FolderLock, LockError, LockKind};
pub use new_file::{create_anew, create_like, create_private};

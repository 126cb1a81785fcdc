//! The configuration of modprobe(8): the lines of modprobe.d(5).
#![tactic(auto)]

mod conf;
mod entry;
mod idle;
mod joined_lines;
mod laws;
mod name_index;
mod settings;
mod softdep;
mod word;

pub use conf::{Conf, read_conf};
pub use idle::idle_settings;
pub use joined_lines::{Joined, JoinedLines};
pub use laws::settings_are_of_lines;
pub use settings::Settings;
pub use softdep::Softdep;
pub use word::Word;

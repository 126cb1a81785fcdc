//! A session over a table of modules: sections and command lines in, replies out.
#![tactic(auto)]

mod action;
mod alias_text;
mod aliases;
mod change;
mod command;
mod device;
mod fault;
mod half;
mod lines;
mod load;
mod piece;
mod plan;
mod refusal;
mod removal;
mod reply;
mod request;
mod runs;
mod section;
mod service;
mod session;
mod settling;
mod setup;
mod unwatched;
mod watch;
mod whole;

pub use aliases::AliasForm;
pub use device::{Failed, FromRead, FromWrite, Sink, Source};
pub use fault::{RunFault, ServeFault, SetupCode, SetupFault};
pub use half::Half;
pub use lines::{LONGEST_LINE, LineFault, Lines};
pub use piece::Buffer;
pub use refusal::{Code, Refusal};
pub use reply::Reply;
pub use runs::run_watched;
pub use section::{Section, Texts};
pub use service::{TURNS, serve_watched};
pub use session::Session;
pub use setup::{Setup, read_setup_watched};
pub use unwatched::{Unwatched, read_setup, run, serve};
pub use watch::{Refused, Watch};
pub use whole::read_whole_setup;

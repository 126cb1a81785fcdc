//! What all crates share: the calls on a module table and their replies, and the catalogue by slot.
#![tactic(auto)]

mod catalogue;
mod dependencies;
mod faults;
pub mod laws;
pub mod reads;
mod table;
pub mod words;

pub use catalogue::Catalogue;
pub use catalogue::params::{Param, ParamKind, Scalar};
pub use catalogue::text::read_catalogue;
pub use dependencies::DepIndex;
pub use dependencies::text::read_dep;
pub use faults::{CatError, DepError};
pub use table::book::Book;
pub use table::calls::{Call, Reply};
pub use table::refusals::{
    BeginDrainError, BeginLoadError, BeginRemoveError, CancelRemoveError, EndLoadError,
    EndRemoveError, GetError, PutError, Refusal,
};
pub use table::slots::Slots;
pub use table::states::ModuleState;
pub use text_parts::Name;
pub use words::{Outcome, WordStep};

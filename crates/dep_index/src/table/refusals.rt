//! Why a call is refused. What each refusal is as a `Reply` stands in specs/Refusals.antt. The errno names are those
//! that delete_module(2) and init_module(2) give for the same case.
ghost use Rattle.std.specs.Prelude.{◌≡◌};
ghost use Rattle.dep_index.specs.Refusals.{get_refusal, put_refusal, begin_load_refusal, end_load_refusal};
ghost use Rattle.dep_index.specs.Refusals.{begin_drain_refusal, begin_remove_refusal, end_remove_refusal, cancel_remove_refusal};

use crate::table::calls::Reply;
use thiserror::Error;

/// Why a call is refused, and what it answers then.
pub trait Refusal {
    ghost use Rattle.dep_index.specs.declared.table.calls.Reply.{Reply};

    // What each refusal is as a reply.
    ghost as_reply: { Self → Reply };

    /// The refusal as a reply.
    fn reply(self) -> Reply
        ensures { result ≡ as_reply self };
}

/// Why no reference is given, tested in this order.
#[derive(Clone, Copy, Debug, PartialEq, Eq, Drop, Error)]
pub enum GetError {
    /// The module is not Live.
    #[error("the module is not live")]
    NotLive,
    /// The worker holds 65,535 references to the module.
    #[error("the worker holds 65,535 references to the module")]
    TooMany,
}

impl Refusal for GetError {
    ghost as_reply = { get_refusal };

    fn reply(self) -> Reply {
        match self {
            GetError::NotLive => Reply::NotLive,
            GetError::TooMany => Reply::TooMany,
        }
    }
}

/// Why no reference is put back.
#[derive(Clone, Copy, Debug, PartialEq, Eq, Drop, Error)]
pub enum PutError {
    /// The worker holds no reference to the module.
    #[error("the worker holds no reference to the module")]
    NotHeld,
}

impl Refusal for PutError {
    ghost as_reply = { put_refusal };

    fn reply(self) -> Reply {
        match self {
            PutError::NotHeld => Reply::NotHeld,
        }
    }
}

/// Why no load begins, tested in this order.
#[derive(Clone, Copy, Debug, PartialEq, Eq, Drop, Error)]
pub enum BeginLoadError {
    /// The module is not Absent (EEXIST).
    #[error("the module is not absent")]
    Exists,
    /// The module needs a symbol that no module of the catalogue exports.
    #[error("the module needs a symbol that no module exports")]
    UnknownSymbol,
    /// The need in this slot is the first that is not Live.
    #[error("the module needs slot {0}, which is not live")]
    NeedNotLive(usize),
}

impl Refusal for BeginLoadError {
    ghost as_reply = { begin_load_refusal };

    fn reply(self) -> Reply {
        match self {
            BeginLoadError::Exists => Reply::Exists,
            BeginLoadError::UnknownSymbol => Reply::UnknownSymbol,
            BeginLoadError::NeedNotLive(need) => Reply::NeedNotLive(need),
        }
    }
}

/// Why no load ends.
#[derive(Clone, Copy, Debug, PartialEq, Eq, Drop, Error)]
pub enum EndLoadError {
    /// The module is not Loading.
    #[error("the module is not loading")]
    NotLoading,
}

impl Refusal for EndLoadError {
    ghost as_reply = { end_load_refusal };

    fn reply(self) -> Reply {
        match self {
            EndLoadError::NotLoading => Reply::NotLoading,
        }
    }
}

/// Why no drain begins, tested in this order.
#[derive(Clone, Copy, Debug, PartialEq, Eq, Drop, Error)]
pub enum BeginDrainError {
    /// The module is Absent (ENOENT).
    #[error("the module is absent")]
    NoEntry,
    /// A module of the table needs it (EWOULDBLOCK).
    #[error("a module needs it")]
    NeededBy,
    /// The module is not Live (EBUSY).
    #[error("the module is not live")]
    NotLive,
    /// The module is permanent (EBUSY).
    #[error("the module is permanent")]
    Permanent,
}

impl Refusal for BeginDrainError {
    ghost as_reply = { begin_drain_refusal };

    fn reply(self) -> Reply {
        match self {
            BeginDrainError::NoEntry => Reply::NoEntry,
            BeginDrainError::NeededBy => Reply::NeededBy,
            BeginDrainError::NotLive => Reply::NotLive,
            BeginDrainError::Permanent => Reply::Permanent,
        }
    }
}

/// Why no removal begins, tested in this order.
#[derive(Clone, Copy, Debug, PartialEq, Eq, Drop, Error)]
pub enum BeginRemoveError {
    /// The module is Absent (ENOENT).
    #[error("the module is absent")]
    NoEntry,
    /// A module of the table needs it (EWOULDBLOCK).
    #[error("a module needs it")]
    NeededBy,
    /// The module is not Live (EBUSY).
    #[error("the module is not live")]
    NotLive,
    /// The module is permanent (EBUSY).
    #[error("the module is permanent")]
    Permanent,
    /// There are references to the module (EWOULDBLOCK).
    #[error("there are references to the module")]
    InUse,
}

impl Refusal for BeginRemoveError {
    ghost as_reply = { begin_remove_refusal };

    fn reply(self) -> Reply {
        match self {
            BeginRemoveError::NoEntry => Reply::NoEntry,
            BeginRemoveError::NeededBy => Reply::NeededBy,
            BeginRemoveError::NotLive => Reply::NotLive,
            BeginRemoveError::Permanent => Reply::Permanent,
            BeginRemoveError::InUse => Reply::InUse,
        }
    }
}

impl From<BeginDrainError> for BeginRemoveError {
    ghost from_gives = { λ drain removal. begin_remove_refusal removal ≡ begin_drain_refusal drain };

    fn from(refusal: BeginDrainError) -> BeginRemoveError {
        match refusal {
            BeginDrainError::NoEntry => BeginRemoveError::NoEntry,
            BeginDrainError::NeededBy => BeginRemoveError::NeededBy,
            BeginDrainError::NotLive => BeginRemoveError::NotLive,
            BeginDrainError::Permanent => BeginRemoveError::Permanent,
        }
    }
}

/// Why no removal and no drain ends, tested in this order.
#[derive(Clone, Copy, Debug, PartialEq, Eq, Drop, Error)]
pub enum EndRemoveError {
    /// The module is neither Unloading nor Draining.
    #[error("the module is neither unloading nor draining")]
    NotUnloading,
    /// The module is Draining, and there are references to it (EWOULDBLOCK).
    #[error("there are references to the module")]
    InUse,
}

impl Refusal for EndRemoveError {
    ghost as_reply = { end_remove_refusal };

    fn reply(self) -> Reply {
        match self {
            EndRemoveError::NotUnloading => Reply::NotUnloading,
            EndRemoveError::InUse => Reply::InUse,
        }
    }
}

/// Why no removal and no drain is called off.
#[derive(Clone, Copy, Debug, PartialEq, Eq, Drop, Error)]
pub enum CancelRemoveError {
    /// The module is neither Unloading nor Draining.
    #[error("the module is neither unloading nor draining")]
    NotUnloading,
}

impl Refusal for CancelRemoveError {
    ghost as_reply = { cancel_remove_refusal };

    fn reply(self) -> Reply {
        match self {
            CancelRemoveError::NotUnloading => Reply::NotUnloading,
        }
    }
}

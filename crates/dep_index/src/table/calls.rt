//! The calls on a module table, and their replies.
ghost use Rattle.std.specs.Prelude.{◌≡◌, if◌then◌else◌};

use crate::table::refusals::Refusal;

/// A call on a module table. A slot is the place of a module in its catalogue, and workers are counted from 0.
#[derive(Clone, Copy, Debug, PartialEq, Eq, Drop)]
pub enum Call {
    /// The worker takes a reference to the module in the slot.
    Get(usize, usize),
    /// The worker puts a reference back.
    Put(usize, usize),
    /// Asks whether any worker holds a reference.
    InUse(usize),
    /// Begins a load (init_module(2)): the module is Loading then, and the newest.
    BeginLoad(usize),
    /// Ends a load: if it went well the module is Live, else it is Absent again.
    EndLoad(usize, bool),
    /// Takes no further reference to a Live module, which is Draining then.
    BeginDrain(usize),
    /// Begins a removal (delete_module(2)) of a Live module that nobody holds: it is Unloading then.
    BeginRemove(usize),
    /// Ends a removal, or the drain of a module that nobody holds any more: it is Absent then.
    EndRemove(usize),
    /// Calls off a removal or a drain: the module is Live again, and keeps its place and its references.
    CancelRemove(usize),
}

impl Call {
    ghost use Rattle.dep_index.specs.Calls.{slot_of};

    /// The slot that the call names.
    pub fn slot(self) -> usize
        ensures { result ≡ slot_of self }
    {
        match self {
            Call::Get(_, slot) | Call::Put(_, slot) | Call::EndLoad(slot, _) => slot,
            Call::InUse(slot)
            | Call::BeginLoad(slot)
            | Call::BeginDrain(slot)
            | Call::BeginRemove(slot)
            | Call::EndRemove(slot)
            | Call::CancelRemove(slot) => slot,
        }
    }
}

/// What a call answers. A refusal changes nothing.
#[derive(Clone, Copy, Debug, PartialEq, Eq, Drop)]
pub enum Reply {
    /// The call is made.
    Done,
    /// Some worker holds a reference.
    Yes,
    /// No worker holds a reference.
    No,
    /// A get, a drain or a removal of a module that is not Live.
    NotLive,
    /// A get by a worker that holds 65,535 references to the module.
    TooMany,
    /// A put by a worker that holds no reference to the module.
    NotHeld,
    /// A load of a module that is not Absent.
    Exists,
    /// A load of a module that needs a symbol which no module exports.
    UnknownSymbol,
    /// A load of a module whose need in this slot is not Live; it is the first such need.
    NeedNotLive(usize),
    /// The end of a load of a module that is not Loading.
    NotLoading,
    /// A drain or a removal of a module that is Absent.
    NoEntry,
    /// A drain or a removal of a module that another module of the table needs.
    NeededBy,
    /// A drain or a removal of a module that the catalogue calls permanent.
    Permanent,
    /// A removal, or the end of a drain, of a module to which there are references.
    InUse,
    /// A removal is ended or called off, of a module that is neither Unloading nor Draining.
    NotUnloading,
}

impl Reply {
    ghost use Rattle.dep_index.specs.Refusals.{reply_of, refusal_of};

    /// What a call answers that came to this.
    pub fn of<E: Refusal>(outcome: Result<(), E>) -> Reply
        ensures { result ≡ reply_of E.as_reply outcome }
    {
        match outcome {
            Ok(()) => Reply::Done,
            Err(refusal) => refusal.reply(),
        }
    }

    /// What a call answers that is refused; None if it is not.
    pub fn of_refusal<E: Refusal>(refusal: Option<E>) -> Option<Reply>
        ensures { result ≡ refusal_of E.as_reply refusal }
    {
        match refusal {
            None => None,
            Some(refusal) => Some(refusal.reply()),
        }
    }

    /// What a query answers.
    pub fn of_query(in_use: bool) -> Reply
        ensures { result ≡ (if in_use then Reply.Yes else Reply.No) }
    {
        if in_use { Reply::Yes } else { Reply::No }
    }
}

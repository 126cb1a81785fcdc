//! What holds of the one-thread table, for every list of calls.

ghost use Rattle.dep_index.specs.Laws.{AlwaysLawful, RemovesUnused, StaysShut, CancelUndoes};
ghost use Rattle.dep_index.specs.History.{LegalIsSafe};
ghost use Rattle.dep_index.specs.Words.{WordStepsAreRight};

/// After every list of calls in range: the order has each module of the table once and no other, a pair names
/// a Live or Draining module and is held at most 65,535 times, and each need of a module of the table is Live.
pub fn always_lawful()
    ensures { AlwaysLawful }
{}

/// If `begin_remove` or `end_remove` answers Ok, no pair names the module, and it has no users.
pub fn removes_unused()
    ensures { RemovesUnused }
{}

/// After an Ok of `begin_remove`, `end_remove` or `begin_drain`, each `get` of the module answers NotLive, until it
/// is live again: up to the next `end_load` of it that is Ok and went well, or `cancel_remove` of it that is Ok.
pub fn stays_shut()
    ensures { StaysShut }
{}

/// A drain or a removal that answers Ok, and is called off by the next call, leaves the table as it was: the
/// `cancel_remove` answers Ok. The slot is in range.
pub fn cancel_undoes()
    ensures { CancelUndoes }
{}

/// Each call's first step on its slot's word is right, if the word belongs to the slot, and no call changes
/// the word that belongs to another slot.
pub fn word_steps_are_right()
    ensures { WordStepsAreRight }
{}

/// In every legal history a removal that answers Ok finds no reference and no user, and after a removal or a
/// drain that answers Ok no get of the module succeeds, until a load of it ends well or its removal is called off. If it
/// is called off with Ok, the module is Live and each worker holds what it held.
pub fn legal_is_safe()
    ensures { LegalIsSafe }
{}

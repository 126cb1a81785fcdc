//! What holds of one list of commands.
ghost use Rattle.tenures.specs.Kept.{RemovalsFindNoHolder};

/// If each command of a list keeps what was held before it, a command that takes a module away found no holder of it.
pub fn removals_find_no_holder()
    ensures { RemovalsFindNoHolder }
{}

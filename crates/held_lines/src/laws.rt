//! What holds of lines.
ghost use Rattle.held_lines.specs.Laws.{HoldsAll};

/// After a hold that is done its holder holds each of its modules.
pub fn holds_all()
    ensures { HoldsAll }
{}

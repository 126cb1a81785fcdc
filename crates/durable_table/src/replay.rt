//! What a journal's lines make of a table.
ghost use Rattle.std.specs.Prelude.{◌≡◌, true, false, map, drop, IfSome, IfNone, OnOk};
ghost use Rattle.line_journal.specs.Lines.{bytes_of};
ghost use Rattle.held_lines.specs.Outcomes.{after};
ghost use Rattle.durable_table.specs.Seals.{are_sealed};
ghost use Rattle.durable_table.specs.Commands.{first_unsealed};

use crate::seal::{command_of, is_sealed, link_of};
use held_lines::HeldSession;
use std::alloc::{AllocError, Global};

/// The number of the first line that is not sealed with what the one before it tells; the first is to be sealed with this
/// link. The lines are those behind the first one of a journal, so they begin with number 2.
pub(crate) fn first_changed(link: &[u8], lines: &[Vec<u8>]) -> Option<usize>
    ensures number { result ≡ first_unsealed 2 link.now (bytes_of lines.now) }
    ensures none { IfNone result (are_sealed link.now (bytes_of lines.now) ≡ true) }
    ensures some { IfSome result (λ _. are_sealed link.now (bytes_of lines.now) ≡ false) }
{
    let mut link = link;
    for place in 0..lines.len() {
        if !is_sealed(link, &lines[place]) {
            return Some(place + 2);
        }
        link = link_of(&lines[place]);
    }
    None
}

/// Makes what the command of each line asks for, one after another.
pub(crate) fn replay(
    alloc: Global,
    session: &mut HeldSession<'_>,
    lines: &[Vec<u8>],
) -> Result<(), AllocError>
    ensures after { OnOk result (session.new.holders.held
        ≡ after session.old.setup.now session.old.holders.held (map (drop 17) (bytes_of lines.now))) }
    ensures setup { session.new.setup ≡ session.old.setup }
{
    for line in lines {
        session.replay(alloc, command_of(line))?;
    }
    Ok(())
}

//! What a session answers over the table: its lines, and halves of loads and removals.
ghost use Rattle.std.specs.Prelude.{◌≡◌, true, false, IfOk, OnOk, OnErr};
ghost use Rattle.dep_index.specs.Catalogue.{modules_of};
ghost use Rattle.modprobe.specs.Session.{half_outcome, line_outcome};
ghost use Rattle.held_lines.specs.Lines.{as_session, asked_of};
ghost use Rattle.held_lines.specs.Outcomes.{on_table};
ghost use Rattle.held_lines.specs.ForProofs.{Answers};
ghost use Rattle.held_lines.specs.declared.through.Watch.TheVariants.{Changes};

use crate::book_copy::BookCopy;
use crate::reply::HeldReply;
use held_table::HeldTable;
use modprobe::{Half, Reply, Session, Setup};
use std::alloc::{AllocError, Global};
use text_parts::Name;

/// What is looked at to tell whether a line changed the table: its book, before and after, or nothing.
#[derive(Clone, Copy, Debug, PartialEq, Eq, Drop)]
pub(crate) enum Watch {
    Changes,
    Nothing,
}

/// The reply to a line that may have changed the table: nobody looked.
fn unwatched(reply: Reply) -> HeldReply
    ensures { result ≡ record { reply = reply; changed = true } }
{
    HeldReply {
        reply,
        changed: true,
    }
}

/// What a session replies to a line, which it makes. The holders stay.
fn reply_to(
    alloc: Global,
    setup: &Setup,
    holders: &mut HeldTable,
    line: &[u8],
) -> Result<Reply, AllocError>
    requires { holders.old.catalogue ≡ modules_of setup.now.catalogue }
    ensures says { IfOk result (λ reply. reply ≡ (line_outcome setup.now holders.old.held.table line.now).0) }
    ensures table { OnOk result (holders.new.held.table ≡ (line_outcome setup.now holders.old.held.table line.now).1) }
    ensures names { OnOk result (holders.new.held.names ≡ holders.old.held.names) }
    ensures unchanged { OnErr result (holders.new.held ≡ holders.old.held) }
    ensures over { holders.new.catalogue ≡ holders.old.catalogue }
{
    Session::new(setup, holders).reply(alloc, line)
}

/// What a session answers to a line.
pub(crate) fn as_session(
    alloc: Global,
    setup: &Setup,
    holders: &mut HeldTable,
    line: &[u8],
    watch: Watch,
) -> Result<HeldReply, AllocError>
    requires over { holders.old.catalogue ≡ modules_of setup.now.catalogue }
    requires asked { asked_of line.now ≡ as_session }
    ensures answers { IfOk result (λ r. Answers r holders.old.held holders.new.held
        (on_table holders.old.held (line_outcome setup.now holders.old.held.table line.now))) }
    ensures idle { watch ≡ Changes → IfOk result (λ r. (line_outcome setup.now holders.old.held.table line.now).1 ≡ holders.old.held.table → r.changed ≡ false) }
    ensures unchanged { OnErr result (holders.new.held ≡ holders.old.held) }
    ensures over { holders.new.catalogue ≡ holders.old.catalogue }
{
    match watch {
        Watch::Changes => {
            let before = BookCopy::of(alloc, holders)?;
            let reply = reply_to(alloc, setup, holders, line)?;
            let changed = !before.is_of(holders);
            Ok(HeldReply { reply, changed })
        }
        Watch::Nothing => {
            let reply = reply_to(alloc, setup, holders, line)?;
            Ok(unwatched(reply))
        }
    }
}

/// What a session replies to half of a load or of a removal, which it makes. The holders stay.
fn reply_to_half(
    alloc: Global,
    setup: &Setup,
    holders: &mut HeldTable,
    half: Half,
    name: &Name,
) -> Result<Reply, AllocError>
    requires { holders.old.catalogue ≡ modules_of setup.now.catalogue }
    ensures says { IfOk result (λ reply. reply ≡ (half_outcome setup.now name.now half holders.old.held.table).0) }
    ensures table { OnOk result (holders.new.held.table ≡ (half_outcome setup.now name.now half holders.old.held.table).1) }
    ensures names { OnOk result (holders.new.held.names ≡ holders.old.held.names) }
    ensures unchanged { OnErr result (holders.new.held ≡ holders.old.held) }
    ensures over { holders.new.catalogue ≡ holders.old.catalogue }
{
    Session::new(setup, holders).make_half(alloc, name, half)
}

/// Half of a load or of a removal of the module of a name.
pub(crate) fn make_half(
    alloc: Global,
    setup: &Setup,
    holders: &mut HeldTable,
    half: Half,
    name: &Name,
    watch: Watch,
) -> Result<HeldReply, AllocError>
    requires over { holders.old.catalogue ≡ modules_of setup.now.catalogue }
    ensures answers { IfOk result (λ r. Answers r holders.old.held holders.new.held
        (on_table holders.old.held (half_outcome setup.now name.now half holders.old.held.table))) }
    ensures idle { watch ≡ Changes → IfOk result (λ r. (half_outcome setup.now name.now half holders.old.held.table).1 ≡ holders.old.held.table → r.changed ≡ false) }
    ensures unchanged { OnErr result (holders.new.held ≡ holders.old.held) }
    ensures over { holders.new.catalogue ≡ holders.old.catalogue }
{
    match watch {
        Watch::Changes => {
            let before = BookCopy::of(alloc, holders)?;
            let reply = reply_to_half(alloc, setup, holders, half, name)?;
            let changed = !before.is_of(holders);
            Ok(HeldReply { reply, changed })
        }
        Watch::Nothing => {
            let reply = reply_to_half(alloc, setup, holders, half, name)?;
            Ok(unwatched(reply))
        }
    }
}

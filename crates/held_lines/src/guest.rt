//! A holder that takes references: if it is new, it comes in first.
ghost use Rattle.std.specs.Prelude.{◌≡◌, ◌<◌, false, nat_lt, length, Err, IfOk, OnErr, OnOk};
ghost use Rattle.held_table.specs.Names.{name_bytes};
ghost use Rattle.held_table.specs.Held.{number_of, entered};
ghost use Rattle.held_lines.specs.Held.{let_out};

use held_table::{EnterError, HeldTable, HolderName};

/// A holder that is there, and whether it has just come in.
#[derive(Clone, Copy, Drop)]
pub(crate) struct Guest {
    pub(crate) number: usize,
    pub(crate) is_new: bool,
}

/// Lets a holder in, if it is not there.
pub(crate) fn let_in(holders: &mut HeldTable, holder: HolderName) -> Result<Guest, EnterError>
    ensures number { IfOk result (λ guest. guest.number ≡ number_of holders.old.held.names (name_bytes holder)) }
    ensures enters { OnOk result (holders.new.held ≡ entered holders.old.held (name_bytes holder)) }
    ensures below { IfOk result (λ guest. guest.number < length holders.new.held.table.rows) }
    ensures undone { IfOk result (λ guest. let_out guest.is_new guest.number holders.new.held ≡ holders.old.held) }
    ensures full { result ≡ Err EnterError.TooMany → nat_lt (number_of holders.old.held.names (name_bytes holder)) (length (entered holders.old.held (name_bytes holder)).table.rows) ≡ false }
    ensures unchanged { OnErr result (holders.new.held ≡ holders.old.held) }
    ensures over { holders.new.catalogue ≡ holders.old.catalogue }
{
    holders.holder_laws();
    let is_new = holders.number(&holder).is_none();
    let number = holders.enter(holder)?;
    holders.holder_laws();
    Ok(Guest { number, is_new })
}

/// Lets a holder out again that has just come in.
pub(crate) fn let_out(holders: &mut HeldTable, guest: Guest)
    requires { guest.number < length holders.old.held.table.rows }
    ensures settles { holders.new.held ≡ let_out guest.is_new guest.number holders.old.held }
    ensures over { holders.new.catalogue ≡ holders.old.catalogue }
{
    holders.holder_laws();
    if guest.is_new {
        holders.settle(guest.number);
    }
}

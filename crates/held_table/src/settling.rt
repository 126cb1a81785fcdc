//! Holders come in and go.
ghost use Rattle.std.specs.Prelude.{◌≡◌, ◌<◌, ◌≤◌, Err, length, IfOk, OnOk, OnErr};
ghost use Rattle.held_table.specs.Names.{name_bytes, EachOnce};
ghost use Rattle.held_table.specs.Held.{number_of, entered, settled, all_given_back};
ghost use Rattle.held_table.specs.declared.settling.EnterError.TheVariants.{Memory};

use crate::held_table::HeldTable;
use crate::name::HolderName;
use std::alloc::AllocError;
use thiserror::Error;

/// The most holders that there can be.
pub const MOST_HOLDERS: usize = 65536;

/// Why a holder does not come in.
#[derive(Clone, Copy, Debug, PartialEq, Eq, Drop, Error)]
pub enum EnterError {
    /// 65,536 holders are there.
    #[error("65,536 holders are there")]
    TooMany,
    #[error("out of memory")]
    Memory,
}

impl From<AllocError> for EnterError {
    ghost from_gives = { λ _ e. e ≡ Memory };

    fn from(_error: AllocError) -> EnterError {
        EnterError::Memory
    }
}

impl HeldTable {
    /// Each holder has a name and a row, no two have one name, and there are 65,536 at most. It does nothing, and is
    /// there for its contract.
    pub fn holder_laws(&self)
        ensures named { length self.now.held.names ≡ length self.now.held.table.rows }
        ensures once { EachOnce self.now.held.names }
        ensures bound { length self.now.held.names ≤ 65536 }
    {
        let _ = self.names.len();
    }

    /// The number of a holder. A new one comes in behind the others, and holds nothing. `TooMany`: it is new, and
    /// 65,536 are there. `Memory`: out of memory. Either leaves the table as it was.
    pub fn enter(&mut self, name: HolderName) -> Result<usize, EnterError>
        ensures number { IfOk result (λ number. number ≡ number_of self.old.held.names (name_bytes name)) }
        ensures below { IfOk result (λ number. number < length self.new.held.names) }
        ensures enters { OnOk result (self.new.held ≡ entered self.old.held (name_bytes name)) }
        ensures full { result ≡ Err EnterError.TooMany → number_of self.old.held.names (name_bytes name) ≡ 65536 }
        ensures stays { OnErr result (self.new.held ≡ self.old.held) }
        ensures over { self.new.catalogue ≡ self.old.catalogue }
    {
        if let Some(number) = self.names.number(&name) {
            return Ok(number);
        }
        let number = self.names.len();
        if number >= MOST_HOLDERS {
            return Err(EnterError::TooMany);
        }
        self.rows.push(&mut self.names, name)?;
        Ok(number)
    }

    /// A holder that holds nothing goes, and the last one takes its number. One that holds something stays.
    pub fn settle(&mut self, number: usize)
        requires { number < length self.old.held.names }
        ensures settles { self.new.held ≡ settled self.old.held number }
        ensures over { self.new.catalogue ≡ self.old.catalogue }
    {
        if self.rows.is_idle(number) {
            self.rows.remove(number);
            self.names.remove(number);
        }
    }

    /// A holder gives back all that it holds. It stays, and the others hold what they held.
    pub fn release(&mut self, number: usize)
        requires { number < length self.old.held.names }
        ensures table { self.new.held.table ≡ all_given_back number self.old.held.table }
        ensures names { self.new.held.names ≡ self.old.held.names }
        ensures over { self.new.catalogue ≡ self.old.catalogue }
    {
        self.rows.clear(number, self.slots.len());
    }
}

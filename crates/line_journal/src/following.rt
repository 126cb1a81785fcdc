//! A journal whose file other processes write to as well.
ghost use Rattle.std.specs.Prelude.{◌≡◌, ◌<◌, ◌≤◌, length, take, IfOk, OnOk};
ghost use Rattle.line_journal.specs.Device.{Unchanged, Goes, TellsFaults};
ghost use Rattle.line_journal.specs.Journal.{IsReady};
ghost use Rattle.line_journal.specs.Lines.{IsWhole};
ghost use Rattle.line_journal.specs.Renewed.{IsRead, IsFollowed, IsAdded};

use crate::reading::peek_from;
use crate::renewable::{Renewable, Renewed};
use crate::{Device, DeviceError, Journal};
use std::alloc::Global;

/// What others have made of a journal.
#[derive(Drop)]
pub enum Followed {
    /// They added these lines, and it reads as one at rest.
    AtRest(Vec<Vec<u8>>),
    /// It does not begin with the lines from before, or something stands behind its lines that is no closed gate: open it
    /// anew.
    Anew,
}

impl<D: Renewable> Journal<D> {
    /// The turn of this process begins: reads the lines that others have added since it had its turn, and no others. Nothing
    /// is written, and nothing is waited for.
    pub fn follow(&mut self, alloc: Global, turn: D::Turn) -> Result<Followed, DeviceError>
        requires read { IsRead D.content self.old }
        ensures followed { IfOk result (IsFollowed D.content self.old self.new) }
        ensures writes { D.writes self.new.device ≡ D.writes self.old.device }
        ensures looks { OnOk result (D.looks self.old.device < D.looks self.new.device) }
        ensures faults { TellsFaults (D.faults self.old.device) (D.faults self.new.device) result }
    {
        match self.device.renew(turn, self.end)? {
            Renewed::Same => Ok(Followed::AtRest(Vec::new(alloc))),
            Renewed::Longer => self.read_on(alloc),
            Renewed::Other => Ok(Followed::Anew),
        }
    }

    /// The turn of this process is over.
    pub fn rest(&mut self)
        ensures content { D.content self.new.device ≡ D.content self.old.device }
        ensures end { self.new.end ≡ self.old.end }
        ensures writes { D.writes self.new.device ≡ D.writes self.old.device }
        ensures looks { D.looks self.new.device ≡ D.looks self.old.device }
        ensures faults { D.faults self.new.device ≡ D.faults self.old.device }
    {
        self.device.rest();
    }

    /// Reads the lines behind those that were read before.
    fn read_on(&mut self, alloc: Global) -> Result<Followed, DeviceError>
        requires within { self.old.end ≤ length (D.content self.old.device) }
        requires whole { IsWhole (take self.old.end (D.content self.old.device)) }
        ensures added { IfOk result (IsAdded D.content self.old self.new) }
        ensures writes { D.writes self.new.device ≡ D.writes self.old.device }
        ensures looks { D.looks self.new.device ≡ D.looks self.old.device }
        ensures faults { TellsFaults (D.faults self.old.device) (D.faults self.new.device) result }
    {
        let found = peek_from(alloc, &mut self.device, self.end)?;
        if !found.is_at_rest() {
            return Ok(Followed::Anew);
        }
        self.end = found.end;
        Ok(Followed::AtRest(found.lines))
    }
}

impl<D: Device> Journal<D> {
    /// Waits until the journal is on the disk as it reads.
    pub fn settle(&mut self) -> Result<(), DeviceError>
        requires read { IsRead D.content self.old }
        ensures ready { OnOk result (IsReady D.content D.history self.new) }
        ensures content { D.content self.new.device ≡ D.content self.old.device }
        ensures end { self.new.end ≡ self.old.end }
        ensures crash { Goes Unchanged (D.history self.old.device) (D.history self.new.device) }
        ensures faults { TellsFaults (D.faults self.old.device) (D.faults self.new.device) result }
    {
        self.device.sync()
    }
}

//! A table that a process keeps while others use its journal.
ghost use Rattle.std.specs.Prelude.{◌≡◌, ◌<◌, Ok, map, true, IfOk, OnOk};
ghost use Rattle.line_journal.specs.Device.{Unchanged, Goes, TellsFaults};
ghost use Rattle.line_journal.specs.Lines.{bytes_of, AreLines};
ghost use Rattle.line_journal.specs.Journal.{lines_in};
ghost use Rattle.held_lines.specs.Outcomes.{after};
ghost use Rattle.durable_table.specs.Commands.{StaysOf};
ghost use Rattle.durable_table.specs.Durable.{Stands, Reads, ContinuesSealed};
ghost use Rattle.durable_table.specs.Groups.{replies_of};

use crate::durable::DurableTable;
use crate::group::make_each;
use crate::replay::{first_changed, replay};
use held_lines::HeldReply;
use line_journal::{Device, DeviceError, Followed, Renewable};
use std::alloc::{AllocError, Global};

/// Whether a table was brought up to what others made of its journal.
#[derive(Clone, Copy, Debug, PartialEq, Eq)]
pub enum CaughtUp {
    /// It is the table that the journal stands for now.
    Ready,
    /// It is another journal, or its end is torn, or a line does not continue the chain. The table is not the journal's: open it
    /// anew.
    Anew,
}

impl<'s, D: Renewable> DurableTable<'s, D> {
    /// The turn of this process begins: makes what the lines ask for that others have added to the journal since it had its
    /// turn, in memory. Only these are read. Nothing is written, and nothing is waited for: what was read may not be on the disk
    /// yet.
    ///
    /// If it is not `Ready`, or fails, nothing is said of the table: open it anew.
    pub fn catch_up(&mut self, alloc: Global, turn: D::Turn) -> Result<CaughtUp, DeviceError>
        requires reads { Reads D.content self.old.session.setup.now self.old.session.holders.held self.old.journal }
        ensures reads { result ≡ Ok CaughtUp.Ready → Reads D.content self.old.session.setup.now self.new.session.holders.held self.new.journal }
        ensures of { result ≡ Ok CaughtUp.Ready → StaysOf (lines_in D.content self.old.journal.lines) (lines_in D.content self.new.journal.lines) }
        ensures anew { result ≡ Ok CaughtUp.Anew → ContinuesSealed (D.content self.old.journal.lines.device) (D.content self.new.journal.lines.device) → ⊥ }
        ensures writes { D.writes self.new.journal.lines.device ≡ D.writes self.old.journal.lines.device }
        ensures looks { OnOk result (D.looks self.old.journal.lines.device < D.looks self.new.journal.lines.device) }
        ensures setup { self.new.session.setup ≡ self.old.session.setup }
        ensures faults { TellsFaults (D.faults self.old.journal.lines.device) (D.faults self.new.journal.lines.device) result }
    {
        let added = match self.journal.lines.follow(alloc, turn)? {
            Followed::AtRest(added) => added,
            Followed::Anew => return Ok(CaughtUp::Anew),
        };
        if first_changed(&self.journal.link, &added).is_some() {
            return Ok(CaughtUp::Anew);
        }
        replay(alloc, &mut self.session, &added)?;
        self.journal.link_to(added);
        Ok(CaughtUp::Ready)
    }

    /// The turn of this process is over. The table stays as it is, and reads as the journal was read.
    pub fn rest(&mut self)
        ensures content { D.content self.new.journal.lines.device ≡ D.content self.old.journal.lines.device }
        ensures end { self.new.journal.lines.end ≡ self.old.journal.lines.end }
        ensures link { self.new.journal.link ≡ self.old.journal.link }
        ensures session { self.new.session ≡ self.old.session }
        ensures writes { D.writes self.new.journal.lines.device ≡ D.writes self.old.journal.lines.device }
        ensures looks { D.looks self.new.journal.lines.device ≡ D.looks self.old.journal.lines.device }
        ensures faults { D.faults self.new.journal.lines.device ≡ D.faults self.old.journal.lines.device }
    {
        self.journal.lines.rest();
    }
}

impl<'s, D: Device> DurableTable<'s, D> {
    /// Waits until the journal is on the disk as it was read. Before that no line may be performed: a crash could lose what
    /// it was answered by.
    pub fn settle(&mut self) -> Result<(), DeviceError>
        requires reads { Reads D.content self.old.session.setup.now self.old.session.holders.held self.old.journal }
        ensures stands { OnOk result (Stands D.content D.history self.old.session.setup.now self.new.session.holders.held self.new.journal) }
        ensures session { self.new.session ≡ self.old.session }
        ensures content { D.content self.new.journal.lines.device ≡ D.content self.old.journal.lines.device }
        ensures end { self.new.journal.lines.end ≡ self.old.journal.lines.end }
        ensures crash { Goes Unchanged (D.history self.old.journal.lines.device) (D.history self.new.journal.lines.device) }
        ensures faults { TellsFaults (D.faults self.old.journal.lines.device) (D.faults self.new.journal.lines.device) result }
    {
        self.journal.lines.settle()
    }

    /// Answers lines in memory alone, one after another. The journal stays, so it is for lines that ask. Out of memory,
    /// nothing is said of the table.
    pub fn ask(&mut self, alloc: Global, lines: &[Vec<u8>]) -> Result<Vec<HeldReply>, AllocError>
        requires lines { AreLines (bytes_of lines.now) }
        ensures replies { IfOk result (λ replies. map (λ r. r.reply) replies.items ≡ replies_of self.old.session.setup.now self.old.session.holders.held (bytes_of lines.now)) }
        ensures becomes { OnOk result (self.new.session.holders.held
            ≡ after self.old.session.setup.now self.old.session.holders.held (bytes_of lines.now)) }
        ensures journal { self.new.journal ≡ self.old.journal }
        ensures setup { self.new.session.setup ≡ self.old.session.setup }
    {
        Ok(make_each(alloc, &mut self.session, &self.journal.link, lines)?.replies)
    }
}

//! A journal whose lines are one chain.
ghost use Rattle.std.specs.Prelude.{◌≡◌, ◌++◌, ◌∷◌, [], OnOk};
ghost use Rattle.line_journal.specs.Device.{AlwaysLeaves, TellsFaults};
ghost use Rattle.line_journal.specs.Journal.{lines_in, IsReady};
ghost use Rattle.line_journal.specs.Lines.{bytes_of, IsLine, AreLines, StandsWithOrWithout, StandsWithFirstOf, StandsForEither};
ghost use Rattle.durable_table.specs.Seals.{link_of, last_link};
ghost use Rattle.durable_table.specs.Commands.{link_behind};

use crate::seal::{DIGITS, link_of};
use line_journal::{Device, DeviceError, Journal};
use std::alloc::Global;

/// A journal, and what its last line tells the next one.
#[derive(Drop)]
pub struct Chained<D: Device> {
    pub(crate) lines: Journal<D>,
    pub(crate) link: Vec<u8>,
}

/// What the last of these lines tells the next one; this link, if there are none.
#[tactic(auto, using(crate::proofs::ChainLemmas::last_tells, crate::proofs::ChainLemmas::none_tells))]
pub(crate) fn last_link<'a>(link: &'a [u8], lines: &'a [Vec<u8>]) -> &'a [u8]
    ensures { result.now ≡ last_link link.now (bytes_of lines.now) }
{
    if lines.is_empty() {
        return link;
    }
    link_of(&lines[lines.len() - 1])
}

/// What the lines of a whole journal tell the next one.
#[tactic(auto, using(crate::proofs::ChainLemmas::whole_tells, crate::proofs::ChainLemmas::nothing_tells))]
pub(crate) fn link_behind(lines: &[Vec<u8>]) -> &[u8]
    ensures { result.now ≡ link_behind (bytes_of lines.now) }
{
    if lines.is_empty() {
        return &[];
    }
    last_link(&lines[0], &lines[1..])
}

impl<D: Device> Chained<D> {
    /// The last of these lines is the last one of the journal, if there are any.
    #[tactic(auto, using(crate::proofs::ChainLemmas::popped_tells, crate::proofs::ChainLemmas::none_tells))]
    pub(crate) fn link_to(&mut self, lines: Vec<Vec<u8>>)
        ensures link { self.new.link.items ≡ last_link self.old.link.items (bytes_of lines.items) }
        ensures lines { self.new.lines ≡ self.old.lines }
    {
        let mut lines = lines;
        if let Some(mut last) = lines.pop() {
            last.truncate(DIGITS);
            self.link = last;
        }
    }

    /// These lines are all those of the journal.
    #[tactic(auto, using(crate::proofs::ChainLemmas::popped_behind, crate::proofs::ChainLemmas::nothing_tells))]
    fn link_behind(&mut self, lines: Vec<Vec<u8>>)
        ensures link { self.new.link.items ≡ link_behind (bytes_of lines.items) }
        ensures lines { self.new.lines ≡ self.old.lines }
    {
        let mut lines = lines;
        let Some(mut last) = lines.pop() else {
            self.link.clear();
            return;
        };
        if !lines.is_empty() {
            last.truncate(DIGITS);
        }
        self.link = last;
    }

    /// Gives the device back.
    pub(crate) fn into_device(self) -> D
        ensures { result ≡ self.lines.device }
    {
        self.lines.into_device()
    }

    /// Adds a line, as `Journal::put` does.
    pub(crate) fn put(&mut self, alloc: Global, line: Vec<u8>) -> Result<(), DeviceError>
        requires ready { IsReady D.content D.history self.old.lines }
        requires line { IsLine line.items }
        ensures acknowledged { OnOk result (IsReady D.content D.history self.new.lines
            × (lines_in D.content self.new.lines ≡ lines_in D.content self.old.lines ++ line.items ∷ [])) }
        ensures link { OnOk result (self.new.link.items ≡ link_of line.items) }
        ensures any_moment { AlwaysLeaves (D.history self.old.lines.device) (D.history self.new.lines.device)
            (StandsWithOrWithout (lines_in D.content self.old.lines) line.items) }
        ensures faults { TellsFaults (D.faults self.old.lines.device) (D.faults self.new.lines.device) result }
    {
        let mut line = line;
        self.lines.put(alloc, &line)?;
        line.truncate(DIGITS);
        self.link = line;
        Ok(())
    }

    /// Adds a group of lines, as `Journal::put_group` does.
    pub(crate) fn put_group(
        &mut self,
        alloc: Global,
        lines: Vec<Vec<u8>>,
    ) -> Result<(), DeviceError>
        requires ready { IsReady D.content D.history self.old.lines }
        requires lines { AreLines (bytes_of lines.items) }
        ensures acknowledged { OnOk result (IsReady D.content D.history self.new.lines
            × (lines_in D.content self.new.lines ≡ lines_in D.content self.old.lines ++ bytes_of lines.items)) }
        ensures link { OnOk result (self.new.link.items ≡ last_link self.old.link.items (bytes_of lines.items)) }
        ensures any_moment { AlwaysLeaves (D.history self.old.lines.device) (D.history self.new.lines.device)
            (StandsWithFirstOf (lines_in D.content self.old.lines) (bytes_of lines.items)) }
        ensures faults { TellsFaults (D.faults self.old.lines.device) (D.faults self.new.lines.device) result }
    {
        self.lines.put_group(alloc, &lines)?;
        self.link_to(lines);
        Ok(())
    }

    /// Puts the lines of a whole journal in the place of all that are there, as `Journal::rewrite` does.
    pub(crate) fn rewrite(&mut self, alloc: Global, lines: Vec<Vec<u8>>) -> Result<(), DeviceError>
        requires ready { IsReady D.content D.history self.old.lines }
        requires lines { AreLines (bytes_of lines.items) }
        ensures acknowledged { OnOk result (IsReady D.content D.history self.new.lines
            × (lines_in D.content self.new.lines ≡ bytes_of lines.items)) }
        ensures link { OnOk result (self.new.link.items ≡ link_behind (bytes_of lines.items)) }
        ensures any_moment { AlwaysLeaves (D.history self.old.lines.device) (D.history self.new.lines.device)
            (StandsForEither (lines_in D.content self.old.lines) (bytes_of lines.items)) }
        ensures faults { TellsFaults (D.faults self.old.lines.device) (D.faults self.new.lines.device) result }
    {
        self.lines.rewrite(alloc, &lines)?;
        self.link_behind(lines);
        Ok(())
    }
}

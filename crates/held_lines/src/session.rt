//! Lines over a table with holders.
ghost use Rattle.std.specs.Prelude.{◌≡◌, true, false, IfOk, OnOk, OnErr};
ghost use Rattle.dep_index.specs.Catalogue.{modules_of};

use crate::asked::{Asked, parse};
use crate::by_name::{refer, what_is_held, who_holds};
use crate::gives::{release, release_all};
use crate::listing::all_text;
use crate::reply::{HeldReply, refuse};
use crate::same::is_same;
use crate::snapshot::snapshot;
use crate::takes::hold;
use crate::through::{Watch, as_session, make_half};
use held_table::HeldTable;
use modprobe::{Code, Reply, Setup};
use seq_table::Modules;
use std::alloc::{AllocError, Global};
use text_parts::{is_comment, words};

/// A table with holders over the catalogue of a setup, and the lines that it answers.
#[derive(Drop)]
pub struct HeldSession<'s> {
    setup: &'s Setup,
    holders: HeldTable,
    ghost over: { holders.catalogue ≡ modules_of setup.now.catalogue },
}

impl<'s> HeldSession<'s> {
    ghost use Rattle.held_lines.specs.Lines.{asked_of};
    ghost use Rattle.held_lines.specs.Outcomes.{asked_outcome, held_line_outcome};
    ghost use Rattle.held_lines.specs.ForProofs.{Answers, asked_from};
    ghost use Rattle.held_lines.specs.declared.through.Watch.TheVariants.{Changes};
    ghost use Rattle.held_lines.specs.Laws.{KeepsHeld};
    ghost use Rattle.held_lines.specs.Reading.{is_reading};
    ghost use Rattle.held_lines.specs.Snapshots.{texts_in, snapshot_of};

    /// Uses a table over the catalogue of a setup. It changes nothing.
    pub fn new(setup: &'s Setup, holders: HeldTable) -> HeldSession<'s>
        requires { holders.catalogue ≡ modules_of setup.now.catalogue }
        ensures setup { result.setup ≡ setup.entry }
        ensures holders { result.holders ≡ holders }
    {
        HeldSession { setup, holders }
    }

    /// The setup over whose catalogue the table is.
    pub fn setup(&self) -> &Setup
        ensures { result.now ≡ self.now.setup.now }
    {
        self.setup
    }

    /// The table with its holders.
    pub fn holders(&self) -> &HeldTable
        ensures { result.now ≡ self.now.holders }
    {
        &self.holders
    }

    /// The lines that make the table from the one in which each module is absent and no holder is there, by `snapshot_of`:
    /// whether they do is for the caller to see. None of them has a line feed, if no name of a module has one.
    pub fn snapshot(&self, alloc: Global) -> Result<Vec<Vec<u8>>, AllocError>
        ensures { IfOk result (λ lines. texts_in lines.items ≡ snapshot_of self.now.setup.now self.now.holders.held) }
    {
        snapshot(alloc, self.setup, &self.holders)
    }

    /// Whether the tables of two sessions over one setup are the same, with their holders.
    pub fn is_same(&self, alloc: Global, other: &HeldSession<'_>) -> Result<bool, AllocError>
        requires { other.now.setup.now ≡ self.now.setup.now }
        ensures is { IfOk result (λ is_same. is_same ≡ true → other.now.holders.held ≡ self.now.holders.held) }
        ensures all { IfOk result (λ is_same. other.now.holders.held ≡ self.now.holders.held → is_same ≡ true) }
    {
        is_same(alloc, &self.holders, &other.holders)
    }

    /// Makes what a line asks for, and answers its reply, by `held_line_outcome`. The table and its holders are those after
    /// it. Whatever the line is, no module that anybody held before it is removed. A line that asks is not told to have
    /// changed anything.
    ///
    /// Out of memory, all is as before: all memory is taken before the first change, or what was changed is undone.
    pub fn perform(&mut self, alloc: Global, line: &[u8]) -> Result<HeldReply, AllocError>
        ensures answers { IfOk result (λ r. Answers r self.old.holders.held self.new.holders.held
            (held_line_outcome self.old.setup.now self.old.holders.held line.now)) }
        ensures asking { IfOk result (λ r. is_reading line.now ≡ true → r.changed ≡ false) }
        ensures held { OnOk result (KeepsHeld self.old.holders.held.table self.new.holders.held.table) }
        ensures unchanged { OnErr result (self.new.holders.held ≡ self.old.holders.held) }
        ensures setup { self.new.setup ≡ self.old.setup }
    {
        self.holders.laws();
        let answer = self.answer_line(alloc, line, Watch::Changes);
        self.holders.laws();
        answer
    }

    /// Makes what a line asks for, as `perform` does, for whoever has no use for its reply. It copies no book: only `perform` tells
    /// whether anything changed.
    ///
    /// Out of memory, all is as before.
    pub fn replay(&mut self, alloc: Global, line: &[u8]) -> Result<(), AllocError>
        ensures leaves { OnOk result (self.new.holders.held ≡ (held_line_outcome self.old.setup.now self.old.holders.held line.now).1) }
        ensures unchanged { OnErr result (self.new.holders.held ≡ self.old.holders.held) }
        ensures setup { self.new.setup ≡ self.old.setup }
    {
        self.answer_line(alloc, line, Watch::Nothing)?;
        Ok(())
    }

    /// Makes what a line asks for.
    #[tactic(auto, unfolding(crate::specs::Outcomes::held_line_outcome))]
    fn answer_line(
        &mut self,
        alloc: Global,
        line: &[u8],
        watch: Watch,
    ) -> Result<HeldReply, AllocError>
        ensures answers { IfOk result (λ r. Answers r self.old.holders.held self.new.holders.held
            (held_line_outcome self.old.setup.now self.old.holders.held line.now)) }
        ensures asking { watch ≡ Changes → IfOk result (λ r. is_reading line.now ≡ true → r.changed ≡ false) }
        ensures unchanged { OnErr result (self.new.holders.held ≡ self.old.holders.held) }
        ensures setup { self.new.setup ≡ self.old.setup }
    {
        if is_comment(line) {
            return as_session(alloc, self.setup, &mut self.holders, line, watch);
        }
        let words = words(alloc, line)?;
        let asked = parse(alloc, &words)?;
        self.answer(alloc, line, asked, watch)
    }

    /// Makes what is asked for.
    fn answer(
        &mut self,
        alloc: Global,
        line: &[u8],
        asked: Asked<'_>,
        watch: Watch,
    ) -> Result<HeldReply, AllocError>
        requires { asked_from asked ≡ asked_of line.now }
        ensures answers { IfOk result (λ r. Answers r self.old.holders.held self.new.holders.held
            (asked_outcome self.old.setup.now self.old.holders.held line.now (asked_from asked.entry))) }
        ensures asking { watch ≡ Changes → IfOk result (λ r. is_reading line.now ≡ true → r.changed ≡ false) }
        ensures unchanged { OnErr result (self.new.holders.held ≡ self.old.holders.held) }
        ensures setup { self.new.setup ≡ self.old.setup }
    {
        let (setup, holders) = (self.setup, &mut self.holders);
        match asked {
            Asked::AsSession => as_session(alloc, setup, holders, line, watch),
            Asked::Malformed(first) => refuse(alloc, Code::Syntax, first),
            Asked::Refer(reference, holder, name) => {
                refer(alloc, setup, holders, reference, holder, &name)
            }
            Asked::Half(half, name) => make_half(alloc, setup, holders, half, &name, watch),
            Asked::Hold(again, holder, names) => {
                hold(alloc, setup, holders, again, holder, names)
            }
            Asked::Release(holder, names) => release(alloc, setup, holders, &holder, names),
            Asked::ReleaseAll(holder) => release_all(alloc, holders, &holder),
            Asked::Holders(name) => Ok(HeldReply::of(who_holds(alloc, setup, holders, &name)?)),
            Asked::HeldBy(holder) => {
                Ok(HeldReply::of(what_is_held(alloc, setup, holders, &holder)?))
            }
            Asked::Held => Ok(HeldReply::of(Reply::says(all_text(alloc, setup, holders)?))),
        }
    }
}

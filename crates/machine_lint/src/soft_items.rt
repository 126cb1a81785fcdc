//! Modules with soft dependencies, for which no install line counts.
ghost use Rattle.std.specs.Prelude.{◌≡◌, IfOk, option_copied};
ghost use Rattle.std.specs.List.{list_any};
ghost use Rattle.machine_lint.specs.Notes.{facts_by, has_soft_items, is_answered, passed_over, passed_over_by};

use crate::judge::Judge;
use crate::line::Line;
use crate::note::NoteKind;
use kmod_conf::SoftdepLine;
use kmod_names::{Text, normal_alias};
use std::alloc::{AllocError, Global};

impl Judge<'_> {
    /// Whether something answers to an item.
    fn is_answered(&self, alloc: Global, item: &[u8]) -> Result<bool, AllocError>
        ensures { IfOk result (λ is. is ≡ is_answered (facts_by self.now) item.now) }
    {
        match normal_alias(alloc, item)? {
            Some(own) => self.is_found(alloc, own.as_bytes()),
            None => Ok(false),
        }
    }

    /// Whether something answers to one of the items.
    fn is_one_answered(&self, alloc: Global, items: &[Text]) -> Result<bool, AllocError>
        ensures { IfOk result (λ is. is ≡ list_any (is_answered (facts_by self.now)) items.now) }
    {
        for item in items {
            if self.is_answered(alloc, item.as_bytes())? {
                return Ok(true);
            }
        }
        Ok(false)
    }

    /// Whether something answers to an item of a softdep line.
    pub(crate) fn has_soft_items(
        &self,
        alloc: Global,
        line: Option<&SoftdepLine>,
    ) -> Result<bool, AllocError>
        ensures { IfOk result (λ has. has ≡ has_soft_items (facts_by self.now) (option_copied line.entry)) }
    {
        let Some(line) = line else {
            return Ok(false);
        };
        let is_before = self.is_one_answered(alloc, line.items.pre())?;
        let is_after = self.is_one_answered(alloc, line.items.post())?;
        Ok(is_before || is_after)
    }

    /// That a softdep line has its module loaded by its file.
    fn passed_over_by(
        &self,
        alloc: Global,
        line: Option<&SoftdepLine>,
    ) -> Result<Option<NoteKind>, AllocError>
        ensures { IfOk result (λ kind. kind ≡ passed_over_by (facts_by self.now) (option_copied line.entry)) }
    {
        let has_soft_items = self.has_soft_items(alloc, line)?;
        match line {
            Some(line) if has_soft_items => Ok(Some(NoteKind::PassedOver(line.place))),
            _ => Ok(None),
        }
    }

    /// That an install line does not count, since its module has soft dependencies.
    pub(crate) fn passed_over(
        &self,
        alloc: Global,
        line: &Line,
    ) -> Result<Option<NoteKind>, AllocError>
        ensures { IfOk result (λ kind. kind ≡ passed_over (facts_by self.now) line.now) }
    {
        if !self.has_file(line.name()) {
            return Ok(None);
        }
        let softdep = self.conf.softdep_of(alloc, line.name())?;
        self.passed_over_by(alloc, softdep)
    }
}

//! What is noted of the items of softdep and weakdep lines.
ghost use Rattle.std.specs.Prelude.{◌≡◌, IfOk, option_copied};
ghost use Rattle.std.specs.List.{list_any};
ghost use Rattle.machine_lint.specs.Notes.{absent_item, are_own, facts_by, has_item, is_form_of, is_own_item, item_kind, names_back};

use crate::judge::Judge;
use crate::line::Line;
use crate::note::NoteKind;
use kmod_conf::SoftdepLine;
use kmod_names::{Text, normal_alias};
use std::alloc::{AllocError, Global};
use text_parts::is_same;

/// Whether an item is this name.
fn is_form_of(alloc: Global, name: &[u8], item: &[u8]) -> Result<bool, AllocError>
    ensures { IfOk result (λ is. is ≡ is_form_of name.now item.now) }
{
    match normal_alias(alloc, item)? {
        Some(own) => Ok(is_same(own.as_bytes(), name)),
        None => Ok(false),
    }
}

/// Whether one of the items is this name.
fn is_among(alloc: Global, name: &[u8], items: &[Text]) -> Result<bool, AllocError>
    ensures { IfOk result (λ is. is ≡ list_any (is_form_of name.now) items.now) }
{
    for item in items {
        if is_form_of(alloc, name, item.as_bytes())? {
            return Ok(true);
        }
    }
    Ok(false)
}

/// Whether a softdep line has this name among its items.
fn has_item(alloc: Global, name: &[u8], line: Option<&SoftdepLine>) -> Result<bool, AllocError>
    ensures { IfOk result (λ has. has ≡ has_item name.now (option_copied line.entry)) }
{
    let Some(line) = line else {
        return Ok(false);
    };
    let is_before = is_among(alloc, name, line.items.pre())?;
    let is_after = is_among(alloc, name, line.items.post())?;
    Ok(is_before || is_after)
}

impl Judge<'_> {
    /// Whether an item of this name is the line's own module.
    fn is_own_item(&self, alloc: Global, line: &Line, own: &[u8]) -> Result<bool, AllocError>
        ensures { IfOk result (λ is. is ≡ is_own_item (facts_by self.now) line.now own.now) }
    {
        if is_same(own, line.name()) {
            self.is_own(alloc, own)
        } else {
            Ok(false)
        }
    }

    /// Whether both names stand for the modules of these very names.
    fn are_own(&self, alloc: Global, name: &[u8], other: &[u8]) -> Result<bool, AllocError>
        ensures { IfOk result (λ are. are ≡ are_own (facts_by self.now) name.now other.now) }
    {
        let is_own = self.is_own(alloc, name)?;
        let is_other_own = self.is_own(alloc, other)?;
        Ok(is_own && is_other_own)
    }

    /// Whether a line is a softdep line, and the one that counts for a name has its name; both are names of modules.
    fn names_back(&self, alloc: Global, line: &Line, own: &[u8]) -> Result<bool, AllocError>
        ensures { IfOk result (λ names. names ≡ names_back (facts_by self.now) line.now own.now) }
    {
        if !line.setting().is_softdep() {
            return Ok(false);
        }
        let are_own = self.are_own(alloc, line.name(), own)?;
        let counting = self.conf.softdep_of(alloc, own)?;
        let has_item = has_item(alloc, line.name(), counting)?;
        Ok(are_own && has_item)
    }

    /// Of an item of this name to which nothing answers.
    fn absent_item(
        &self,
        alloc: Global,
        item: &[u8],
        own: &[u8],
    ) -> Result<Option<NoteKind>, AllocError>
        ensures { IfOk result (λ kind. kind ≡ absent_item (facts_by self.now) item.now own.now) }
    {
        if self.is_found(alloc, own)? {
            Ok(None)
        } else {
            Ok(Some(NoteKind::UnknownItem(Text::new(alloc, item)?)))
        }
    }

    /// What is noted of an item of a line.
    pub(crate) fn item_kind(
        &self,
        alloc: Global,
        line: &Line,
        item: &[u8],
    ) -> Result<Option<NoteKind>, AllocError>
        ensures { IfOk result (λ kind. kind ≡ item_kind (facts_by self.now) line.now item.now) }
    {
        let Some(own) = normal_alias(alloc, item)? else {
            return Ok(Some(NoteKind::UnknownItem(Text::new(alloc, item)?)));
        };
        if self.is_own_item(alloc, line, own.as_bytes())? {
            return Ok(Some(NoteKind::OwnItem));
        }
        if self.names_back(alloc, line, own.as_bytes())? {
            return Ok(Some(NoteKind::RingItem(Text::new(alloc, item)?)));
        }
        self.absent_item(alloc, item, own.as_bytes())
    }
}

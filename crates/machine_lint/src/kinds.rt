//! What is noted of a line.
ghost use Rattle.std.specs.Prelude.{◌≡◌, IfOk, option_copied};
ghost use Rattle.std.specs.Option.{option_or};
ghost use Rattle.machine_lint.specs.Notes.{absent, alias_kind, blacklist_kind, counting_install, counting_remove, facts_by, filled_softdep_kind, has_own_command};
ghost use Rattle.machine_lint.specs.Notes.{install_kind, keeps_nothing, kind_of, later, later_softdep, loads_something, named_options_kind, no_module, no_soft_module, options_kind, other_text, passed_over};
ghost use Rattle.machine_lint.specs.Notes.{remove_kind, repeated, setting_kind, softdep_kind, stopped, stopped_by, unless_here, used_options_kind, weakdep_kind, why_absent, why_no_module};

use crate::judge::Judge;
use crate::known::Origin;
use crate::line::Line;
use crate::note::NoteKind;
use crate::repeats::first_same;
use crate::setting::Setting;
use crate::words::{does_nothing, ends_with_cr, has_pattern};
use kmod_conf::{SoftdepLine, TextLine};
use kmod_names::{Place, Text};
use std::alloc::{AllocError, Global};
use text_parts::is_same;

/// That another line counts, unless it is this one.
fn unless_here(here: Place, counting: Place) -> Option<NoteKind>
    ensures { result ≡ unless_here here counting }
{
    if here.source == counting.source && here.line == counting.line {
        None
    } else {
        Some(NoteKind::Later(counting))
    }
}

/// That another line counts for the name.
fn later(here: Place, counting: Option<&TextLine>) -> Option<NoteKind>
    ensures { result ≡ later here (option_copied counting.entry) }
{
    match counting {
        Some(counting) => unless_here(here, counting.place),
        None => None,
    }
}

/// That another softdep line counts for the name.
fn later_softdep(here: Place, counting: Option<&SoftdepLine>) -> Option<NoteKind>
    ensures { result ≡ later_softdep here (option_copied counting.entry) }
{
    match counting {
        Some(counting) => unless_here(here, counting.place),
        None => None,
    }
}

/// That an install line stops the module, if its command does nothing.
fn stopped_by(alloc: Global, install: Option<&TextLine>) -> Result<Option<NoteKind>, AllocError>
    ensures { IfOk result (λ kind. kind ≡ stopped_by (option_copied install.entry)) }
{
    let Some(install) = install else {
        return Ok(None);
    };
    if does_nothing(alloc, install.text.as_bytes())? {
        Ok(Some(NoteKind::Stopped(install.place)))
    } else {
        Ok(None)
    }
}

impl Judge<'_> {
    /// Why a name that leads to nothing has no effect.
    fn why_absent(&self, alloc: Global, name: &[u8]) -> Result<NoteKind, AllocError>
        ensures { IfOk result (λ kind. kind ≡ why_absent self.now.index.now name.now) }
    {
        if self.is_in_kernel(alloc, name)? {
            Ok(NoteKind::BuiltIn)
        } else if has_pattern(name) {
            Ok(NoteKind::Pattern)
        } else {
            Ok(NoteKind::Unknown)
        }
    }

    /// Of a name that leads to nothing.
    fn absent(&self, alloc: Global, name: &[u8]) -> Result<Option<NoteKind>, AllocError>
        ensures { IfOk result (λ kind. kind ≡ absent (facts_by self.now) name.now) }
    {
        if self.is_used(alloc, name)? {
            Ok(None)
        } else {
            Ok(Some(self.why_absent(alloc, name)?))
        }
    }

    /// Why a line that counts for modules alone has no effect.
    fn why_no_module(&self, alloc: Global, name: &[u8]) -> Result<NoteKind, AllocError>
        ensures { IfOk result (λ kind. kind ≡ why_no_module (facts_by self.now) name.now) }
    {
        if self.is_only_alias(alloc, name)? {
            Ok(NoteKind::AliasName)
        } else {
            self.why_absent(alloc, name)
        }
    }

    /// Of a name by which no module is loaded.
    fn no_module(&self, alloc: Global, name: &[u8]) -> Result<Option<NoteKind>, AllocError>
        ensures { IfOk result (λ kind. kind ≡ no_module (facts_by self.now) name.now) }
    {
        if self.is_module(alloc, name)? {
            Ok(None)
        } else {
            Ok(Some(self.why_no_module(alloc, name)?))
        }
    }

    /// That the same line stands before in the same file.
    pub(crate) fn repeated(&self, line: &Line) -> Option<NoteKind>
        ensures { result ≡ repeated (facts_by self.now) line.now }
    {
        match first_same(self.lines, line) {
            Some(first) => Some(NoteKind::Repeated(first.place())),
            None => None,
        }
    }

    /// The install line that counts for a name.
    fn counting_install(&self, alloc: Global, name: &[u8]) -> Result<Option<&TextLine>, AllocError>
        ensures { IfOk result (λ line. option_copied line ≡ counting_install (facts_by self.now) name.now) }
    {
        if self.has_file(name) {
            self.conf.install_of(alloc, name)
        } else {
            Ok(self.conf.install_named(name))
        }
    }

    /// The remove line that counts for a name.
    fn counting_remove(&self, alloc: Global, name: &[u8]) -> Result<Option<&TextLine>, AllocError>
        ensures { IfOk result (λ line. option_copied line ≡ counting_remove (facts_by self.now) name.now) }
    {
        if self.has_file(name) {
            self.conf.remove_of(alloc, name)
        } else {
            Ok(self.conf.remove_named(name))
        }
    }

    /// Whether a command runs for the name of a module or of an alias, also of one in the kernel.
    fn has_own_command(&self, alloc: Global, name: &[u8]) -> Result<bool, AllocError>
        ensures { IfOk result (λ has. has ≡ has_own_command (facts_by self.now) name.now) }
    {
        let is_named = self.is_named(alloc, name)?;
        let is_alias = self.is_kernel_alias(alloc, name)?;
        Ok(is_named || is_alias)
    }

    /// That a command which does nothing keeps no module out.
    fn keeps_nothing(&self, alloc: Global, line: &Line) -> Result<Option<NoteKind>, AllocError>
        ensures { IfOk result (λ kind. kind ≡ keeps_nothing (facts_by self.now) line.now) }
    {
        let has_command = self.has_own_command(alloc, line.name())?;
        let is_idle = does_nothing(alloc, line.text())?;
        if has_command || has_pattern(line.name()) || !is_idle {
            Ok(None)
        } else {
            Ok(Some(self.why_absent(alloc, line.name())?))
        }
    }

    /// That an install command keeps options from being used.
    fn stopped(&self, alloc: Global, line: &Line) -> Result<Option<NoteKind>, AllocError>
        ensures { IfOk result (λ kind. kind ≡ stopped (facts_by self.now) line.now) }
    {
        let softdep = self.conf.softdep_of(alloc, line.name())?;
        let has_soft_items = self.has_soft_items(alloc, softdep)?;
        let install = self.conf.install_of(alloc, line.name())?;
        if self.has_file(line.name()) && !has_soft_items {
            stopped_by(alloc, install)
        } else {
            Ok(None)
        }
    }

    /// Whether something is loaded by a name to which an alias leads.
    fn loads_something(&self, alloc: Global, name: &[u8]) -> Result<bool, AllocError>
        ensures { IfOk result (λ loads. loads ≡ loads_something (facts_by self.now) name.now) }
    {
        let is_loadable = self.is_loadable(alloc, name)?;
        let softdep = self.conf.softdep_of(alloc, name)?;
        Ok(is_loadable || softdep.is_some())
    }

    fn alias_kind(&self, alloc: Global, line: &Line) -> Result<Option<NoteKind>, AllocError>
        ensures { IfOk result (λ kind. kind ≡ alias_kind (facts_by self.now) line.now) }
    {
        let loads = self.loads_something(alloc, line.text())?;
        if is_same(line.text(), b"off") || loads {
            Ok(self.repeated(line))
        } else {
            Ok(Some(NoteKind::UnknownModule(Text::new(alloc, line.text())?)))
        }
    }

    fn blacklist_kind(&self, alloc: Global, line: &Line) -> Result<Option<NoteKind>, AllocError>
        ensures { IfOk result (λ kind. kind ≡ blacklist_kind (facts_by self.now) line.now) }
    {
        match self.no_module(alloc, line.name())? {
            Some(kind) => Ok(Some(kind)),
            None => Ok(self.repeated(line)),
        }
    }

    fn used_options_kind(&self, alloc: Global, line: &Line) -> Result<Option<NoteKind>, AllocError>
        ensures { IfOk result (λ kind. kind ≡ used_options_kind (facts_by self.now) line.now) }
    {
        match self.stopped(alloc, line)? {
            Some(kind) => Ok(Some(kind)),
            None => self.repeated_options(alloc, line),
        }
    }

    /// That an alias line of another text answers to a name first.
    fn other_text(&self, alloc: Global, name: &[u8]) -> Result<Option<NoteKind>, AllocError>
        ensures { IfOk result (λ kind. kind ≡ other_text (facts_by self.now) name.now) }
    {
        let is_commanded = self.is_commanded(alloc, name)?;
        let aliases = self.conf.matching_aliases(alloc, name)?;
        if self.has_file(name) || self.is_alias_pattern(name) || is_commanded {
            return Ok(None);
        }
        match aliases.first() {
            Some(alias) => Ok(Some(NoteKind::OtherText(alias.place))),
            None => Ok(None),
        }
    }

    /// What is noted of options of a name that leads to something.
    fn named_options_kind(&self, alloc: Global, line: &Line) -> Result<Option<NoteKind>, AllocError>
        ensures { IfOk result (λ kind. kind ≡ named_options_kind (facts_by self.now) line.now) }
    {
        match self.other_text(alloc, line.name())? {
            Some(kind) => Ok(Some(kind)),
            None => self.used_options_kind(alloc, line),
        }
    }

    fn options_kind(
        &self,
        alloc: Global,
        origin: Origin,
        line: &Line,
    ) -> Result<Option<NoteKind>, AllocError>
        ensures { IfOk result (λ kind. kind ≡ options_kind (facts_by self.now) origin line.now) }
    {
        if origin.is_kernel() {
            return self.used_options_kind(alloc, line);
        }
        match self.absent(alloc, line.name())? {
            Some(kind) => Ok(Some(kind)),
            None => self.named_options_kind(alloc, line),
        }
    }

    /// What is noted of an install line that counts before others of its name.
    fn first_install_kind(&self, alloc: Global, line: &Line) -> Result<Option<NoteKind>, AllocError>
        ensures { IfOk result (λ kind. kind ≡ option_or (keeps_nothing (facts_by self.now) line.now) (passed_over (facts_by self.now) line.now)) }
    {
        match self.keeps_nothing(alloc, line)? {
            Some(kind) => Ok(Some(kind)),
            None => self.passed_over(alloc, line),
        }
    }

    fn install_kind(&self, alloc: Global, line: &Line) -> Result<Option<NoteKind>, AllocError>
        ensures { IfOk result (λ kind. kind ≡ install_kind (facts_by self.now) line.now) }
    {
        let counting = self.counting_install(alloc, line.name())?;
        match later(line.place(), counting) {
            Some(kind) => Ok(Some(kind)),
            None => self.first_install_kind(alloc, line),
        }
    }

    fn remove_kind(&self, alloc: Global, line: &Line) -> Result<Option<NoteKind>, AllocError>
        ensures { IfOk result (λ kind. kind ≡ remove_kind (facts_by self.now) line.now) }
    {
        let counting = self.counting_remove(alloc, line.name())?;
        match later(line.place(), counting) {
            Some(kind) => Ok(Some(kind)),
            None => self.keeps_nothing(alloc, line),
        }
    }

    /// Of a name whose soft dependencies nobody looks for.
    fn no_soft_module(&self, alloc: Global, name: &[u8]) -> Result<Option<NoteKind>, AllocError>
        ensures { IfOk result (λ kind. kind ≡ no_soft_module (facts_by self.now) name.now) }
    {
        if self.is_builtin(name) {
            Ok(None)
        } else {
            self.no_module(alloc, name)
        }
    }

    /// What is noted of a softdep line that has an item.
    fn filled_softdep_kind(
        &self,
        alloc: Global,
        line: &Line,
    ) -> Result<Option<NoteKind>, AllocError>
        ensures { IfOk result (λ kind. kind ≡ filled_softdep_kind (facts_by self.now) line.now) }
    {
        if has_pattern(line.name()) {
            return Ok(None);
        }
        let counting = self.conf.softdep_of(alloc, line.name())?;
        match later_softdep(line.place(), counting) {
            Some(kind) => Ok(Some(kind)),
            None => self.no_soft_module(alloc, line.name()),
        }
    }

    fn softdep_kind(&self, alloc: Global, line: &Line) -> Result<Option<NoteKind>, AllocError>
        ensures { IfOk result (λ kind. kind ≡ softdep_kind (facts_by self.now) line.now) }
    {
        if line.has_items() {
            self.filled_softdep_kind(alloc, line)
        } else {
            Ok(Some(NoteKind::NoItem))
        }
    }

    fn weakdep_kind(&self, alloc: Global, line: &Line) -> Result<Option<NoteKind>, AllocError>
        ensures { IfOk result (λ kind. kind ≡ weakdep_kind (facts_by self.now) line.now) }
    {
        if has_pattern(line.name()) {
            Ok(None)
        } else {
            self.no_module(alloc, line.name())
        }
    }

    /// By what a line sets.
    fn setting_kind(
        &self,
        alloc: Global,
        origin: Origin,
        line: &Line,
    ) -> Result<Option<NoteKind>, AllocError>
        ensures { IfOk result (λ kind. kind ≡ setting_kind (facts_by self.now) origin line.now.setting line.now) }
    {
        match line.setting() {
            Setting::Alias => self.alias_kind(alloc, line),
            Setting::Blacklist => self.blacklist_kind(alloc, line),
            Setting::Options => self.options_kind(alloc, origin, line),
            Setting::Install => self.install_kind(alloc, line),
            Setting::Remove => self.remove_kind(alloc, line),
            Setting::Softdep => self.softdep_kind(alloc, line),
            Setting::Weakdep => self.weakdep_kind(alloc, line),
            Setting::Bad => Ok(Some(NoteKind::BadLine)),
        }
    }

    /// What is noted of a line itself.
    pub(crate) fn kind_of(
        &self,
        alloc: Global,
        origin: Origin,
        line: &Line,
    ) -> Result<Option<NoteKind>, AllocError>
        ensures { IfOk result (λ kind. kind ≡ kind_of (facts_by self.now) origin line.now) }
    {
        if ends_with_cr(line) {
            Ok(Some(NoteKind::CarriageReturn))
        } else {
            self.setting_kind(alloc, origin, line)
        }
    }
}

//! What was read of a catalogue so far, and what a line makes of it.
ghost use Rattle.std.specs.Prelude.{◌≡◌, ◌<◌, ◌≤◌, ◌+◌, ◌++◌, [], ◌∷◌, None, Ok, OnOk, length, MatchResult};
ghost use Rattle.text_parts.specs.Text.{texts_of};
ghost use Rattle.dep_index.specs.Catalogue as spec;
ghost use Rattle.dep_index.specs.Catalogue.{has_name, limit, apply, change_last, with_modules, read_words, read_line, no_draft};
ghost use Rattle.dep_index.specs.Catalogue.Descriptions.{descriptions_in};
ghost use Rattle.dep_index.specs.Catalogue.Directives.{directive_in};
ghost use Rattle.dep_index.specs.Catalogue.Drafts.{draft_in, modules_read, IsSound, DraftIsMade};

use crate::catalogue::details::{Details, Open};
use crate::catalogue::directives::{Directive, read_directive};
use crate::catalogue::exporters::Exporters;
use crate::catalogue::versions::Version;
use crate::faults::Refused;
use indexmap::IndexMap;
use std::alloc::{AllocError, Global};
use std::mem::replace;
use text_parts::{Name, find_words, is_comment, is_same};

/// The modules so far: the earlier ones by name, and the one that is open.
#[derive(Drop)]
pub(crate) struct Draft<'a> {
    pub(crate) begun: bool,
    pub(crate) version: Version,
    pub(crate) earlier: IndexMap<Vec<u8>, Details>,
    pub(crate) last: Option<Open>,
    pub(crate) exporters: Exporters<'a>,
    /// The line came that ends the text.
    pub(crate) ended: bool,
}

fn is_among(earlier: &IndexMap<Vec<u8>, Details>, name: &[u8]) -> bool
    ensures { result ≡ has_name (descriptions_in earlier.now.entries) name.now }
{
    earlier.contains_key(name)
}

impl<'a> Draft<'a> {
    pub(crate) fn new(alloc: Global) -> Draft<'a>
        ensures empty { draft_in result ≡ no_draft }
        ensures sound { IsSound result }
    {
        Draft {
            begun: false,
            version: Version::One,
            earlier: IndexMap::new(alloc),
            last: None,
            exporters: Exporters::new(alloc),
            ended: false,
        }
    }

    fn has(&self, name: &[u8]) -> bool
        ensures { result ≡ has_name (modules_read self.now) name.now }
    {
        if is_among(&self.earlier, name) {
            return true;
        }
        match &self.last {
            Some(open) => is_same(name, &open.name),
            None => false,
        }
    }

    fn len(&self) -> usize
        requires { IsSound self.now }
        ensures { result ≡ length (modules_read self.now) }
    {
        match &self.last {
            Some(_) => self.earlier.len() + 1,
            None => self.earlier.len(),
        }
    }

    fn limit(&self) -> usize
        ensures { result ≡ limit (draft_in self.now) }
    {
        self.version.most_modules()
    }

    /// The open module joins the earlier ones.
    pub(crate) fn close(&mut self) -> Result<(), AllocError>
        requires sound { IsSound self.old }
        ensures same { OnOk result (draft_in self.new ≡ draft_in self.old) }
        ensures closed { OnOk result (self.new.last ≡ None) }
        ensures exporters { self.new.exporters ≡ self.old.exporters }
    {
        if let Some(open) = self.last.take() {
            let (name, details) = open.close();
            self.earlier.insert(name, details)?;
        }
        Ok(())
    }

    /// Takes the earlier modules out.
    pub(crate) fn take_modules(&mut self, alloc: Global) -> IndexMap<Vec<u8>, Details>
        ensures { result ≡ self.old.earlier }
    {
        replace(&mut self.earlier, IndexMap::new(alloc))
    }

    fn set_version(&mut self, version: Version) -> Result<(), Refused>
        requires sound { IsSound self.old }
        ensures { DraftIsMade result (apply (draft_in self.old) (spec.version version)) self.new }
    {
        if self.begun {
            return Err(Refused::Bad);
        }
        self.begun = true;
        self.version = version;
        Ok(())
    }

    fn begin(&mut self, alloc: Global, name: Name) -> Result<(), Refused>
        requires sound { IsSound self.old }
        ensures { DraftIsMade result (apply (draft_in self.old) (spec.begin name)) self.new }
    {
        let name = name.into_bytes();
        if self.has(&name) {
            return Err(Refused::Duplicate);
        }
        if self.len() >= self.limit() {
            return Err(Refused::TooMany);
        }
        self.close()?;
        self.last = Some(Open::new(alloc, name));
        self.begun = true;
        Ok(())
    }

    fn change(&mut self, alloc: Global, directive: Directive<'_, 'a>) -> Result<(), Refused>
        requires sound { IsSound self.old }
        ensures { let changed = change_last self.old.version [] (modules_read self.old) (directive_in directive.entry) in
            DraftIsMade result (with_modules (draft_in self.old) changed) self.new }
    {
        let Some(open) = &mut self.last else {
            return Err(Refused::Bad);
        };
        self.begun = true;
        let slot = self.earlier.len() as u16;
        open.change(alloc, self.version, &mut self.exporters, slot, directive)
    }

    /// The text ends here, if it has so many modules.
    fn end(&mut self, count: usize) -> Result<(), Refused>
        requires sound { IsSound self.old }
        ensures { DraftIsMade result (apply (draft_in self.old) (spec.end count)) self.new }
    {
        if !self.version.has_end() || count != self.len() {
            return Err(Refused::Bad);
        }
        self.ended = true;
        Ok(())
    }

    fn apply(&mut self, alloc: Global, directive: Directive<'_, 'a>) -> Result<(), Refused>
        requires sound { IsSound self.old }
        ensures { DraftIsMade result (apply (draft_in self.old) (directive_in directive.entry)) self.new }
    {
        match directive {
            Directive::Version(version) => self.set_version(version),
            Directive::Module(name) => self.begin(alloc, name),
            Directive::End(count) => self.end(count),
            other => self.change(alloc, other),
        }
    }

    fn read_words(&mut self, alloc: Global, words: &[&'a [u8]]) -> Result<(), Refused>
        requires sound { IsSound self.old }
        ensures { DraftIsMade result (read_words (draft_in self.old) (texts_of words.now)) self.new }
    {
        let Some((word, rest)) = words.split_first() else {
            return Ok(());
        };
        if self.ended {
            return Err(Refused::Bad);
        }
        match read_directive(alloc, word, rest)? {
            Some(directive) => self.apply(alloc, directive),
            None => Err(Refused::Bad),
        }
    }

    /// Takes one line. Its words are put into `found`, in place of those of an earlier line.
    pub(crate) fn read_line(
        &mut self,
        alloc: Global,
        found: &mut Vec<&'a [u8]>,
        line: &'a [u8],
    ) -> Result<(), Refused>
        requires sound { IsSound self.old }
        ensures { DraftIsMade result (read_line (draft_in self.old) line.now) self.new }
    {
        if is_comment(line) {
            return Ok(());
        }
        find_words(found, line)?;
        self.read_words(alloc, found)
    }
}

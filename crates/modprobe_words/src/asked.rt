//! What a command line asks for.
ghost use Rattle.std.specs.Prelude.{◌≡◌, IfOk, OnOk};
ghost use Rattle.modprobe_words.specs.Asked.{asked_by, asked_of, names_files, no_other, nothing_asked, other_of, second_of, with_item, with_place};
ghost use Rattle.modprobe_words.specs.Words.{item_of, items_of};

use crate::form::Form;
use crate::items::Item;
use crate::options::{Switch, Valued};
use crate::switches::Switches;
use kmod_version::Kmod;
use std::alloc::{AllocError, Global};

/// Whether an option says which files are meant.
fn names_files(valued: Valued) -> bool
    ensures { result ≡ names_files valued }
{
    matches!(
        valued,
        Valued::Config | Valued::Dirname | Valued::SetVersion | Valued::Root
    )
}

/// Of which files another machine is: what stands behind `--diff`.
#[derive(Drop)]
pub struct Other<'a> {
    /// Each `-C`.
    pub configurations: Vec<&'a [u8]>,
    /// The last `-d`.
    pub directory: Option<&'a [u8]>,
    /// The last `-S`.
    pub release: Option<&'a [u8]>,
    /// The last `--root`.
    pub root: Option<&'a [u8]>,
}

impl<'a> Other<'a> {
    fn new(alloc: Global) -> Other<'a>
        ensures { other_of result ≡ no_other }
    {
        Other {
            configurations: Vec::new(alloc),
            directory: None,
            release: None,
            root: None,
        }
    }

    /// Adds an option with a value, if it says which files are meant.
    fn add(&mut self, valued: Valued, text: &'a [u8]) -> Result<(), AllocError>
        ensures { OnOk result (other_of self.new ≡ with_place (other_of self.old) valued text.entry.now) }
    {
        match valued {
            Valued::Config => self.configurations.push(text)?,
            Valued::Dirname => self.directory = Some(text),
            Valued::SetVersion => self.release = Some(text),
            Valued::Root => self.root = Some(text),
            Valued::Wait | Valued::As | Valued::Explain | Valued::Lint | Valued::Ignore => {}
        }
        Ok(())
    }
}

/// What a command line asks for, if its words are not refused.
#[derive(Drop)]
pub struct Asked<'a> {
    pub switches: Switches,
    /// Each `-C`.
    pub configurations: Vec<&'a [u8]>,
    /// Each `--ignore=FILE`.
    pub ignores: Vec<&'a [u8]>,
    /// The last `-d`.
    pub directory: Option<&'a [u8]>,
    /// The last `-S`.
    pub release: Option<&'a [u8]>,
    /// The last `--root`.
    pub root: Option<&'a [u8]>,
    /// What stands behind `--diff` of these.
    pub other: Other<'a>,
    /// The last `--as`; kmod 34 without one.
    pub kmod: Kmod,
    /// The words that are no options.
    pub words: Vec<&'a [u8]>,
}

impl<'a> Asked<'a> {
    fn new(alloc: Global) -> Asked<'a>
        ensures { asked_of result ≡ nothing_asked }
    {
        Asked {
            switches: Switches::new(),
            configurations: Vec::new(alloc),
            ignores: Vec::new(alloc),
            directory: None,
            release: None,
            root: None,
            other: Other::new(alloc),
            kmod: Kmod::Version34,
            words: Vec::new(alloc),
        }
    }

    fn add(&mut self, item: Item<'a>) -> Result<(), AllocError>
        ensures { OnOk result (asked_of self.new ≡ with_item (asked_of self.old) (item_of item.entry)) }
    {
        match item {
            Item::Plain(option) => self.switches = self.switches.with(option),
            Item::WithValue(valued, text) if self.switches.diff && names_files(valued) => {
                self.other.add(valued, text)?;
            }
            Item::WithValue(Valued::Config, text) => self.configurations.push(text)?,
            Item::WithValue(Valued::Dirname, text) => self.directory = Some(text),
            Item::WithValue(Valued::SetVersion, text) => self.release = Some(text),
            Item::WithValue(Valued::Root, text) => self.root = Some(text),
            Item::WithValue(Valued::As, text) => self.kmod = Kmod::of(text).unwrap_or(self.kmod),
            Item::WithValue(Valued::Explain, text) => {
                self.switches = self.switches.with_form(Form::of(text));
            }
            Item::WithValue(Valued::Lint, text) => {
                let switches = self.switches.with(Switch::Lint);
                self.switches = switches.with_form(Form::of(text));
            }
            Item::WithValue(Valued::Ignore, text) => self.ignores.push(text)?,
            Item::Operand(word) => self.words.push(word)?,
            Item::WithValue(Valued::Wait, _) | Item::Refused(_) => {}
        }
        Ok(())
    }

    /// What items ask for, one after another. It fails only out of memory.
    pub fn by(alloc: Global, items: &[Item<'a>]) -> Result<Asked<'a>, AllocError>
        ensures { IfOk result (λ asked. asked_of asked ≡ asked_by (items_of items.entry.now)) }
    {
        let mut asked = Asked::new(alloc);
        for item in items {
            asked.add(*item)?;
        }
        Ok(asked)
    }

    /// What is asked of the other machine: the same, but for what stands behind `--diff`. Its configurations come before those
    /// of the first. It fails only out of memory.
    pub fn second(&self, alloc: Global) -> Result<Asked<'a>, AllocError>
        ensures { IfOk result (λ own. asked_of own ≡ second_of (asked_of self.now)) }
    {
        let mut configurations = Vec::from_slice(alloc, &self.other.configurations)?;
        configurations.extend_from_slice(&self.configurations)?;
        Ok(Asked {
            switches: self.switches,
            configurations,
            ignores: Vec::from_slice(alloc, &self.ignores)?,
            directory: self.other.directory.or(self.directory),
            release: self.other.release.or(self.release),
            root: self.other.root.or(self.root),
            other: Other::new(alloc),
            kmod: self.kmod,
            words: Vec::from_slice(alloc, &self.words)?,
        })
    }
}

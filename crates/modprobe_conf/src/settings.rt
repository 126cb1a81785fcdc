//! What a configuration says of one module.
use crate::softdep::Softdep;
use crate::word::Word;
use std::alloc::{AllocError, Global};
use std::marker::Model;

/// What a line says of its module.
#[derive(Drop)]
pub(crate) enum Line {
    Blacklist,
    Install,
    Remove,
    Options(Vec<Word>),
    Softdep(Softdep),
}

/// What all lines of a configuration say of one module.
#[derive(Drop)]
pub struct Settings {
    options: Vec<Word>,
    softdep: Option<Softdep>,
    has_install: bool,
    has_remove: bool,
    is_blacklisted: bool,
}

impl Model for Settings {
    ghost use Rattle.modprobe_conf.specs.Configuration.{ModuleSettings};

    ghost Value = { ModuleSettings };

    ghost view = { λ s. record {
      options = s.options.items;
      softdep = s.softdep;
      has_install = s.has_install;
      has_remove = s.has_remove;
      is_blacklisted = s.is_blacklisted;
    } };
}

impl Settings {
    ghost use Rattle.std.specs.Prelude.{◌≡◌, ◌++◌, [], OnOk, option_copied};
    ghost use Rattle.modprobe_conf.specs.Configuration.{settings_by, with_line};
    ghost use Rattle.modprobe_conf.specs.ForProofs.{line_of};

    pub(crate) fn new(alloc: Global) -> Settings
        ensures { result ≡ settings_by [] }
    {
        Settings {
            options: Vec::new(alloc),
            softdep: None,
            has_install: false,
            has_remove: false,
            is_blacklisted: false,
        }
    }

    fn add_words(&mut self, mut words: Vec<Word>) -> Result<(), AllocError>
        ensures { OnOk result (self.new
            ≡ record self.old { options = self.old.options ++ words.items }) }
    {
        if self.options.is_empty() {
            self.options = words;
            return Ok(());
        }
        self.options.append(&mut words)?;
        Ok(())
    }

    pub(crate) fn add(&mut self, said: Line) -> Result<(), AllocError>
        ensures { OnOk result (self.new ≡ with_line self.old (line_of said)) }
    {
        match said {
            Line::Blacklist => self.is_blacklisted = true,
            Line::Install => self.has_install = true,
            Line::Remove => self.has_remove = true,
            Line::Options(words) => self.add_words(words)?,
            Line::Softdep(softdep) => {
                if self.softdep.is_none() {
                    self.softdep = Some(softdep);
                }
            }
        }
        Ok(())
    }

    /// The words of all options lines, in file order.
    pub fn options(&self) -> &[Word]
        ensures { result.now ≡ self.now.options }
    {
        &self.options
    }

    /// The items of the first softdep line.
    pub fn softdep(&self) -> Option<&Softdep>
        ensures { option_copied result ≡ self.now.softdep }
    {
        self.softdep.as_ref()
    }

    /// Whether there is an install line.
    pub fn has_install(&self) -> bool
        ensures { result ≡ self.now.has_install }
    {
        self.has_install
    }

    /// Whether there is a remove line.
    pub fn has_remove(&self) -> bool
        ensures { result ≡ self.now.has_remove }
    {
        self.has_remove
    }

    /// Whether there is a blacklist line.
    pub fn is_blacklisted(&self) -> bool
        ensures { result ≡ self.now.is_blacklisted }
    {
        self.is_blacklisted
    }
}

//! What leads to a module: who needs it, which lines have it, and which devices ask for it.

use crate::kept::kept_names;
use crate::known::Known;
use crate::named_lines::NamedLines;
use crate::sources::{Device, Sources};
use crate::told::{Told, line_spot};
use crate::told_words::{ALIASES, DEPENDENCIES};
use answer_facts::{Blacklist, Command, Fact, LeadFact, ModuleFact, Passed, Spot, What};
use indexmap::IndexSet;
use kmod_conf::WeakdepLine;
use kmod_index::DepLine;
use kmod_query::{Asked, Object, Query, World, install_line, remove_line};
use std::alloc::{AllocError, Global};
use text_parts::is_same;

/// What leads to names.
#[derive(Drop)]
pub struct Leads<'a> {
    pub facts: Vec<Fact<'a>>,
    /// Whether a name stands for no module.
    pub is_missing: bool,
}

impl<'a> Told<'_, 'a> {
    /// The module of a line of modules.dep.
    pub(crate) fn module_of(&self, line: &DepLine<'_>) -> Result<&'a [u8], AllocError> {
        let name = line.name(self.alloc)?;
        self.kept(name.as_bytes())
    }

    /// Through which of the needs of a line a module is needed: none if the line's module needs it itself.
    fn through_of(&self, line: &DepLine<'_>, name: &[u8]) -> Result<&'a [&'a [u8]], AllocError> {
        let asked = self.known.asked;
        let index = asked.world.index;
        let needs = line.needed_names(self.alloc)?;
        let through = index.nearest(self.alloc, &needs, name)?;
        kept_names(self.alloc, self.texts, &through)
    }

    /// Tells a module that needs another one, if it does so in this way: itself, or through others.
    fn tell_needing(
        &mut self,
        line: &DepLine<'_>,
        needs: &'a [u8],
        is_direct: bool,
    ) -> Result<(), AllocError> {
        let through = self.through_of(line, needs)?;
        if through.is_empty() != is_direct {
            return Ok(());
        }
        let own = self.module_of(line)?;
        let spot = line_spot(DEPENDENCIES, line.number());
        let what = What::Module(ModuleFact::Needs { needs, through });
        self.say(own, what, spot)
    }

    /// Tells the modules that need a module: first those that need it themselves.
    fn tell_all_needing(&mut self, name: &'a [u8]) -> Result<(), AllocError> {
        let asked = self.known.asked;
        let index = asked.world.index;
        let lines = index.needing(self.alloc, name)?;
        for line in &lines {
            self.tell_needing(line, name, true)?;
        }
        for line in &lines {
            self.tell_needing(line, name, false)?;
        }
        Ok(())
    }

    /// Tells the weak items of a line that stand for a module.
    fn tell_weakdep(&mut self, line: &'a WeakdepLine, name: &[u8]) -> Result<(), AllocError> {
        for word in line.items.words() {
            if self.leads_to(word.as_bytes(), name)? {
                let what = What::Lead(LeadFact::Weakdep(line.name.as_bytes()));
                self.say_of(word.as_bytes(), what, line.place)?;
            }
        }
        Ok(())
    }

    /// Tells the soft and weak dependencies that a module is.
    fn tell_soft_leads(&mut self, name: &[u8]) -> Result<(), AllocError> {
        let asked = self.known.asked;
        let conf = asked.world.conf;
        for line in conf.softdeps() {
            self.tell_softdep(line, name)?;
        }
        for line in conf.weakdeps() {
            self.tell_weakdep(line, name)?;
        }
        Ok(())
    }

    /// Tells the lines of the configuration that have aliases of a module.
    fn tell_own_aliases(&mut self, name: &'a [u8]) -> Result<(), AllocError> {
        let asked = self.known.asked;
        let conf = asked.world.conf;
        for line in conf.aliases() {
            if is_same(line.target.as_bytes(), name) {
                let what = What::Lead(LeadFact::Alias(name));
                self.say_of(line.pattern.as_bytes(), what, line.place)?;
            }
        }
        Ok(())
    }

    /// Tells the lines of the configuration that have the name of a module.
    fn tell_own_lines(&mut self, name: &'a [u8]) -> Result<(), AllocError> {
        let (asked, named) = (self.known.asked, self.known.named);
        self.tell_own_aliases(name)?;
        self.tell_blacklist(name, Blacklist::Listed)?;
        self.tell_misspelt(name)?;
        self.tell_options(name, None)?;
        let (install, remove, passed) = (Command::Install, Command::Remove, Passed::Never);
        let line = install_line(self.alloc, &asked.world, name, None)?;
        self.tell_commands(name, install, line, &named.installs, passed)?;
        let line = remove_line(self.alloc, &asked.world, name, None)?;
        self.tell_commands(name, remove, line, &named.removes, passed)
    }

    /// Tells a device, if its alias stands for a module.
    fn tell_device(&mut self, device: &'a Device, name: &'a [u8]) -> Result<(), AllocError> {
        if !self.leads_to(&device.alias, name)? {
            return Ok(());
        }
        let what = What::Lead(LeadFact::Device(name));
        self.say(&device.alias, what, Spot::Whole(&device.folder))
    }

    /// Tells the lines of modules.alias of a module.
    fn tell_alias_lines(&mut self, name: &'a [u8]) -> Result<(), AllocError> {
        let asked = self.known.asked;
        let index = asked.world.index;
        let lines = index.alias_lines(self.alloc)?;
        for line in &lines {
            if is_same(line.name(), name) {
                let what = What::Lead(LeadFact::Alias(name));
                let key = self.kept(line.key())?;
                self.say(key, what, line_spot(ALIASES, line.number()))?;
            }
        }
        Ok(())
    }

    /// Tells what leads to a module.
    fn tell_leads(&mut self, name: &'a [u8], devices: &'a [Device]) -> Result<(), AllocError> {
        self.tell_all_needing(name)?;
        self.tell_soft_leads(name)?;
        self.tell_own_lines(name)?;
        for device in devices {
            self.tell_device(device, name)?;
        }
        self.tell_alias_lines(name)
    }

    /// Tells what a name stands for, and what leads to that. Returns whether it stands for a module.
    fn tell_lead_word(
        &mut self,
        word: &'a [u8],
        devices: &'a [Device],
    ) -> Result<bool, AllocError> {
        let found = self.tell_word(word)?;
        let objects = found.as_deref().unwrap_or(&[]);
        if objects.is_empty() {
            self.tell_near(word)?;
            return Ok(false);
        }
        let mut told = IndexSet::new(self.alloc);
        self.tell_lead_objects(&mut told, objects, devices)?;
        Ok(true)
    }

    /// Tells what leads to modules, to each once. `told` has none yet.
    fn tell_lead_objects(
        &mut self,
        told: &mut IndexSet<&'a [u8]>,
        objects: &[Object],
        devices: &'a [Device],
    ) -> Result<(), AllocError> {
        for object in objects {
            let name = self.kept(&object.name)?;
            if told.insert(name)? {
                self.tell_leads(name, devices)?;
            }
        }
        Ok(())
    }

    fn tell_lead_words(&mut self, devices: &'a [Device]) -> Result<bool, AllocError> {
        let asked = self.known.asked;
        let mut is_missing = false;
        for word in asked.query.words {
            let found = self.tell_lead_word(word, devices)?;
            is_missing = is_missing || !found;
        }
        Ok(is_missing)
    }
}

/// What leads to the names of a query. `named` has no lines yet, as `explanation` has it.
fn told_leads<'a>(
    alloc: Global,
    sources: &Sources<'a>,
    asked: &Asked<'a>,
    named: &mut NamedLines<'a>,
) -> Result<Leads<'a>, AllocError> {
    named.add(alloc, asked.world.conf, sources.builtin)?;
    let known = Known {
        asked,
        named,
        sources,
        refused: b"",
    };
    let mut told = Told::new(alloc, &known);
    let is_missing = told.tell_lead_words(sources.devices)?;
    Ok(Leads {
        facts: told.take_facts(),
        is_missing,
    })
}

/// What leads to the modules of names: the modules that need them, soft and weak dependencies, lines of the configuration,
/// devices whose alias stands for them, and their lines of modules.alias. It fails only if memory runs out.
pub fn leads_to<'a>(
    alloc: Global,
    sources: &Sources<'a>,
    world: &World<'a>,
    query: &Query<'a>,
) -> Result<Leads<'a>, AllocError> {
    let mut named = NamedLines::new(alloc);
    let asked = Asked {
        alloc,
        world: *world,
        query: *query,
    };
    told_leads(alloc, sources, &asked, &mut named)
}

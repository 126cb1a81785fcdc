//! What is reported of a load, module by module in the order in which they are loaded.
ghost use Rattle.std.specs.Prelude.{◌≡◌, IfOk};
ghost use Rattle.kmod_query.specs.Lines.{has_soft_items};
ghost use Rattle.kmod_query.specs.World.{facts_of};
ghost use Rattle.answer_reasons.specs.Passing.{passed_by};

use crate::exemptions::Exemption;
use crate::kept::kept_names;
use crate::tasks::{Need, SoftWords, Subject, Task, Tasks};
use crate::told::{Told, line_spot};
use crate::told_words::DEPENDENCIES;
use answer_facts::{Command, LineFact, ModuleFact, Outcome, Passed, Side, What};
use kmod_names::Text;
use kmod_query::{Ask, World, has_soft_items, install_line};
use std::alloc::{AllocError, Global};

/// Why an install line of a module is passed over, if it is. `bare` says that `-i` does it.
fn passed_by(
    alloc: Global,
    world: &World<'_>,
    bare: bool,
    name: &[u8],
) -> Result<Passed, AllocError>
    ensures { IfOk result (λ passed. passed ≡ passed_by bare (has_soft_items (facts_of world.now) name.now)) }
{
    if bare {
        return Ok(Passed::ByOption);
    }
    if has_soft_items(alloc, world, name)? {
        return Ok(Passed::BySoftItems);
    }
    Ok(Passed::Never)
}

impl<'a> Told<'_, 'a> {
    /// One of the needs of a module, whose line in modules.dep has this number.
    fn need_of(
        &self,
        by: &'a [u8],
        needs: &[Text],
        need: &[u8],
        number: usize,
    ) -> Result<Need<'a>, AllocError> {
        let asked = self.known.asked;
        let index = asked.world.index;
        let nearest = index.nearest(self.alloc, needs, need)?;
        let through = kept_names(self.alloc, self.texts, &nearest)?;
        let name = self.kept(need)?;
        Ok(Need {
            name,
            by,
            through,
            number,
        })
    }

    /// What a module needs by its line of modules.dep, which has this number.
    fn needs_by(
        &self,
        by: &'a [u8],
        needs: &[Text],
        number: usize,
    ) -> Result<Vec<Need<'a>>, AllocError> {
        let mut all = Vec::new(self.alloc);
        for need in needs {
            all.push(self.need_of(by, needs, need.as_bytes(), number)?)?;
        }
        Ok(all)
    }

    /// What a module needs, in the order in which it is loaded.
    pub(crate) fn needs_of(&self, name: &'a [u8]) -> Result<Vec<Need<'a>>, AllocError> {
        let asked = self.known.asked;
        let index = asked.world.index;
        match index.find(name) {
            Some(line) => {
                let needs = line.needed_names(self.alloc)?;
                self.needs_by(name, &needs, line.number())
            }
            None => Ok(Vec::new(self.alloc)),
        }
    }

    /// Tells who needs a module, and how.
    pub(crate) fn say_need(&mut self, need: Need<'a>) -> Result<(), AllocError> {
        let what = What::Module(ModuleFact::NeededBy {
            by: need.by,
            through: need.through,
        });
        self.say(need.name, what, line_spot(DEPENDENCIES, need.number))
    }

    /// Goes on with what a module needs, and then with the module.
    pub(crate) fn tell_load(
        &mut self,
        tasks: &mut Tasks<'a>,
        subject: Subject<'a>,
    ) -> Result<(), AllocError> {
        if !tasks.begin_load(subject)? {
            return Ok(());
        }
        tasks.push(Task::Fill(subject))?;
        let needs = self.needs_of(subject.name)?;
        for need in needs.iter().rev() {
            tasks.push(Task::Need(*need))?;
        }
        Ok(())
    }

    /// Tells who needs a module, and goes on with it.
    pub(crate) fn tell_need(
        &mut self,
        tasks: &mut Tasks<'a>,
        need: Need<'a>,
    ) -> Result<(), AllocError> {
        self.say_need(need)?;
        self.tell_exempt(tasks, need.name, Exemption::Needed)?;
        tasks.push(Task::Fill(Subject::by_name(need.name)))
    }

    /// Goes on with the soft items before a module, the module, and those after it. Under -i those of a name of the query are
    /// passed over.
    pub(crate) fn tell_fill(
        &mut self,
        tasks: &mut Tasks<'a>,
        subject: Subject<'a>,
    ) -> Result<(), AllocError> {
        if !tasks.begin_fill(subject)? {
            return Ok(());
        }
        let (name, own) = (subject.name, Task::Own(subject));
        let asked = self.known.asked;
        let conf = asked.world.conf;
        let Some(line) = conf.softdep_of(self.alloc, name)? else {
            return tasks.push(own);
        };
        if subject.bare {
            self.say_of(name, What::Line(LineFact::Softdep), line.place)?;
            return tasks.push(own);
        }
        tasks.push(Task::Soft(SoftWords::of(name, Side::After, line)))?;
        tasks.push(own)?;
        tasks.push(Task::Soft(SoftWords::of(name, Side::Before, line)))
    }

    /// Tells what counts for a load of a module that the kernel does not have.
    fn tell_line(&mut self, subject: Subject<'a>, has_file: bool) -> Result<(), AllocError> {
        let (name, alias) = (subject.name, subject.alias);
        if has_file {
            self.tell_refused(name)?;
        }
        let asked = self.known.asked;
        let line = install_line(self.alloc, &asked.world, name, alias)?;
        let passed = match line {
            Some(_) => passed_by(self.alloc, &asked.world, subject.bare, name)?,
            None => Passed::Never,
        };
        let is_loaded = has_file || (line.is_some() && matches!(passed, Passed::Never));
        if is_loaded {
            self.tell_options(name, alias)?;
        }
        let named = self.known.named;
        self.tell_commands(name, Command::Install, line, &named.installs, passed)?;
        if is_loaded || self.known.is_built_in(name, subject.builtin) {
            return Ok(());
        }
        self.tell_no_module(name)
    }

    /// Tells the lines of a module that count for a load of it, and those of its name that do not.
    fn tell_loaded(
        &mut self,
        tasks: &mut Tasks<'a>,
        subject: Subject<'a>,
    ) -> Result<(), AllocError> {
        let name = subject.name;
        let is_dry = matches!(self.known.asked.query.ask, Ask::DryRun);
        let is_named = subject.alias.is_none() && tasks.has_file(name);
        let is_built_in = !is_named && self.known.is_built_in(name, subject.builtin);
        let asked = self.known.asked;
        let conf = asked.world.conf;
        if let Some(line) = conf.softdep_of(self.alloc, name)? {
            self.tell_later_softdeps(name, line.place)?;
        }
        if is_dry && (is_built_in || self.known.is_live(name)) {
            return self.tell_in_kernel(name, Outcome::Silent);
        }
        let has_file = is_named || self.known.has_file(name);
        self.tell_line(subject, has_file)
    }

    /// Tells the lines of a module of a load, unless they were told.
    pub(crate) fn tell_own(
        &mut self,
        tasks: &mut Tasks<'a>,
        subject: Subject<'a>,
    ) -> Result<(), AllocError> {
        let own = Subject {
            bare: tasks.is_bare(subject),
            ..subject
        };
        if !tasks.begin_own(own)? {
            return Ok(());
        }
        self.tell_loaded(tasks, own)
    }
}

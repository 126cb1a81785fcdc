//! Why an answer is as it is: which line of which file says so.

use crate::kept::kept;
use crate::kernel_list::{kernel_list, kernel_words, unquoted};
use crate::known::Known;
use crate::named_lines::NamedLines;
use crate::sources::Sources;
use crate::tasks::{Subject, Task, Tasks};
use crate::told::Told;
use answer_facts::{Blacklist, Fact, MissingFact, NameFact, Outcome, RemovalFact, Spot, What};
use bumpalo::Bump;
use kmod_names::name_of_path;
use kmod_query::{
    Ask, Asked, AtPath, Object, OwnFile, Query, World, is_barred, is_fatal, is_passed,
};
use std::alloc::{AllocError, Global};
use text_parts::is_same;

/// How many words of a query are names.
fn name_count(query: &Query<'_>) -> usize {
    match query.ask {
        Ask::ShowConfig => 0,
        Ask::Remove | Ask::ShowRemoval => query.words.len(),
        Ask::ShowDepends | Ask::DryRun | Ask::Resolve => {
            if query.all { query.words.len() } else { 1 }
        }
    }
}

/// What a blacklist line does that holds, for a module that is in the kernel or not.
fn held_by(is_builtin: bool) -> Blacklist {
    if is_builtin {
        Blacklist::InKernel
    } else {
        Blacklist::Holds
    }
}

impl<'a> Told<'_, 'a> {
    /// Tells whether a module is loaded in a world, and what that leads to.
    fn begin_load(
        &mut self,
        tasks: &mut Tasks<'a>,
        world: &World<'_>,
        object: &Object,
        subject: Subject<'a>,
    ) -> Result<(), AllocError> {
        let query = &self.known.asked.query;
        if is_passed(world, query, object) {
            return self.tell_in_kernel(subject.name, Outcome::NothingLoaded);
        }
        if is_barred(world, query, object) {
            let is_builtin = world.index.is_builtin(&object.name);
            return self.tell_blacklist(subject.name, held_by(is_builtin));
        }
        self.tell_exempt_object(tasks, world, object, subject.name)?;
        if subject.alias.is_some() || query.use_blacklist {
            self.tell_misspelt(subject.name)?;
        }
        let asked = Subject {
            bare: query.ignore_commands,
            ..subject
        };
        tasks.begin_list(asked);
        tasks.push(Task::Load(asked))?;
        self.tell_tasks(tasks)
    }

    /// Tells what becomes of a module that is to be removed, and what that leads to. Returns whether it is refused.
    fn tell_whole(
        &mut self,
        tasks: &mut Tasks<'a>,
        subject: Subject<'a>,
    ) -> Result<bool, AllocError> {
        tasks.begin_module();
        tasks.push(Task::Remove {
            soft: false,
            subject,
        })?;
        self.tell_tasks(tasks)?;
        Ok(tasks.is_refused())
    }

    /// Tells what becomes of a module that a name stands for. Returns whether it is refused.
    fn begin(
        &mut self,
        tasks: &mut Tasks<'a>,
        object: &Object,
        subject: Subject<'a>,
    ) -> Result<bool, AllocError> {
        let asked = self.known.asked;
        match asked.query.ask {
            Ask::ShowDepends | Ask::DryRun => {
                self.begin_load(tasks, &asked.world, object, subject)?;
                Ok(false)
            }
            Ask::Resolve => {
                self.tell_exempt_object(tasks, &asked.world, object, subject.name)?;
                Ok(false)
            }
            Ask::Remove | Ask::ShowRemoval => self.tell_whole(tasks, subject),
            Ask::ShowConfig => Ok(false),
        }
    }

    /// Tells the modules of a name that are left out, since one is refused.
    fn tell_left_out(&mut self, refused: &'a [u8], objects: &[Object]) -> Result<(), AllocError> {
        for object in objects {
            if !is_same(&object.name, refused) {
                let name = self.kept(&object.name)?;
                self.say_removal(name, RemovalFact::LeftOut(refused))?;
            }
        }
        Ok(())
    }

    /// Tells what becomes of the modules of a name, up to one that is refused, or with which all ends. Returns whether one is
    /// refused.
    fn begin_each(
        &mut self,
        tasks: &mut Tasks<'a>,
        objects: &[Object],
    ) -> Result<bool, AllocError> {
        for (at, object) in objects.iter().enumerate() {
            let subject = Subject::of(self.texts, object)?;
            let is_refused = self.begin(tasks, object, subject)?;
            let refused = tasks.ended_by().unwrap_or(subject.name);
            if is_refused || tasks.ended_by().is_some() {
                let later = objects.get(at.saturating_add(1)..);
                self.tell_left_out(refused, later.unwrap_or(&[]))?;
                return Ok(is_refused);
            }
        }
        Ok(false)
    }

    /// Tells why a name of the command line stands for modules, and what becomes of them. Returns whether it is refused.
    fn begin_word(&mut self, tasks: &mut Tasks<'a>, word: &'a [u8]) -> Result<bool, AllocError> {
        let found = self.tell_word(word)?;
        let objects = found.as_deref().unwrap_or(&[]);
        if objects.is_empty() {
            self.tell_near(word)?;
            return Ok(found.is_some());
        }
        self.begin_each(tasks, objects)
    }

    /// Tells the file of a path, and what becomes of its module.
    fn begin_file(
        &mut self,
        tasks: &mut Tasks<'a>,
        word: &'a [u8],
        file: &'a [u8],
    ) -> Result<(), AllocError> {
        let name = self.name_at(word)?;
        let what = What::Name(NameFact::File(name));
        self.say(word, what, Spot::Whole(file))?;
        let object = Object::by_name(self.alloc, name)?;
        self.begin_own(tasks, &object, OwnFile { name, file })
    }

    /// The name of the module of a path.
    pub(crate) fn name_at(&self, path: &[u8]) -> Result<&'a [u8], AllocError> {
        let name = name_of_path(self.alloc, path)?;
        self.kept(name.as_bytes())
    }

    /// Tells what becomes of the module that has this file.
    fn begin_own(
        &mut self,
        tasks: &mut Tasks<'a>,
        object: &Object,
        own: OwnFile<'a>,
    ) -> Result<(), AllocError> {
        let world = self.known.asked.world.with_own(own);
        if matches!(self.known.asked.query.ask, Ask::Resolve) {
            return self.tell_exempt_object(tasks, &world, object, own.name);
        }
        tasks.add_file(own.name)?;
        self.begin_load(tasks, &world, object, Subject::by_name(own.name))
    }

    /// Tells what stands at a path, and what becomes of its module.
    fn begin_path(
        &mut self,
        tasks: &mut Tasks<'a>,
        word: &'a [u8],
        at: &'a AtPath,
    ) -> Result<(), AllocError> {
        match at {
            AtPath::File(file) => self.begin_file(tasks, word, file.as_bytes()),
            AtPath::Nothing(reason) => {
                let fact = MissingFact::BadPath(reason.as_bytes());
                self.say(word, What::Missing(fact), Spot::Nowhere)
            }
        }
    }

    /// Tells a word of the command line: a path or a name. A removal has no paths.
    fn tell_asked(&mut self, tasks: &mut Tasks<'a>, word: &'a [u8]) -> Result<(), AllocError> {
        tasks.begin_name();
        let asked = self.known.asked;
        let paths = asked.world.paths;
        match paths.iter().find(|own| is_same(own.word.as_bytes(), word)) {
            Some(own) if !self.known.is_removal() => self.begin_path(tasks, word, &own.at),
            _ => self.tell_name(tasks, word),
        }
    }

    /// Tells a name. Its refusal may end a removal.
    fn tell_name(&mut self, tasks: &mut Tasks<'a>, word: &'a [u8]) -> Result<(), AllocError> {
        tasks.begin_module();
        let refused = self.begin_word(tasks, word)?;
        let ends = refused && !tasks.is_gone() && is_fatal(&self.known.asked.query);
        if self.known.is_removal() && ends && tasks.ended_by().is_none() {
            tasks.end(word);
        }
        Ok(())
    }

    /// Tells a name that is left out, since one is refused. It is told as a module if it is just the name of one.
    fn tell_left_out_name(&mut self, word: &'a [u8], refused: &'a [u8]) -> Result<(), AllocError> {
        let what = if self.leads_to(word, word)? {
            What::Removal(RemovalFact::LeftOut(refused))
        } else {
            What::Name(NameFact::LeftOut(refused))
        };
        self.say(word, what, Spot::Nowhere)
    }

    /// Tells the names, as far as they are asked for, and what they lead to.
    fn tell_names(&mut self, tasks: &mut Tasks<'a>) -> Result<(), AllocError> {
        let query = &self.known.asked.query;
        for word in query.words.iter().take(name_count(query)) {
            match tasks.ended_by() {
                Some(refused) => self.tell_left_out_name(word, refused)?,
                None => self.tell_asked(tasks, word)?,
            }
        }
        Ok(())
    }

    fn tell_task(&mut self, tasks: &mut Tasks<'a>, task: Task<'a>) -> Result<(), AllocError> {
        match task {
            Task::Load(subject) => self.tell_load(tasks, subject),
            Task::Need(need) => self.tell_need(tasks, need),
            Task::Fill(subject) => self.tell_fill(tasks, subject),
            Task::Soft(words) => self.tell_soft(tasks, words),
            Task::Own(subject) => self.tell_own(tasks, subject),
            Task::Remove { soft, subject } => self.tell_removal(tasks, soft, subject),
            Task::Release { soft, subject } => self.tell_release(tasks, soft, subject),
            Task::Leave => {
                tasks.leave();
                Ok(())
            }
        }
    }

    /// Tells what is to be told, and what that leads to.
    fn tell_tasks(&mut self, tasks: &mut Tasks<'a>) -> Result<(), AllocError> {
        // Each task may add others. The bound is for the proof that it ends, and is never met.
        for _task in 0..usize::MAX {
            let Some(task) = tasks.next() else {
                return Ok(());
            };
            self.tell_task(tasks, task)?;
        }
        Ok(())
    }

    /// Tells why the words of the query are answered as they are.
    fn tell_words(&mut self) -> Result<(), AllocError> {
        let query = &self.known.asked.query;
        let mut tasks = Tasks::new(self.alloc, query.all && query.ignore_commands);
        self.tell_names(&mut tasks)
    }

    fn tell_all(&mut self) -> Result<(), AllocError> {
        self.tell_words()?;
        if matches!(self.known.asked.query.ask, Ask::ShowConfig) {
            self.tell_idle()?;
        }
        self.say_hidden()?;
        self.say_unread()?;
        self.say_line_ends()
    }
}

/// The names of `module_blacklist=` of the kernel's command line, with commas between them.
fn refused_by<'a>(
    alloc: Global,
    texts: &'a Bump,
    command_line: &[u8],
) -> Result<&'a [u8], AllocError> {
    let words = kernel_words(alloc, command_line)?;
    kept_list(alloc, texts, &words)
}

/// A copy of the list of the last `module_blacklist=` among words.
fn kept_list<'a>(alloc: Global, texts: &'a Bump, words: &[&[u8]]) -> Result<&'a [u8], AllocError> {
    let mut given = Vec::new(alloc);
    for word in words {
        given.push(unquoted(word))?;
    }
    kept(texts, unquoted(kernel_list(&given)))
}

/// The facts of an explanation. They are told over `named`, which has no lines yet: the caller has it, so that no step
/// that may be refused has to drop it.
fn explained<'a>(
    alloc: Global,
    sources: &Sources<'a>,
    asked: &Asked<'a>,
    named: &mut NamedLines<'a>,
) -> Result<Vec<Fact<'a>>, AllocError> {
    named.add(alloc, asked.world.conf, sources.builtin)?;
    let known = Known {
        asked,
        named,
        sources,
        refused: refused_by(alloc, sources.texts, sources.command_line)?,
    };
    let mut told = Told::new(alloc, &known);
    told.tell_all()?;
    Ok(told.take_facts())
}

/// Why a query of a world is answered as it is. It fails only if memory runs out.
pub fn explanation<'a>(
    alloc: Global,
    sources: &Sources<'a>,
    world: &World<'a>,
    query: &Query<'a>,
) -> Result<Vec<Fact<'a>>, AllocError> {
    let mut named = NamedLines::new(alloc);
    let asked = Asked {
        alloc,
        world: *world,
        query: *query,
    };
    explained(alloc, sources, &asked, &mut named)
}

//! What is reported of words of softdep lines.

use crate::exemptions::Exemption;
use crate::tasks::{SoftWords, Subject, Task, Tasks};
use crate::told::Told;
use answer_facts::{IdleFact, LeadFact, Setting, What};
use kmod_names::Place;
use kmod_query::{Object, find_word};
use std::alloc::AllocError;

impl<'a> Told<'_, 'a> {
    /// The modules that objects are.
    fn subjects_of(&self, objects: &[Object]) -> Result<Vec<Subject<'a>>, AllocError> {
        let mut subjects = Vec::new(self.alloc);
        for object in objects {
            subjects.push(Subject::of(self.texts, object)?)?;
        }
        Ok(subjects)
    }

    /// Goes on with modules for which a word of a softdep line stands: a load with the first of them, a removal with the
    /// last.
    fn follow_each(
        &mut self,
        tasks: &mut Tasks<'a>,
        subjects: &[Subject<'a>],
    ) -> Result<(), AllocError> {
        if self.known.is_removal() {
            for subject in subjects {
                tasks.push(Task::Remove {
                    soft: true,
                    subject: *subject,
                })?;
            }
            return Ok(());
        }
        for subject in subjects {
            self.tell_exempt(tasks, subject.name, Exemption::SoftDependency)?;
        }
        for subject in subjects.iter().rev() {
            tasks.push(Task::Load(*subject))?;
        }
        Ok(())
    }

    /// Goes on with the modules for which a word of a softdep line stands.
    fn follow(&mut self, tasks: &mut Tasks<'a>, objects: &[Object]) -> Result<(), AllocError> {
        let subjects = self.subjects_of(objects)?;
        self.follow_each(tasks, &subjects)
    }

    /// Tells that a word is a soft dependency.
    pub(crate) fn say_soft_word(
        &mut self,
        own: SoftWords<'a>,
        word: &'a [u8],
    ) -> Result<(), AllocError> {
        let (side, of) = (own.side, own.of);
        let what = What::Lead(LeadFact::Softdep { side, of });
        self.say_of(word, what, own.place)
    }

    /// Tells a word of a softdep line; and why it stands for modules, with these, if that was not told.
    fn tell_soft_word(
        &mut self,
        tasks: &mut Tasks<'a>,
        own: SoftWords<'a>,
        word: &'a [u8],
    ) -> Result<(), AllocError> {
        self.say_soft_word(own, word)?;
        if !tasks.begin_word(word)? {
            return self.follow_again(tasks, word);
        }
        let found = self.tell_word(word)?;
        self.follow(tasks, found.as_deref().unwrap_or(&[]))
    }

    /// Tells the next of these words, the first in a load and the last in a removal, and goes on with the others.
    pub(crate) fn tell_soft(
        &mut self,
        tasks: &mut Tasks<'a>,
        own: SoftWords<'a>,
    ) -> Result<(), AllocError> {
        let next = if self.known.is_removal() {
            own.words.split_last()
        } else {
            own.words.split_first()
        };
        let Some((word, words)) = next else {
            return Ok(());
        };
        tasks.push(Task::Soft(SoftWords { words, ..own }))?;
        self.tell_soft_word(tasks, own, word.as_bytes())
    }

    /// Goes on with the modules for which a word stands, of which it was told why: a load takes them once, and a removal
    /// each time.
    fn follow_again(&mut self, tasks: &mut Tasks<'a>, word: &[u8]) -> Result<(), AllocError> {
        if !self.known.is_removal() {
            return Ok(());
        }
        let objects = find_word(self.alloc, &self.known.asked.world, word)?;
        self.follow(tasks, &objects)
    }

    /// Tells the softdep lines of a module that do not count, since one at a place does.
    pub(crate) fn tell_later_softdeps(
        &mut self,
        name: &'a [u8],
        place: Place,
    ) -> Result<(), AllocError> {
        let named = self.known.named;
        let what = What::Idle(IdleFact::Later(Setting::Softdep));
        self.say_of_each(name, what, &named.softdeps, Some(place))
    }
}

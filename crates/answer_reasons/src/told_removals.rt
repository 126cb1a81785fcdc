//! What is reported of a module that is to be removed.
ghost use Rattle.std.specs.Prelude.{◌≡◌};
ghost use Rattle.answer_reasons.specs.Users.{users_beside};

use crate::tasks::{Need, SoftWords, Subject, Task, Tasks};
use crate::told::Told;
use answer_facts::{
    Command, LineFact, Outcome, Passed, RemovalFact, Shows, Side, Spot, StateFact, What,
};
use kmod_conf::TextLine;
use kmod_query::{
    Ask, ModuleStatus, Object, Taken, Verdict, has_users, is_fatal, is_gone, is_gone_by,
    is_in_use_after, judge_after, push_taken, remove_line,
};
use modprobe_files::{MODULES, holders_folder};
use std::alloc::AllocError;
use text_parts::is_same;

/// How many users of a module are no modules.
fn users_beside(users: u64, holders: usize) -> u64
    ensures { result ≡ users_beside users holders }
{
    users.saturating_sub(holders as u64)
}

impl<'a> Told<'_, 'a> {
    /// What counts of what a removal has taken: nothing for a dry run, which asks the modules as they are now.
    fn counted(&self) -> &[Taken] {
        if self.known.sources.whole {
            &self.taken
        } else {
            &[]
        }
    }

    /// Tells what becomes of a module, which stands nowhere.
    pub(crate) fn say_removal(
        &mut self,
        name: &'a [u8],
        fact: RemovalFact<'a>,
    ) -> Result<(), AllocError> {
        self.say(name, What::Removal(fact), Spot::Nowhere)
    }

    /// What a removal has taken up to this number, as far as it counts.
    fn counted_to(&self, number: usize) -> &[Taken] {
        self.counted().get(..number).unwrap_or(&[])
    }

    /// The folder of those who hold a module.
    fn holders_spot(&self, name: &[u8]) -> Result<Spot<'a>, AllocError> {
        let folder = holders_folder(self.alloc, name)?;
        Ok(Spot::Whole(self.kept(&folder)?))
    }

    /// Tells that a module holds another one, or that it is gone by what was taken up to a number.
    fn tell_holder(
        &mut self,
        name: &'a [u8],
        holder: &'a [u8],
        spot: Spot<'a>,
        number: usize,
    ) -> Result<(), AllocError> {
        if is_gone(self.counted_to(number), holder) {
            return self.say_removal(holder, RemovalFact::Gone);
        }
        self.say(name, What::State(StateFact::HeldBy(holder)), spot)
    }

    /// Tells which modules hold a module, which of them are gone by what was taken up to a number, and how many of its users
    /// are no modules.
    fn tell_holders(
        &mut self,
        name: &'a [u8],
        users: u64,
        number: usize,
    ) -> Result<(), AllocError> {
        let all = self.known.sources.holders;
        let Some(holders) = all.iter().find(|own| is_same(&own.module, name)) else {
            return Ok(());
        };
        let spot = self.holders_spot(name)?;
        for holder in &holders.names {
            self.tell_holder(name, holder, spot, number)?;
        }
        let others = users_beside(users, holders.names.len());
        if others == 0 {
            return Ok(());
        }
        self.say(name, What::State(StateFact::OtherUsers(others)), spot)
    }

    /// Tells how many use a module and which modules they are, by what was taken up to a number, unless none does.
    fn tell_users(
        &mut self,
        name: &'a [u8],
        status: ModuleStatus,
        number: usize,
    ) -> Result<(), AllocError> {
        match status.users {
            Some(0) => Ok(()),
            Some(users) => {
                self.tell_state(name, StateFact::Users(users))?;
                self.tell_holders(name, users, number)
            }
            None => self.tell_state(name, StateFact::UsersUnknown),
        }
    }

    /// Tells the state of a module that another one needs, and who uses it, by what was taken up to a number.
    fn tell_need_state(&mut self, name: &'a [u8], number: usize) -> Result<(), AllocError> {
        if self.known.is_built_in(name, false) {
            return self.tell_built_in(name, Outcome::NotRemoved);
        }
        let asked = self.known.asked;
        match asked.world.states.of(name) {
            Some(status) => self.tell_users(name, status, number),
            None => self.tell_state(name, StateFact::NotLoaded),
        }
    }

    /// Tells the soft items that -i passes over.
    fn tell_passed_softdep(&mut self, name: &'a [u8]) -> Result<(), AllocError> {
        let asked = self.known.asked;
        let conf = asked.world.conf;
        match conf.softdep_of(self.alloc, name)? {
            Some(line) => self.say_of(name, What::Line(LineFact::Softdep), line.place),
            None => Ok(()),
        }
    }

    /// Tells the remove line of a module that counts or is passed over, and those of its very name that do not count.
    fn tell_remove_lines(
        &mut self,
        name: &'a [u8],
        line: Option<&'a TextLine>,
        passed: Passed,
    ) -> Result<(), AllocError> {
        let named = self.known.named;
        self.tell_commands(name, Command::Remove, line, &named.removes, passed)
    }

    /// Tells what -i passes over of a module that stays: without it a remove line counts whatever the module's state, and soft
    /// items with it.
    fn tell_passed_over(&mut self, subject: Subject<'a>) -> Result<(), AllocError> {
        let asked = self.known.asked;
        if !asked.query.ignore_commands {
            return Ok(());
        }
        let (name, alias) = (subject.name, subject.alias);
        let line = remove_line(self.alloc, &asked.world, name, alias)?;
        if line.is_none() {
            return Ok(());
        }
        self.tell_passed_softdep(name)?;
        self.tell_remove_lines(name, line, Passed::ByOption)
    }

    /// Tells that a module is gone by then, built in or not loaded.
    fn tell_kept(&mut self, subject: Subject<'a>) -> Result<(), AllocError> {
        self.tell_passed_over(subject)?;
        let name = subject.name;
        if is_gone(self.counted(), name) {
            self.say_removal(name, RemovalFact::Gone)
        } else if self.known.is_built_in(name, subject.builtin) {
            self.tell_built_in(name, Outcome::NotRemoved)
        } else {
            self.tell_state(name, StateFact::NotLoaded)
        }
    }

    /// Notes that a module is not removed. That may end all.
    fn refuse(
        &mut self,
        tasks: &mut Tasks<'a>,
        soft: bool,
        name: &'a [u8],
    ) -> Result<(), AllocError> {
        if !soft {
            tasks.refuse();
        } else if is_fatal(&self.known.asked.query) {
            self.say_removal(name, RemovalFact::Ends)?;
            tasks.end(name);
        }
        Ok(())
    }

    /// Goes on with the soft items after a module, the last first, and then the module.
    fn begin_removal(
        &mut self,
        tasks: &mut Tasks<'a>,
        soft: bool,
        subject: Subject<'a>,
    ) -> Result<(), AllocError> {
        let (name, asked) = (subject.name, self.known.asked);
        tasks.enter(name)?;
        let conf = asked.world.conf;
        if asked.query.ignore_commands {
            self.tell_passed_softdep(name)?;
            return tasks.push(Task::Release { soft, subject });
        }
        let line = conf.softdep_of(self.alloc, name)?;
        tasks.push(Task::Release { soft, subject })?;
        match line {
            Some(line) => tasks.push(Task::Soft(SoftWords::of(name, Side::After, line))),
            None => Ok(()),
        }
    }

    /// Tells why a module is not removed, or goes on with it, unless its soft items are being removed already.
    pub(crate) fn tell_removal(
        &mut self,
        tasks: &mut Tasks<'a>,
        soft: bool,
        subject: Subject<'a>,
    ) -> Result<(), AllocError> {
        if tasks.is_on_way(subject.name) {
            return Ok(());
        }
        match self.judged(soft, subject)? {
            Verdict::Remove => self.begin_removal(tasks, soft, subject),
            Verdict::Pass => self.tell_kept(subject),
            Verdict::Refuse(_) => {
                self.tell_kept(subject)?;
                self.refuse(tasks, soft, subject.name)
            }
        }
    }

    /// What becomes of a module that is to be removed.
    fn judged(&self, soft: bool, subject: Subject<'a>) -> Result<Verdict, AllocError> {
        let object = subject.object(self.alloc)?;
        let (asked, holders) = (self.known.asked, self.known.sources.holders);
        judge_after(asked, holders, self.counted(), soft, &object)
    }

    /// Tells that a need of a module that goes is removed too, since nothing uses it then. A dry run has a line for it only if
    /// nothing uses it now.
    fn tell_unused(&mut self, need: Need<'a>) -> Result<(), AllocError> {
        let asked = self.known.asked;
        if !has_users(asked.world.states.of(need.name)) {
            let what = What::Removal(RemovalFact::Unused);
            return self.say(need.name, what, Spot::Whole(MODULES));
        }
        let shown = if self.known.sources.whole {
            Shows::Each
        } else {
            Shows::WholeAlone
        };
        let after = need.by;
        let spot = self.holders_spot(need.name)?;
        self.say(
            need.name,
            What::Removal(RemovalFact::Freed { after, shown }),
            spot,
        )
    }

    /// Whether a module goes by what was taken since then.
    fn goes_since(&self, name: &[u8], before: usize) -> bool {
        match self.taken.get(before..) {
            Some(taken) => is_gone(taken, name),
            None => false,
        }
    }

    /// Whether a dry run shows a need that went before once more, since it asks modules as they are now: nothing uses it.
    fn goes_again(&self, name: &[u8]) -> bool {
        let asked = self.known.asked;
        let status = asked.world.states.of(name);
        !self.known.sources.whole
            && matches!(status, Some(ModuleStatus { users: Some(0), .. }))
            && is_gone(&self.taken, name)
    }

    /// Tells a need of a module that goes, and whether it goes too. `before` is what was taken before the module.
    fn tell_freed_need(&mut self, need: Need<'a>, before: usize) -> Result<(), AllocError> {
        self.say_need(need)?;
        if is_gone(self.counted_to(before), need.name) {
            return self.say_removal(need.name, RemovalFact::Gone);
        }
        self.tell_need_state(need.name, before)?;
        if self.goes_since(need.name, before) || self.goes_again(need.name) {
            self.tell_unused(need)?;
        }
        Ok(())
    }

    /// Tells what a module that goes needs, and whether that goes too. `before` is what was taken before the module.
    fn tell_freed(&mut self, name: &'a [u8], before: usize) -> Result<(), AllocError> {
        let needs = self.needs_of(name)?;
        for need in &needs {
            self.tell_freed_need(*need, before)?;
        }
        Ok(())
    }

    /// Tells what counts for a removal of a module, for which this remove line counts.
    fn tell_removed(
        &mut self,
        tasks: &mut Tasks<'a>,
        subject: Subject<'a>,
        object: &Object,
        line: Option<&'a TextLine>,
    ) -> Result<(), AllocError> {
        let name = subject.name;
        let asked = self.known.asked;
        let is_bare = asked.query.ignore_commands;
        if !is_bare {
            self.tell_remove_lines(name, line, Passed::Never)?;
        }
        if !tasks.begin_removed(name)? {
            return Ok(());
        }
        let before = self.taken.len();
        if !is_gone(&self.taken, name) {
            push_taken(asked, self.known.sources.holders, &mut self.taken, object)?;
        }
        if is_bare || line.is_none() {
            return self.tell_freed(name, before);
        }
        Ok(())
    }

    /// Goes on with the soft items before a module that was removed, the last first.
    fn follow_removal(&mut self, tasks: &mut Tasks<'a>, name: &'a [u8]) -> Result<(), AllocError> {
        let asked = self.known.asked;
        let conf = asked.world.conf;
        if asked.query.ignore_commands {
            return Ok(());
        }
        let Some(line) = conf.softdep_of(self.alloc, name)? else {
            return Ok(());
        };
        self.tell_later_softdeps(name, line.place)?;
        tasks.push(Task::Soft(SoftWords::of(name, Side::Before, line)))
    }

    /// Tells that a soft dependency after a module took it along, so that its own removal fails.
    fn tell_gone(
        &mut self,
        tasks: &mut Tasks<'a>,
        soft: bool,
        name: &'a [u8],
    ) -> Result<(), AllocError> {
        if !soft {
            tasks.refuse_gone();
        }
        self.say_removal(name, RemovalFact::Gone)
    }

    /// Tells that nothing uses a module by then, if something uses it now and that is asked: not if a command is run for its
    /// removal.
    fn tell_free(&mut self, name: &'a [u8], line: Option<&TextLine>) -> Result<(), AllocError> {
        let asked = self.known.asked;
        let is_used = has_users(asked.world.states.of(name));
        let is_commanded = line.is_some() && !asked.query.ignore_commands;
        let is_asked = matches!(asked.query.ask, Ask::Remove) && !is_commanded;
        if self.known.sources.whole && is_used && is_asked {
            return self.say_removal(name, RemovalFact::Free);
        }
        Ok(())
    }

    /// Tells what counts for a removal of a module whose soft items after it are removed, or that it is in use.
    pub(crate) fn tell_release(
        &mut self,
        tasks: &mut Tasks<'a>,
        soft: bool,
        subject: Subject<'a>,
    ) -> Result<(), AllocError> {
        let object = subject.object(self.alloc)?;
        self.tell_released(tasks, soft, subject, &object)
    }

    /// The same, of the module as queries have it.
    fn tell_released(
        &mut self,
        tasks: &mut Tasks<'a>,
        soft: bool,
        subject: Subject<'a>,
        object: &Object,
    ) -> Result<(), AllocError> {
        let (asked, holders) = (self.known.asked, self.known.sources.holders);
        let (name, alias) = (subject.name, subject.alias);
        let line = remove_line(self.alloc, &asked.world, name, alias)?;
        if asked.query.ignore_commands {
            self.tell_remove_lines(name, line, Passed::ByOption)?;
        }
        if is_in_use_after(asked, holders, self.counted(), object)? {
            let number = self.taken.len();
            self.tell_need_state(name, number)?;
            return self.refuse(tasks, soft, name);
        }
        if is_gone_by(asked, self.counted(), object)? {
            return self.tell_gone(tasks, soft, name);
        }
        self.tell_free(name, line)?;
        self.tell_removed(tasks, subject, object, line)?;
        self.follow_removal(tasks, name)
    }
}

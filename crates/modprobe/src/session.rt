//! A table in use by a session, and its reply to a line.
ghost use Rattle.std.specs.Prelude.{◌≡◌, IfOk};
ghost use Rattle.dep_index.specs.Catalogue.{modules_of};

use crate::action::Answer;
use crate::command::{Command, Request, parse};
use crate::plan::plan_reply;
use crate::refusal::Code;
use crate::reply::{Reply, details, plan_refusal, render, room};
use crate::setup::Setup;
use proc_modules::{lsmod_text, proc_text};
use seq_table::Modules;
use std::alloc::{AllocError, Global};
use text_parts::{Name, is_comment, words};

/// A table in use by a session, over the catalogue of its setup.
#[derive(Drop)]
pub struct Session<'s, 't, M: Modules> {
    pub(crate) setup: &'s Setup,
    pub(crate) table: &'t mut M,
    ghost over: { M.catalogue table.now ≡ modules_of setup.now.catalogue },
}

impl<'s, 't, M: Modules> Session<'s, 't, M> {
    ghost use Rattle.std.specs.Prelude.{OnErr};
    ghost use Rattle.text_parts.specs.Text.{texts_of};
    ghost use Rattle.modprobe.specs.Session.{change_outcome, request_outcome, line_outcome};
    ghost use Rattle.modprobe.specs.Loads.{modprobe, modprobe_remove};
    ghost use Rattle.modprobe.specs.ForProofs.{request_from};
    ghost use Rattle.modprobe.specs.Sessions.{Makes, Becomes};

    /// Uses a table over the catalogue of a setup. It changes nothing.
    pub fn new(setup: &'s Setup, table: &'t mut M) -> Session<'s, 't, M>
        requires { M.catalogue table.old ≡ modules_of setup.now.catalogue }
        ensures setup { result.setup ≡ setup.entry }
        ensures table { result.table.now ≡ table.old }
        ensures same_table { result.table.ghost_name ≡ table.entry.ghost_name }
    {
        Session { setup, table }
    }

    /// The table as it is.
    pub fn table(&self) -> &M
        ensures { result.now ≡ self.now.table.now }
    {
        self.table
    }

    /// Makes what a line asks for, and answers its reply: the outcome of the line, whose text is that of `line_reply`. The
    /// table is the one after it.
    ///
    /// Out of memory, it changes nothing: all memory is taken before the table is changed.
    #[tactic(auto, unfolding(crate::specs::Session::line_outcome))]
    pub fn reply(&mut self, alloc: Global, line: &[u8]) -> Result<Reply, AllocError>
        ensures reply { IfOk result (λ reply. Makes self.old self.new reply (λ s t. line_outcome s t line.now)) }
        ensures unchanged { OnErr result (Becomes self.old self.new (λ s t. t)) }
    {
        if is_comment(line) {
            return Ok(Reply::says(Vec::new(alloc)));
        }
        let words = words(alloc, line)?;
        match parse(alloc, &words)? {
            Command::Nothing => Ok(Reply::says(Vec::new(alloc))),
            Command::Malformed(first) => Reply::refused(alloc, Code::Syntax, first),
            Command::ByName(name, request) => self.reply_by_name(alloc, name, request),
            Command::Lsmod => {
                let text = lsmod_text(alloc, self.setup.catalogue(), self.table)?;
                Ok(Reply::says(text))
            }
            Command::Proc => {
                let text = proc_text(alloc, self.setup.catalogue(), self.table)?;
                Ok(Reply::says(text))
            }
        }
    }

    /// Makes what is asked for by a name.
    fn reply_by_name(
        &mut self,
        alloc: Global,
        name: Name,
        request: Request<'_>,
    ) -> Result<Reply, AllocError>
        ensures reply { IfOk result (λ reply. Makes self.old self.new reply (λ s t. request_outcome s name (request_from request.entry) t)) }
        ensures unchanged { OnErr result (Becomes self.old self.new (λ s t. t)) }
    {
        match request {
            Request::Act(action) => {
                let Some(slot) = self.setup.catalogue().slot(name.as_bytes()) else {
                    return Reply::refused(alloc, Code::Enoent, name.as_bytes());
                };
                let room = room(alloc, self.setup)?;
                let answer = self.act_on(slot, action)?;
                Ok(render(room, self.setup, answer))
            }
            Request::Modinfo => details(alloc, self.setup, &name),
            Request::Plan => plan_reply(alloc, self.setup, name),
            Request::Modprobe(words) => self.modprobe(alloc, name, words),
            Request::ModprobeRemove => self.modprobe_remove(alloc, name),
        }
    }

    /// Loads the modules of a name (modprobe(8)). All is planned before the first change.
    fn modprobe(&mut self, alloc: Global, name: Name, words: &[&[u8]]) -> Result<Reply, AllocError>
        ensures reply { IfOk result (λ reply. Makes self.old self.new reply (λ s t. change_outcome (modprobe s name (texts_of words.now) t))) }
        ensures unchanged { OnErr result (Becomes self.old self.new (λ s t. t)) }
    {
        match self.load_plan(alloc, name, words) {
            Ok(items) => {
                let room = room(alloc, self.setup)?;
                let change = self.load_items(&items);
                Ok(render(room, self.setup, Answer::of(change)))
            }
            Err(error) => plan_refusal(alloc, error),
        }
    }

    /// Removes the modules of a name (modprobe(8)). All is planned before the first change.
    fn modprobe_remove(&mut self, alloc: Global, name: Name) -> Result<Reply, AllocError>
        ensures reply { IfOk result (λ reply. Makes self.old self.new reply (λ s t. change_outcome (modprobe_remove s name t))) }
        ensures unchanged { OnErr result (Becomes self.old self.new (λ s t. t)) }
    {
        match self.removal_plans(alloc, name) {
            Ok(plans) => {
                let room = room(alloc, self.setup)?;
                let change = self.remove_plans(&plans);
                Ok(render(room, self.setup, Answer::of(change)))
            }
            Err(error) => plan_refusal(alloc, error),
        }
    }
}

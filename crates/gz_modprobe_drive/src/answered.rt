//! An answer, from the texts of a machine to a stream.
ghost use Rattle.std.specs.Prelude.{◌≡◌, IfOk, IfSome, OnErr};
ghost use Rattle.kmod_index.specs.Dependencies.{dependencies_of};
ghost use Rattle.gz_modprobe_drive.specs.Answered.{IsAnswerOf, IsEnough, IsWritten, answer_for, manner_of, status_of};
ghost use Rattle.gz_modprobe_drive.specs.Texts.{IsConfOf};

use crate::explained::explain;
use crate::folder::index_by;
use crate::queries::is_removal;
use crate::texts::{Machine, world_of};
use crate::told::write_answer;
use kmod_conf::Conf;
use kmod_index::DepTable;
use kmod_query::{Answer, Asked, Query, World, answer_to, whole_removal};
use modprobe_words::{Messages, Written};
use std::alloc::{AllocError, Global};
use std::io::Write;

/// An answer, and how its output was written.
#[derive(Drop)]
pub(crate) struct Answered {
    pub(crate) answer: Answer,
    pub(crate) written: Written,
}

impl Answered {
    /// The exit status: 1 if a name failed, or the output was not written.
    pub(crate) fn status(&self) -> u8
        ensures { result ≡ status_of self.now.answer self.now.written }
    {
        match self.written {
            Written::Whole if !self.answer.has_failed() => 0,
            _ => 1,
        }
    }
}

/// The answer to a query of a world: kmod's, or what its removal would do if it were made. It fails only if memory runs out.
fn answer_for(
    alloc: Global,
    machine: &Machine<'_>,
    world: &World<'_>,
    query: &Query<'_>,
) -> Result<Answer, AllocError>
    ensures { IfOk result (λ answer. answer ≡ answer_for (manner_of machine.now) world.now query.now) }
{
    if !(machine.whole && is_removal(query.ask)) {
        return answer_to(alloc, world, query);
    }
    let asked = Asked {
        alloc,
        world: *world,
        query: *query,
    };
    whole_removal(&asked, &machine.evidence.holders)
}

/// Answers a query from the texts and states of a machine, and writes the answer's output, whether it is explained or not.
/// `conf` is what the machine's configuration says, `lines` are those of modules.dep, if they were found already. Texts that
/// were not read do not matter. It fails only if memory runs out.
pub(crate) fn answer_machine<O: Write, E: Write>(
    alloc: Global,
    machine: &Machine<'_>,
    conf: &Conf,
    lines: Option<&DepTable<'_>>,
    query: &Query<'_>,
    output: &mut O,
    messages: &mut Messages<'_, E>,
) -> Result<Answered, AllocError>
    requires conf { IsConfOf machine.now.conf.now conf.now }
    requires lines { IfSome lines (λ lines. lines.now ≡ dependencies_of machine.now.modules.now.dep.items) }
    requires enough { IsEnough machine.now query.now }
    ensures answer { IfOk result (λ own. IsAnswerOf machine.now query.now own.answer) }
    ensures written { IfOk result (IsWritten machine.now.shape (O.contents output.old) (O.contents output.new)) }
    ensures kept { OnErr result (O.contents output.new ≡ O.contents output.old) }
{
    let index = index_by(alloc, machine.modules, machine.later, query.words, lines)?;
    let world = world_of(
        conf,
        &index,
        machine.states,
        machine.directory,
        machine.paths,
    );
    let answer = answer_for(alloc, machine, &world, query)?;
    let written = write_answer(alloc, machine, &world, query, &answer, output, messages)?;
    explain(alloc, machine, &world, query, messages);
    Ok(Answered { answer, written })
}

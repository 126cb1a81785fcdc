//! Which of the large texts are read for a query.
ghost use Rattle.std.specs.Prelude.{◌≡◌, false, true, IfOk};
ghost use Rattle.text_parts.specs.Text.{texts_of};
ghost use Rattle.kmod_index.specs.Dependencies.{dependencies_of};
ghost use Rattle.kmod_query.specs.Early.{is_symbolless};
ghost use Rattle.gz_modprobe_drive.specs.Answered.{IsEarly, said_by, texts_of_folder};
ghost use Rattle.gz_modprobe_drive.specs.Texts.{IsConfOf};

use crate::folder::few_index;
use crate::texts::{Machine, world_of};
use kmod_conf::Conf;
use kmod_index::DepTable;
use kmod_query::{Query, is_early, is_symbolless};
use std::alloc::{AllocError, Global};

/// Whether the answer to a query is seen to be the same whatever stands in modules.alias and modules.symbols. `conf` is what
/// the machine's configuration says, `lines` are those of modules.dep. It fails only if memory runs out.
#[tactic(auto, unfolding(crate::specs::Answered::said_by))]
pub(crate) fn is_answered_early(
    alloc: Global,
    machine: &Machine<'_>,
    conf: &Conf,
    lines: &DepTable<'_>,
    query: &Query<'_>,
) -> Result<bool, AllocError>
    requires conf { IsConfOf machine.now.conf.now conf.now }
    requires lines { lines.now ≡ dependencies_of machine.now.modules.now.dep.items }
    ensures { IfOk result (λ early. early ≡ true → IsEarly (said_by machine.now (texts_of_folder machine.now)) query.now) }
{
    let index = few_index(machine.modules, machine.later, lines);
    let world = world_of(
        conf,
        &index,
        machine.states,
        machine.directory,
        machine.paths,
    );
    is_early(alloc, &world, query)
}

/// Whether modules.symbols is read for a query: if its answer is explained or may depend on that text. It fails only if memory
/// runs out.
pub(crate) fn asks_symbols(
    alloc: Global,
    query: &Query<'_>,
    explains: bool,
) -> Result<bool, AllocError>
    ensures { IfOk result (λ asks. asks ≡ false → is_symbolless query.now (texts_of query.now.words.now) ≡ true) }
{
    if explains {
        return Ok(true);
    }
    Ok(!is_symbolless(alloc, query)?)
}

//! How a query is answered: what is read for it, and what is reported.
ghost use Rattle.std.specs.Prelude.{◌≡◌, ◌≤◌, None, IfOk, IfSome, OnErr};
ghost use Rattle.kmod_index.specs.Dependencies.{dependencies_of};
ghost use Rattle.gz_modprobe_drive.specs.Answered.{IsAnswerWith, IsWritten};
ghost use Rattle.gz_modprobe_drive.specs.Ends.{WasAnswered};
ghost use Rattle.gz_modprobe_drive.specs.Outputs.{WasBegun, WritesAnswer};
ghost use Rattle.gz_modprobe_drive.specs.Shapes.{shape_of};
ghost use Rattle.gz_modprobe_drive.specs.Texts.{IsConfOf};

use crate::answered::{Answered, answer_machine};
use crate::early::{asks_symbols, is_answered_early};
use crate::evidence::Evidence;
use crate::failures::tell_failures;
use crate::folder::FEW_NAMES;
use crate::paths::read_paths;
use crate::queries::{asks_states, is_removal, looks_up_modules};
use crate::run::Run;
use crate::shape::shape_of;
use crate::sys::add_states;
use crate::texts::Machine;
use kmod_conf::Conf;
use kmod_index::DepTable;
use kmod_query::{Query, States};
use modprobe_files::{Host, LaterTexts, System, read_later};
use modprobe_words::{Level, Messages, Written};
use std::alloc::AllocError;
use std::io::Write;

/// Tells that standard output cannot be written; that nobody reads it is nothing to tell.
pub(crate) fn tell_unwritten<E: Write>(written: Written, messages: &mut Messages<'_, E>) {
    if matches!(written, Written::Failed) {
        let text = b"standard output cannot be written";
        messages.tell_always(Level::Error, text, b"", b"", b"");
    }
}

/// Reads modules.alias, and modules.symbols if it may matter, and answers a query.
fn answer_late<S: System, O: Write, E: Write>(
    host: &Host<'_, S>,
    machine: &Machine<'_>,
    conf: &Conf,
    lines: Option<&DepTable<'_>>,
    query: &Query<'_>,
    output: &mut O,
    messages: &mut Messages<'_, E>,
) -> Result<Answered, AllocError>
    requires conf { IsConfOf machine.now.conf.now conf.now }
    requires lines { IfSome lines (λ lines. lines.now ≡ dependencies_of machine.now.modules.now.dep.items) }
    ensures answer { IfOk result (λ own. IsAnswerWith machine.now query.now own.answer) }
    ensures written { IfOk result (IsWritten machine.now.shape (O.contents output.old) (O.contents output.new)) }
    ensures kept { OnErr result (O.contents output.new ≡ O.contents output.old) }
{
    let alloc = host.alloc();
    let has_symbols = asks_symbols(alloc, query, messages.explains)?;
    let later = read_later(host, machine.directory, has_symbols, messages)?;
    let whole = Machine {
        later: &later,
        ..*machine
    };
    answer_machine(alloc, &whole, conf, lines, query, output, messages)
}

/// Answers a query early, without modules.alias and modules.symbols, if it is seen that they do not matter. One that is
/// explained, of many names or of none that a module may have is not tried.
fn answer_early<S: System, O: Write, E: Write>(
    host: &Host<'_, S>,
    machine: &Machine<'_>,
    conf: &Conf,
    query: &Query<'_>,
    output: &mut O,
    messages: &mut Messages<'_, E>,
) -> Result<Answered, AllocError>
    requires conf { IsConfOf machine.now.conf.now conf.now }
    requires unread { machine.now.later.now.alias ≡ None }
    ensures answer { IfOk result (λ own. IsAnswerWith machine.now query.now own.answer) }
    ensures written { IfOk result (IsWritten machine.now.shape (O.contents output.old) (O.contents output.new)) }
    ensures kept { OnErr result (O.contents output.new ≡ O.contents output.old) }
{
    if messages.explains || query.words.len() > FEW_NAMES || !looks_up_modules(query) {
        return answer_late(host, machine, conf, None, query, output, messages);
    }
    let alloc = host.alloc();
    let lines = DepTable::read(alloc, &machine.modules.dep)?;
    if is_answered_early(alloc, machine, conf, &lines, query)? {
        return answer_machine(alloc, machine, conf, Some(&lines), query, output, messages);
    }
    answer_late(host, machine, conf, Some(&lines), query, output, messages)
}

/// Reads the states and looks at the paths that a query asks of, answers it, and tells what failed. Returns the status.
pub(crate) fn answer_query<S: System, O: Write, E: Write>(
    run: &Run<'_, S>,
    query: &Query<'_>,
    output: &mut O,
    messages: &mut Messages<'_, E>,
) -> Result<u8, AllocError>
    requires kmod { run.now.texts.now.kmod ≡ run.now.asked.now.kmod }
    requires conf { IsConfOf run.now.texts.now run.now.conf.now }
    ensures status { IfOk result (λ status. status ≤ 1) }
    ensures well { IfOk result (λ status. status ≡ 0 → WasAnswered run.now.asked.now.kmod run.now.asked.now.switches.whole (shape_of run.now.asked.now.switches) query.now (O.contents output.old) (O.contents output.new)) }
    ensures begun { WritesAnswer run.now.asked.now.kmod run.now.asked.now.switches.whole (shape_of run.now.asked.now.switches) query.now (O.contents output.old) (O.contents output.new) }
{
    let mut states = States::new(run.host.alloc());
    if asks_states(query.ask) {
        add_states(run.host, is_removal(query.ask), &mut states, messages)?;
    }
    let evidence = Evidence::read(run, query, &states)?;
    let paths = read_paths(run.host, run.texts.kmod, query)?;
    run.tell_bad_lines(messages)?;
    let unread = LaterTexts {
        alias: None,
        symbols: None,
    };
    let machine = Machine {
        conf: run.texts,
        modules: run.modules,
        later: &unread,
        states: &states,
        directory: run.directory,
        paths: &paths,
        evidence: &evidence,
        whole: run.asked.switches.whole,
        shape: shape_of(run.asked.switches),
        root: run.asked.root.unwrap_or(b""),
    };
    let answered = answer_early(run.host, &machine, run.conf, query, output, messages)?;
    tell_unwritten(answered.written, messages);
    tell_failures(run.host, &machine, &answered.answer, query, messages)?;
    Ok(answered.status())
}

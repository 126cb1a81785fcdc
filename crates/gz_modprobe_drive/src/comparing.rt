//! What two machines answer otherwise, from their files.
ghost use Rattle.std.specs.Prelude.{◌≡◌, ◌≤◌, ◌==◌, false, length, nat_lt, not, true, IfOk};
ghost use Rattle.text_parts.specs.Text.{texts_of};
ghost use Rattle.answer_diff.specs.Differences.{differences, differences_of};
ghost use Rattle.gz_modprobe_drive.specs.Compared.{AreChanges};
ghost use Rattle.gz_modprobe_drive.specs.Begun.{AreBegun, WritesFacts};
ghost use Rattle.gz_modprobe_drive.specs.Formed.{form_by};
ghost use Rattle.gz_modprobe_drive.specs.Leads.{AreLines, WasTold};

use crate::bare::bare_texts;
use crate::changes::changes;
use crate::configuration::conf_of;
use crate::current::known_directory;
use crate::folder::{index_of, whole_index};
use crate::formed::{form_by, lines_by};
use crate::judged::judge;
use crate::missed::is_all_read;
use crate::run::Run;
use crate::texts::world_of;
use crate::told::last_name;
use crate::tree::Tree;
use crate::why::{LeadLines, write_leads};
use answer_diff::{Difference, differences};
use answer_facts::Origin;
use kmod_index::Index;
use kmod_query::{Ask, Query, States, World};
use modprobe_files::{
    Host, Kind, LaterTexts, ModuleTexts, System, is_rootless, paths_by_rank, read_configuration,
    read_later, read_modules,
};
use modprobe_words::{Asked, Form, Messages, Switches};
use std::alloc::{AllocError, Global};
use std::io::Write;
use text_parts::is_same;

/// The options that count for each name.
fn query_of(switches: Switches) -> Query<'static> {
    Query {
        ask: Ask::ShowDepends,
        all: true,
        use_blacklist: switches.use_blacklist,
        ignore_commands: switches.ignore_commands,
        first_time: false,
        verbosity: 4,
        words: &[],
    }
}

/// Adds the names of the modules of modules.dep.
fn push_names(
    alloc: Global,
    names: &mut Vec<Vec<u8>>,
    index: &Index<'_>,
) -> Result<(), AllocError> {
    for line in index.dep_lines(alloc)?.as_slice() {
        names.push(Vec::from_slice(alloc, line.name(alloc)?.as_bytes())?)?;
    }
    Ok(())
}

/// The names of all modules of two folders, each once, in the order of their bytes.
fn all_names(
    alloc: Global,
    one: &Index<'_>,
    other: &Index<'_>,
) -> Result<Vec<Vec<u8>>, AllocError> {
    let mut names = Vec::new(alloc);
    push_names(alloc, &mut names, one)?;
    push_names(alloc, &mut names, other)?;
    names.sort_unstable();
    names.dedup();
    Ok(names)
}

/// The names of a list.
fn lent<'a>(alloc: Global, all: &'a [Vec<u8>]) -> Result<Vec<&'a [u8]>, AllocError> {
    let mut names = Vec::with_capacity(alloc, all.len())?;
    for name in all {
        names.push(name.as_slice())?;
    }
    Ok(names)
}

/// The names that are compared: those that are asked for, or else these.
fn compared<'a>(
    alloc: Global,
    words: &[&'a [u8]],
    all: &'a [Vec<u8>],
) -> Result<Vec<&'a [u8]>, AllocError>
    ensures { IfOk result (λ names. nat_lt 0 (length words.entry.now) ≡ true → texts_of names.items ≡ texts_of words.entry.now) }
{
    if words.is_empty() {
        lent(alloc, all)
    } else {
        Vec::from_slice(alloc, words)
    }
}

/// A machine's folder of modules as it is shown: as a dot, where the other machine has another one, since then each path would
/// differ.
fn shown_folder<'a>(own: &'a [u8], other: &[u8]) -> &'a [u8] {
    if is_same(own, other) { own } else { b"." }
}

/// What a folder of modules says, for these names, or for all of them if there are none.
fn index_for<'a>(
    alloc: Global,
    modules: &'a ModuleTexts,
    later: &'a LaterTexts,
    names: &[&[u8]],
) -> Result<Index<'a>, AllocError> {
    if names.is_empty() {
        return whole_index(alloc, modules, later);
    }
    index_of(alloc, modules, later, names)
}

fn origin_of<'a, S: System>(run: &'a Run<'a, S>) -> Origin<'a> {
    Origin {
        root: run.asked.root.unwrap_or(b""),
        release: last_name(run.directory),
    }
}

/// Differences as lines of facts.
fn lines_of<'a>(
    alloc: Global,
    form: Form,
    all: &'a [Difference<'a>],
    one: Origin<'a>,
    other: Origin<'a>,
) -> Result<LeadLines, AllocError>
    ensures lines { IfOk result (λ lines. AreLines form lines.text.items) }
    ensures changes { IfOk result (λ lines. AreChanges form one.entry other.entry (differences_of all.entry.now) lines.text.items) }
    ensures differ { IfOk result (λ lines. lines.is_missing ≡ not (length all.entry.now == 0)) }
{
    let facts = changes(alloc, all, one, other)?;
    let text = lines_by(alloc, form, &facts)?;
    Ok(LeadLines {
        text,
        is_missing: !all.is_empty(),
    })
}

/// What two worlds answer otherwise to names, as lines of facts.
fn told_lines<'a>(
    alloc: Global,
    world: &World<'_>,
    other_world: &World<'_>,
    query: &Query<'_>,
    names: &[&[u8]],
    form: Form,
    one: Origin<'a>,
    other: Origin<'a>,
) -> Result<LeadLines, AllocError>
    ensures lines { IfOk result (λ lines. AreLines form lines.text.items) }
    ensures changes { IfOk result (λ lines. AreChanges form one.entry other.entry (differences world.now other_world.now query.now (texts_of names.now)) lines.text.items) }
{
    let all = differences(alloc, world, other_world, query, names)?;
    lines_of(alloc, form, &all, one, other)
}

/// What the two machines answer otherwise, by what was read of them, and whether there is anything.
fn difference_lines<'a, S: System>(
    one: &'a Run<'a, S>,
    index: &'a Index<'a>,
    other: &'a Run<'a, S>,
    other_index: &'a Index<'a>,
) -> Result<LeadLines, AllocError>
    ensures { IfOk result (λ lines. AreLines (form_by one.now.asked.now.switches.explain) lines.text.items) }
{
    let alloc = one.host.alloc();
    let states = States::new(alloc);
    let folder = shown_folder(one.directory, other.directory);
    let other_folder = shown_folder(other.directory, one.directory);
    let world = world_of(one.conf, index, &states, folder, &[]);
    let other_world = world_of(other.conf, other_index, &states, other_folder, &[]);
    let every = all_names(alloc, index, other_index)?;
    let names = compared(alloc, &one.asked.words, &every)?;
    let query = query_of(one.asked.switches);
    let form = form_by(one.asked.switches.explain);
    told_lines(
        alloc,
        &world,
        &other_world,
        &query,
        &names,
        form,
        origin_of(one),
        origin_of(other),
    )
}

/// Compares over these texts of the folders of modules. Returns whether a name has another answer, or not all was written.
fn tell_by<S: System, O: Write, E: Write>(
    one: &Run<'_, S>,
    index: &Index<'_>,
    other: &Run<'_, S>,
    other_index: &Index<'_>,
    output: &mut O,
    messages: &mut Messages<'_, E>,
) -> Result<bool, AllocError>
    ensures told { IfOk result (λ noted. noted ≡ false → WasTold (form_by one.now.asked.now.switches.explain) (O.contents output.old) (O.contents output.new)) }
    ensures begun { WritesFacts (form_by one.now.asked.now.switches.explain) (O.contents output.old) (O.contents output.new) }
{
    let lines = difference_lines(one, index, other, other_index)?;
    Ok(write_leads(&lines, output, messages))
}

/// Returns whether a name has another answer, or not all was written. If the folders of modules differ, their files are
/// compared without folders.
fn tell_differences<S: System, O: Write, E: Write>(
    one: &Run<'_, S>,
    later: &LaterTexts,
    other: &Run<'_, S>,
    other_later: &LaterTexts,
    output: &mut O,
    messages: &mut Messages<'_, E>,
) -> Result<bool, AllocError>
    ensures told { IfOk result (λ noted. noted ≡ false → WasTold (form_by one.now.asked.now.switches.explain) (O.contents output.old) (O.contents output.new)) }
    ensures begun { WritesFacts (form_by one.now.asked.now.switches.explain) (O.contents output.old) (O.contents output.new) }
{
    let alloc = one.host.alloc();
    one.tell_bad_lines(messages)?;
    other.tell_bad_lines(messages)?;
    if is_same(one.directory, other.directory) {
        let index = index_for(alloc, one.modules, later, &one.asked.words)?;
        let other_index = index_for(alloc, other.modules, other_later, &one.asked.words)?;
        return tell_by(one, &index, other, &other_index, output, messages);
    }
    let bare = bare_texts(alloc, one.modules)?;
    let other_bare = bare_texts(alloc, other.modules)?;
    let index = index_for(alloc, &bare, later, &one.asked.words)?;
    let other_index = index_for(alloc, &other_bare, other_later, &one.asked.words)?;
    tell_by(one, &index, other, &other_index, output, messages)
}

/// The status by what was found of one machine.
fn judge_one<S: System, E: Write>(
    run: &Run<'_, S>,
    tree: &Tree<'_>,
    is_noted: bool,
    messages: &mut Messages<'_, E>,
) -> Result<u8, AllocError>
    ensures status { IfOk result (λ status. status ≤ 2) }
    ensures noted { IfOk result (λ status. status ≡ 0 → is_noted ≡ false) }
{
    let is_read = is_all_read(run, messages)?;
    judge(run.host, tree, is_read, is_noted, 0, messages)
}

fn worst(first: u8, second: u8) -> u8
    ensures first { first ≤ result }
    ensures within { first ≤ 2 → second ≤ 2 → result ≤ 2 }
{
    if first >= second { first } else { second }
}

/// The worse status of the two machines.
fn judge_both<S: System, E: Write>(
    one: &Run<'_, S>,
    tree: &Tree<'_>,
    other: &Run<'_, S>,
    other_tree: &Tree<'_>,
    is_noted: bool,
    messages: &mut Messages<'_, E>,
) -> Result<u8, AllocError>
    ensures status { IfOk result (λ status. status ≤ 2) }
    ensures noted { IfOk result (λ status. status ≡ 0 → is_noted ≡ false) }
{
    let first = judge_one(one, tree, is_noted, messages)?;
    let second = judge_one(other, other_tree, is_noted, messages)?;
    Ok(worst(first, second))
}

fn compare_runs<S: System, O: Write, E: Write>(
    one: &Run<'_, S>,
    other: &Run<'_, S>,
    output: &mut O,
    messages: &mut Messages<'_, E>,
) -> Result<u8, AllocError>
    ensures status { IfOk result (λ status. status ≤ 2) }
    ensures told { IfOk result (λ status. status ≡ 0 → WasTold (form_by one.now.asked.now.switches.explain) (O.contents output.old) (O.contents output.new)) }
    ensures begun { WritesFacts (form_by one.now.asked.now.switches.explain) (O.contents output.old) (O.contents output.new) }
{
    let later = read_later(one.host, one.directory, true, messages)?;
    let tree = Tree::of(one.host, one.directory, one.modules, &later)?;
    let other_later = read_later(other.host, other.directory, true, messages)?;
    let other_tree = Tree::of(other.host, other.directory, other.modules, &other_later)?;
    let is_noted = tell_differences(one, &later, other, &other_later, output, messages)?;
    judge_both(one, &tree, other, &other_tree, is_noted, messages)
}

/// What is asked of the second machine. A configuration that is named for it stands beside the usual folders that are there,
/// if the first machine has these.
fn second_asked<'a, S: System>(
    host: &Host<'_, S>,
    asked: &Asked<'a>,
) -> Result<Asked<'a>, AllocError> {
    let mut second = asked.second(host.alloc())?;
    if second.configurations.is_empty() || !asked.configurations.is_empty() {
        return Ok(second);
    }
    for path in paths_by_rank(asked.kmod, &[]) {
        if !matches!(host.kind(path)?, Kind::Nothing) {
            second.configurations.push(*path)?;
        }
    }
    Ok(second)
}

/// Reads the second machine, by what is asked of it, and compares.
fn compare_with<S: System, O: Write, E: Write>(
    run: &Run<'_, S>,
    other: &Host<'_, S>,
    asked: &Asked<'_>,
    output: &mut O,
    messages: &mut Messages<'_, E>,
) -> Result<u8, AllocError>
    ensures status { IfOk result (λ status. status ≤ 2) }
    ensures told { IfOk result (λ status. status ≡ 0 → WasTold (form_by run.now.asked.now.switches.explain) (O.contents output.old) (O.contents output.new)) }
    ensures begun { WritesFacts (form_by run.now.asked.now.switches.explain) (O.contents output.old) (O.contents output.new) }
{
    if is_rootless(other, asked.root.unwrap_or(b""), messages)? {
        return Ok(2);
    }
    let Some(directory) = known_directory(other, asked, messages)? else {
        return Ok(2);
    };
    let named = asked.configurations.as_slice();
    let texts = read_configuration(other, asked.kmod, &directory, named, messages)?;
    let conf = conf_of(other.alloc(), &texts)?;
    let modules = read_modules(other, &directory, messages)?;
    let second = Run {
        host: other,
        beside: run.beside,
        is_beside: false,
        named,
        asked,
        directory: &directory,
        texts: &texts,
        conf: &conf,
        modules: &modules,
    };
    compare_runs(run, &second, output, messages)
}

/// Tells what a second machine answers otherwise than the one that was read, on standard output. Returns the status: 0 if
/// nothing, and all was written; 2 if not all was read that is needed of one of them, or a text of its folder of modules is
/// damaged; else 1. It fails only if memory runs out.
pub(crate) fn compare<S: System, O: Write, E: Write>(
    run: &Run<'_, S>,
    other: &Host<'_, S>,
    output: &mut O,
    messages: &mut Messages<'_, E>,
) -> Result<u8, AllocError>
    ensures status { IfOk result (λ status. status ≤ 2) }
    ensures told { IfOk result (λ status. status ≡ 0 → WasTold (form_by run.now.asked.now.switches.explain) (O.contents output.old) (O.contents output.new)) }
    ensures begun { WritesFacts (form_by run.now.asked.now.switches.explain) (O.contents output.old) (O.contents output.new) }
{
    let asked = second_asked(other, run.asked)?;
    compare_with(run, other, &asked, output, messages)
}

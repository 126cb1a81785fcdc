//! What leads to names, from the files of a machine.
ghost use Rattle.std.specs.Prelude.{◌≡◌, ◌≤◌, false, IfOk};
ghost use Rattle.modprobe_words.specs.declared.form.Form.{Form};
ghost use Rattle.gz_modprobe_drive.specs.Begun.{AreBegun, WritesFacts};
ghost use Rattle.gz_modprobe_drive.specs.Formed.{form_by};
ghost use Rattle.gz_modprobe_drive.specs.Leads.{AreLines, WasTold};

use crate::absences::certain_facts;
use crate::answering::tell_unwritten;
use crate::devices::read_devices;
use crate::folder::whole_index;
use crate::formed::{form_by, lines_by};
use crate::judged::judge;
use crate::missed::is_all_read;
use crate::run::Run;
use crate::texts::world_of;
use crate::tree::Tree;
use answer_reasons::{Device, Sources, leads_to};
use bumpalo::Bump;
use kmod_index::Index;
use kmod_query::{Ask, Query, States};
use modprobe_files::{LaterTexts, System, read_later};
use modprobe_words::{Messages, Written, write_whole};
use std::alloc::{AllocError, Global};
use std::io::Write;

/// The query that has these names, all of them.
fn query_of<'a>(names: &'a [&'a [u8]]) -> Query<'a> {
    Query {
        ask: Ask::Resolve,
        all: true,
        use_blacklist: false,
        ignore_commands: false,
        first_time: false,
        verbosity: 4,
        words: names,
    }
}

/// Lines about names, and whether the status is 1 for them: if a name stands for no module, or two machines answer otherwise.
#[derive(Drop)]
pub(crate) struct LeadLines {
    pub(crate) text: Vec<u8>,
    pub(crate) is_missing: bool,
}

/// What leads to the names that are asked for, by what was read. `index` is what the folder of modules says. If its texts are
/// not whole, it is not told that nothing has a name.
fn lead_lines<'a, S: System>(
    run: &'a Run<'a, S>,
    index: &'a Index<'a>,
    devices: &'a [Device],
    tree: &'a Tree<'a>,
) -> Result<LeadLines, AllocError>
    ensures { IfOk result (λ lines. AreLines (form_by run.now.asked.now.switches.explain) lines.text.items) }
{
    let alloc = run.host.alloc();
    let states = States::new(alloc);
    let world = world_of(run.conf, index, &states, tree.directory, &[]);
    let paths = run.texts.paths(alloc)?;
    let texts = Bump::new(alloc);
    let sources = Sources {
        paths: &paths,
        files: &[],
        command_line: b"",
        hidden: &[],
        unread: &[],
        holders: &[],
        whole: false,
        builtin: &run.modules.builtin,
        devices,
        texts: &texts,
    };
    let leads = leads_to(alloc, &sources, &world, &query_of(&run.asked.words))?;
    let facts = certain_facts(alloc, tree.is_whole(), &leads.facts)?;
    let form = form_by(run.asked.switches.explain);
    let text = lines_by(alloc, form, &facts)?;
    let is_missing = leads.is_missing;
    Ok(LeadLines { text, is_missing })
}

/// Writes lines. Returns whether the status is 1 for them, or not all was written.
pub(crate) fn write_leads<O: Write, E: Write>(
    leads: &LeadLines,
    output: &mut O,
    messages: &mut Messages<'_, E>,
) -> bool
    ensures told { (form : Form) → AreLines form leads.now.text.items → result ≡ false → WasTold form (O.contents output.old) (O.contents output.new) }
    ensures begun { (form : Form) → AreLines form leads.now.text.items → WritesFacts form (O.contents output.old) (O.contents output.new) }
{
    let written = write_whole(output, &leads.text);
    tell_unwritten(written, messages);
    match written {
        Written::Whole => leads.is_missing,
        Written::Closed | Written::Failed => true,
    }
}

/// Returns whether a name stands for no module, or not all was written.
fn tell_leads<S: System, O: Write, E: Write>(
    run: &Run<'_, S>,
    later: &LaterTexts,
    tree: &Tree<'_>,
    output: &mut O,
    messages: &mut Messages<'_, E>,
) -> Result<bool, AllocError>
    ensures told { IfOk result (λ noted. noted ≡ false → WasTold (form_by run.now.asked.now.switches.explain) (O.contents output.old) (O.contents output.new)) }
    ensures begun { WritesFacts (form_by run.now.asked.now.switches.explain) (O.contents output.old) (O.contents output.new) }
{
    let alloc = run.host.alloc();
    let devices = read_devices(run.host)?;
    run.tell_bad_lines(messages)?;
    let index = whole_index(alloc, run.modules, later)?;
    let leads = lead_lines(run, &index, &devices, tree)?;
    Ok(write_leads(&leads, output, messages))
}

/// Tells what leads to the names that are asked for, on standard output. Returns the status: 0 if each stands for a module,
/// and all was written; 2 if not all was read that is needed, or a text of the folder of modules is damaged; else 1.
/// `messages` explains, so that hidden files are known.
pub(crate) fn tell_why<S: System, O: Write, E: Write>(
    run: &Run<'_, S>,
    output: &mut O,
    messages: &mut Messages<'_, E>,
) -> Result<u8, AllocError>
    ensures status { IfOk result (λ status. status ≤ 2) }
    ensures told { IfOk result (λ status. status ≡ 0 → WasTold (form_by run.now.asked.now.switches.explain) (O.contents output.old) (O.contents output.new)) }
    ensures begun { WritesFacts (form_by run.now.asked.now.switches.explain) (O.contents output.old) (O.contents output.new) }
{
    let later = read_later(run.host, run.directory, true, messages)?;
    let tree = Tree::of(run.host, run.directory, run.modules, &later)?;
    let is_noted = tell_leads(run, &later, &tree, output, messages)?;
    let is_read = is_all_read(run, messages)?;
    judge(run.host, &tree, is_read, is_noted, 0, messages)
}

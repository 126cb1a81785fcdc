//! The sections of a new table, of a machine's files.
ghost use Rattle.std.specs.Prelude.{◌≡◌, ◌++◌, IfOk, OnOk};
ghost use Rattle.std.specs.List.{flat_map};
ghost use Rattle.modprobe.specs.declared.section.Section.TheVariants as sections;
ghost use Rattle.session_files.specs.Inputs.{section_text};
ghost use Rattle.table_folder.specs.Machine.{conf_section, machine_sections};

use kmod_version::Kmod;
use modprobe::Section;
use modprobe_files::{
    ConfTexts, Disk, Host, TextFile, directory, is_rootless, read_configuration, read_later,
    read_modules, tell_folder,
};
use modprobe_words::{Asked, Level, Messages, read_words};
use session_files::add_section;
use std::alloc::{AllocError, Global};
use std::env::Env;
use std::io::Write;
use std::mem::replace;
use std::rt::Files;
use table_setup::host_catalogue;
use table_words::Machine;

/// The texts of a machine that a table is made of.
#[derive(Drop)]
struct MachineTexts {
    dep: Vec<u8>,
    alias: Vec<u8>,
    configuration: ConfTexts,
}

/// Adds a section of these bytes.
fn push_section(text: &mut Vec<u8>, section: Section, bytes: &[u8]) -> Result<(), AllocError>
    ensures { OnOk result (text.new.items ≡ text.old.items ++ section_text section bytes.now) }
{
    let mut rest = bytes;
    add_section(text, section, &mut rest).map_err(|_| AllocError)
}

/// Adds the files of a configuration, in their order.
fn push_configuration(text: &mut Vec<u8>, files: &[TextFile]) -> Result<(), AllocError>
    ensures { OnOk result (text.new.items ≡ text.old.items ++ flat_map conf_section files.now) }
{
    for file in files {
        push_section(text, Section::Conf, &file.text)?;
    }
    Ok(())
}

/// The sections of a machine's texts: the catalogue of modules.dep, modules.dep, modules.alias, and each file of the
/// configuration in its order.
fn machine_sections(
    alloc: Global,
    dep: &[u8],
    alias: &[u8],
    files: &[TextFile],
) -> Result<Vec<u8>, AllocError>
    ensures { IfOk result (λ text. text.items ≡ machine_sections dep.now alias.now files.now) }
{
    let mut text = Vec::new(alloc);
    push_section(&mut text, Section::Catalogue, &host_catalogue(alloc, dep)?)?;
    push_section(&mut text, Section::Dep, dep)?;
    push_section(&mut text, Section::Alias, alias)?;
    push_configuration(&mut text, files)?;
    Ok(text)
}

/// The folder of modules of a release, or of the running kernel. None if the release is not known, which is reported.
fn folder_of<R: Files + Env + AllocGlobal, E: Write>(
    host: &Host<'_, Disk<'_, R>>,
    release: Option<&[u8]>,
    messages: &mut Messages<'_, E>,
) -> Result<Option<Vec<u8>>, AllocError> {
    let alloc = host.alloc();
    let mut words = Vec::new(alloc);
    if let Some(release) = release {
        words.extend_from_slice(&[b"-S".as_slice(), release])?;
    }
    let asked = Asked::by(alloc, &read_words(alloc, &words)?)?;
    directory(host, &asked, messages)
}

/// Reads a machine's files. None if something is missing without which there is no table, which is reported.
fn read_machine<R: Files + Env + AllocGlobal, E: Write>(
    host: &Host<'_, Disk<'_, R>>,
    machine: Machine<'_>,
    kmod: Kmod,
    messages: &mut Messages<'_, E>,
) -> Result<Option<MachineTexts>, AllocError> {
    let Some(directory) = folder_of(host, machine.release, messages)? else {
        return Ok(None);
    };
    let modules = read_modules(host, &directory, messages)?;
    if modules.dep.is_empty() {
        tell_folder(host, &directory, messages)?;
        let behind = b"/modules.dep names no module";
        messages.tell_always(Level::Error, &directory, behind, b"", b"");
        return Ok(None);
    }
    let later = read_later(host, &directory, false, messages)?;
    Ok(Some(MachineTexts {
        dep: modules.dep,
        alias: later.alias.unwrap_or(Vec::new(host.alloc())),
        configuration: read_configuration(host, kmod, &directory, &[], messages)?,
    }))
}

/// The sections of a machine, as this version of kmod reads its files, and the files of its configuration, which are put into
/// `files`. None if something is missing, which is reported.
pub(crate) fn sections_of_machine<R: Files + Env + AllocGlobal, E: Write>(
    rt: &R,
    machine: Machine<'_>,
    kmod: Kmod,
    files: &mut Vec<TextFile>,
    errors: &mut E,
) -> Result<Option<Vec<u8>>, AllocError> {
    let disk = Disk {
        rt,
        root: machine.root.unwrap_or(b""),
    };
    let host = Host { system: &disk };
    let mut messages = Messages {
        errors,
        program: b"gz-table",
        verbosity: 4,
        explains: false,
    };
    if is_rootless(&host, disk.root, &mut messages)? {
        return Ok(None);
    }
    let Some(mut texts) = read_machine(&host, machine, kmod, &mut messages)? else {
        return Ok(None);
    };
    *files = replace(&mut texts.configuration.files, Vec::new(rt.alloc()));
    Ok(Some(machine_sections(rt.alloc(), &texts.dep, &texts.alias, files)?))
}

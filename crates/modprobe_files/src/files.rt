//! Which files of a configuration count.
ghost use Rattle.std.specs.Prelude.{◌≡◌, ◌≤◌, length, IfOk, OnOk, fold};
ghost use Rattle.std.specs.List.{position_or_len};
ghost use Rattle.modprobe_files.specs.Files.{candidates, counted_files, file_in, file_of, files_of, folder, has_name, is_alias_file, is_before, is_counted, is_file, is_read, name_of, names_of, source_of, sources_of, with_file};

use crate::host::joined;
use crate::system::Kind;
use kmod_version::Kmod;
use program_frame::counts;
use std::alloc::{AllocError, Global};
use text_parts::is_same;

/// A file, and the name by which it stands for others of this name.
#[derive(Drop)]
pub struct File {
    pub name: Vec<u8>,
    pub path: Vec<u8>,
}

/// A name of a folder, and what it leads to, through links.
#[derive(Drop)]
pub struct Name {
    pub text: Vec<u8>,
    pub leads_to: Kind,
}

/// Where files of a configuration are.
#[derive(Drop)]
pub enum Source {
    /// A file of its own, by its name and its path.
    Single(Vec<u8>, Vec<u8>),
    /// The path of a folder, and names in it: all of files that are read.
    Folder(Vec<u8>, Vec<Name>),
}

/// Whether a name of a folder ends in `.alias`, has a byte before that, and is not hidden. modprobe.d(5) does not speak of
/// such files.
fn is_alias_file(name: &[u8]) -> bool
    ensures { result ≡ is_alias_file name.now }
{
    !name.starts_with(b".") && name.len() > 6 && is_same(&name[name.len() - 6..], b".alias")
}

/// Whether a name of a folder is that of a file which this version of kmod reads: it ends in `.conf`, has a byte before
/// that, and is not hidden (modprobe.d(5)). Some versions read `.alias` alike.
pub fn is_read(kmod: Kmod, name: &[u8]) -> bool
    ensures { result ≡ is_read kmod name.now }
{
    counts(name) || kmod.reads_alias_files() && is_alias_file(name)
}

/// Whether what a name leads to is a file: a folder is none, and nothing at all counts as one for some kmod.
fn is_file(kmod: Kmod, leads_to: Kind) -> bool
    ensures { result ≡ is_file kmod leads_to }
{
    match leads_to {
        Kind::Nothing => kmod.counts_dangling_links(),
        Kind::Folder => false,
        Kind::File => true,
    }
}

/// Whether a name of a folder counts, if none before it is the same.
pub(crate) fn is_counted(kmod: Kmod, name: &Name) -> bool
    ensures { result ≡ is_counted kmod (name_of name.now) }
{
    is_read(kmod, &name.text) && is_file(kmod, name.leads_to)
}

/// Whether a name stands before another, by their bytes.
fn is_before(name: &[u8], other: &[u8]) -> bool
    ensures { result ≡ is_before name.now other.now }
{
    name.cmp(&other).is_lt()
}

fn has_name(files: &[File], name: &[u8]) -> bool
    ensures { result ≡ has_name (files_of files.now) name.now }
{
    files.iter().any(|file| is_same(&file.name, name))
}

/// The place of the first file that has a later name, or behind the last one.
fn place_of(files: &[File], name: &[u8]) -> usize
    ensures place { result ≡ position_or_len (λ other. is_before name.now other.name) (files_of files.now) }
    ensures bound { result ≤ length files.now }
{
    let found = files.iter().position(|file| is_before(name, &file.name));
    found.unwrap_or(files.len())
}

/// Adds a file, unless there is one of its name.
fn add_file(files: &mut Vec<File>, file: File) -> Result<(), AllocError>
    ensures { OnOk result (files_of files.new.items ≡ with_file (files_of files.old.items) (file_of file)) }
{
    if has_name(files, &file.name) {
        return Ok(());
    }
    let at = place_of(files, &file.name);
    files.insert(at, file)?;
    Ok(())
}

/// The file of a name in a folder.
fn file_in(alloc: Global, path: &[u8], name: &Name) -> Result<File, AllocError>
    ensures { IfOk result (λ file. file_of file ≡ file_in path.now (name_of name.now)) }
{
    Ok(File {
        name: Vec::from_slice(alloc, &name.text)?,
        path: joined(alloc, path, b"/", &name.text)?,
    })
}

/// Adds the files of a folder.
fn add_folder(
    alloc: Global,
    kmod: Kmod,
    files: &mut Vec<File>,
    path: &[u8],
    names: &[Name],
) -> Result<(), AllocError>
    ensures { OnOk result (files_of files.new.items ≡ fold with_file (files_of files.old.items) (candidates kmod (folder path.now (names_of names.now)))) }
{
    for name in names {
        if is_counted(kmod, name) {
            add_file(files, file_in(alloc, path, name)?)?;
        }
    }
    Ok(())
}

/// Adds the files of a source.
fn add_source(
    alloc: Global,
    kmod: Kmod,
    files: &mut Vec<File>,
    source: &Source,
) -> Result<(), AllocError>
    ensures { OnOk result (files_of files.new.items ≡ fold with_file (files_of files.old.items) (candidates kmod (source_of source.now))) }
{
    match source {
        Source::Single(name, path) => {
            let file = File {
                name: Vec::from_slice(alloc, name)?,
                path: Vec::from_slice(alloc, path)?,
            };
            add_file(files, file)
        }
        Source::Folder(path, names) => add_folder(alloc, kmod, files, path, names),
    }
}

/// The files that count for this version of kmod, in the order in which they are read: of files of one name that of the
/// first source, sorted by the bytes of names. It fails only out of memory.
pub fn counted_files(alloc: Global, kmod: Kmod, sources: &[Source]) -> Result<Vec<File>, AllocError>
    ensures { IfOk result (λ files. files_of files.items ≡ counted_files kmod (sources_of sources.now)) }
{
    let mut files = Vec::new(alloc);
    for source in sources {
        add_source(alloc, kmod, &mut files, source)?;
    }
    Ok(files)
}

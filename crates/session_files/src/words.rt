//! Files as sections of a session: what a word names, and how a file joins the input.
ghost use Rattle.std.specs.Prelude.{◌≡◌, ◌++◌, ◌⊎◌, length, IfNone, IfSome, OnOk};
ghost use Rattle.std.specs.List.{after_first, before_first, position_or_len};
ghost use Rattle.load_plan.specs.Parameters.{is_equals};
ghost use Rattle.modprobe.specs.Lines.{IfTold};
ghost use Rattle.session_files.specs.Inputs.{section_named, section_line, section_text};

use modprobe::Section;
use std::io;
use std::io::Read;

/// The section that a word names before its `=`.
pub(crate) fn section_named(name: &[u8]) -> Option<Section>
    ensures { result ≡ section_named name.now }
{
    if name == b"catalogue".as_slice() {
        Some(Section::Catalogue)
    } else if name == b"dep".as_slice() {
        Some(Section::Dep)
    } else if name == b"alias".as_slice() {
        Some(Section::Alias)
    } else if name == b"conf".as_slice() {
        Some(Section::Conf)
    } else {
        None
    }
}

/// A file that a word names, and the section that it is. A folder of a configuration stands for the files that count in it.
#[derive(Clone, Copy, Drop)]
pub struct NamedFile<'a> {
    pub section: Section,
    pub path: &'a str,
}

impl<'a> NamedFile<'a> {
    /// The file of a word of the form `NAME=PATH`, whose path may have equals signs too.
    pub fn of(word: &'a str) -> Option<NamedFile<'a>>
        ensures section { IfSome result (λ file. section_named (before_first is_equals word.entry.now) ≡ Some file.section) }
        ensures path { IfSome result (λ file. file.path.now ≡ after_first is_equals word.entry.now) }
        ensures none { IfNone result (section_named (before_first is_equals word.entry.now) ≡ None ⊎ (position_or_len is_equals word.entry.now ≡ length word.entry.now)) }
    {
        let (name, path) = word.split_once('=')?;
        let section = section_named(name.as_bytes())?;
        Some(NamedFile { section, path })
    }
}

fn section_line(section: Section) -> &'static [u8]
    ensures { result.now ≡ section_line section }
{
    match section {
        Section::Catalogue => b"%catalogue\n",
        Section::Dep => b"%dep\n",
        Section::Alias => b"%alias\n",
        Section::Conf => b"%conf\n",
        Section::Session => b"%session\n",
    }
}

/// Adds a section of a file's bytes, as they are, with a line feed after them. They are read to where they stay, since
/// the texts of a kernel's modules have millions.
pub fn add_section<F: Read>(input: &mut Vec<u8>, section: Section, file: &mut F) -> io::Result<()>
    ensures { OnOk result (IfTold (F.remaining file.old) (λ bytes.
        input.new.items ≡ input.old.items ++ section_text section bytes)) }
{
    input.extend_from_slice(section_line(section))?;
    file.read_to_end(input)?;
    input.extend_from_slice(b"\n")?;
    Ok(())
}

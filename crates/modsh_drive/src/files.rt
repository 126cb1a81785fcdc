//! The files that stand before standard input.
ghost use Rattle.std.specs.Prelude.{◌≡◌, ◌++◌, [], OnOk};
ghost use Rattle.modprobe.specs.Lines.{IfTold};
ghost use Rattle.session_files.specs.Inputs.{section_text};

use modprobe::Section;
use session_files::add_section;
use std::alloc::{AllocError, Global};
use std::borrow::CowStr;
use std::io;
use std::io::Read;

/// A file that was read: its path, which is that of a word or of a file in the folder of a word, how many lines its
/// section has, with its section line, whether its last line lacks a line feed, and where its section ends in the joined
/// text.
#[derive(Drop)]
pub(crate) struct File<'a> {
    pub(crate) path: CowStr<'a>,
    pub(crate) lines: u64,
    pub(crate) is_unended: bool,
    end: usize,
}

/// The sections of the files, in the order of the words, joined as one text.
#[derive(Drop)]
pub(crate) struct JoinedFiles<'a> {
    text: Vec<u8>,
    files: Vec<File<'a>>,
}

impl<'a> JoinedFiles<'a> {
    pub(crate) fn new(alloc: Global) -> JoinedFiles<'a>
        ensures { result.text.items ≡ [] }
    {
        JoinedFiles {
            text: Vec::new(alloc),
            files: Vec::new(alloc),
        }
    }

    /// Adds what a file has left to read as a section.
    pub(crate) fn add<F: Read>(&mut self, section: Section, file: &mut F) -> io::Result<()>
        ensures { OnOk result (IfTold (F.remaining file.old) (λ bytes.
            self.new.text.items ≡ self.old.text.items ++ section_text section bytes)) }
    {
        add_section(&mut self.text, section, file)
    }

    /// Notes that all after the earlier files is the file of this path.
    pub(crate) fn end_file(&mut self, path: CowStr<'a>) -> Result<(), AllocError>
        ensures { self.new.text ≡ self.old.text }
    {
        let start = self.files.last().map_or(0, |file| file.end);
        let section = self.text.get(start..).unwrap_or(b"");
        let lines = section.iter().filter(|byte| **byte == b'\n').count() as u64;
        // (a line feed was added to those of the file, or of the section line if the file is empty)
        let is_unended = !section.ends_with(b"\n\n");
        let end = self.text.len();
        self.files.push(File {
            path,
            lines,
            is_unended,
            end,
        })?;
        Ok(())
    }

    /// The whole text.
    pub(crate) fn text(&self) -> &[u8]
        ensures { result.now ≡ self.now.text.items }
    {
        self.text.as_slice()
    }

    /// The files, in their order.
    pub(crate) fn files(&self) -> &[File<'a>] {
        &self.files
    }
}

//! Reads the files that words name.

use super::Program;
use crate::hints::{path_hint, word_hint};
use modprobe::Section;
use program_frame::{
    PathFault, Status, is_folder, tell_hint, tell_no_memory, tell_sentence, tell_unread,
};
use session_files::{NamedFile, paths_in};
use std::borrow::CowStr;
use std::fs::File;
use std::io::Write;
use std::rt::Files;

impl<'a, 'e, E: Write> Program<'a, 'e, E> {
    /// Tells why a path is not read, and answers how that ends.
    fn refuse(&mut self, path: &str, why: PathFault) -> Status {
        if why == PathFault::Memory {
            return tell_no_memory("modsh", self.errors);
        }
        tell_unread("modsh", path, why, self.errors);
        if self.asked.explain {
            tell_sentence("The system could not read the file.", self.errors);
            tell_hint(path_hint(path), self.errors);
        }
        Status::Refused
    }

    /// Tells a word that has not its form, and answers how that ends.
    pub(super) fn refuse_word(&mut self, word: &str) -> Status {
        let _ = writeln!(self.errors, "modsh: bad word {word}");
        if self.asked.explain {
            tell_sentence("An argument has none of the forms of a word.", self.errors);
            tell_hint(Some(word_hint(word)), self.errors);
        }
        Status::Refused
    }

    /// Reads a file. One that cannot be read is reported.
    fn read_file<R: Files>(
        &mut self,
        rt: &R,
        section: Section,
        path: CowStr<'a>,
    ) -> Result<(), Status> {
        let added = match File::open(rt, path.as_str()) {
            Ok(mut file) => self.files.add(section, &mut file),
            Err(error) => Err(error),
        };
        if let Err(error) = added {
            return Err(self.refuse(path.as_str(), PathFault::from(error)));
        }
        match self.files.end_file(path) {
            Ok(()) => Ok(()),
            Err(_) => Err(tell_no_memory("modsh", self.errors)),
        }
    }

    /// Reads the files of a folder that count. A folder among them is told, and if there is none, that is told.
    fn read_folder<R: Files>(
        &mut self,
        rt: &R,
        section: Section,
        folder: &str,
    ) -> Result<(), Status> {
        let paths = match paths_in(self.alloc, rt, folder) {
            Ok(paths) => paths,
            Err(why) => return Err(self.refuse(folder, why)),
        };
        if paths.is_empty() {
            let _ = writeln!(self.errors, "modsh: no configuration in {folder}");
        }
        for path in paths {
            if is_folder(rt, &path) {
                let _ = writeln!(self.errors, "modsh: skipped the folder {path}");
            } else {
                self.read_file(rt, section, CowStr::Owned(path))?;
            }
        }
        Ok(())
    }

    /// Reads what a word names: a file, or a folder of a configuration.
    pub(super) fn read_named<R: Files>(
        &mut self,
        rt: &R,
        named: NamedFile<'a>,
    ) -> Result<(), Status> {
        if named.section == Section::Conf && is_folder(rt, named.path) {
            return self.read_folder(rt, named.section, named.path);
        }
        self.read_file(rt, named.section, CowStr::Borrowed(named.path))
    }
}

//! The program over any input and output.
ghost use Rattle.std.specs.Prelude.{◌≡◌, ◌≢◌, ◌≤◌, ◌++◌, [], false, length, IsOk, IfErr, OnOk};
ghost use Rattle.std.specs.Io.KnownBytes.{Keeps};
ghost use Rattle.modprobe.specs.Lines.{IfTold};
ghost use Rattle.modsh_drive.specs.Statuses.{Ends, EndsPlainly};

mod reading;

use crate::asked::{Asked, matches_of};
use crate::files::JoinedFiles;
use crate::sections::read_sections;
use crate::status::status_after;
use crate::witness::Witness;
use clap::ArgMatches;
use modprobe::{FromRead, FromWrite, serve_watched};
use program_frame::{Status, end_by, tell_no_memory};
use session_files::NamedFile;
use std::alloc::Global;
use std::io::{Read, Write};
use std::rt::Files;

/// A run of the program: what is asked of it, the files that its words name, and where people are told.
#[derive(Drop)]
struct Program<'a, 'e, E> {
    alloc: Global,
    asked: Asked,
    files: JoinedFiles<'a>,
    errors: &'e mut E,
}

impl<'a, 'e, E: Write> Program<'a, 'e, E> {
    /// The program without arguments.
    fn new(alloc: Global, errors: &'e mut E) -> Program<'a, 'e, E>
        ensures workers { result.asked.workers ≡ 1 }
        ensures fail { result.asked.fail ≡ false }
        ensures lint { result.asked.lint ≡ false }
        ensures files { result.files.text.items ≡ [] }
    {
        Program {
            alloc,
            asked: Asked::plain(),
            files: JoinedFiles::new(alloc),
            errors,
        }
    }

    /// The files that the words name, in order. The first word that has not its form is reported.
    fn named_files(&mut self, words: &[&'a str]) -> Result<Vec<NamedFile<'a>>, Status> {
        let mut named = Vec::new(self.alloc);
        for word in words {
            let Some(file) = NamedFile::of(*word) else {
                return Err(self.refuse_word(*word));
            };
            if named.push(file).is_err() {
                return Err(tell_no_memory("modsh", self.errors));
            }
        }
        Ok(named)
    }

    /// Takes what clap finds in the words: what they ask for, and the files that they name, which are read.
    fn take_matches<R: Files>(&mut self, rt: &R, matches: &ArgMatches<'a>) -> Result<(), Status> {
        self.asked = Asked::of(matches);
        let named = self.named_files(matches.get_strs("words").unwrap_or(&[]))?;
        for file in &named {
            self.read_named(rt, *file)?;
        }
        Ok(())
    }

    /// Takes the words, of which the first is the program's own name. If they ask for no work the program ends.
    fn take<R: Files, O: Write>(
        &mut self,
        rt: &R,
        words: &'a [String],
        writer: &mut FromWrite<O>,
    ) -> Result<(), Status>
        ensures plain { length words.now ≤ 1 →
            IsOk result × (self.new.asked ≡ self.old.asked) × (self.new.files ≡ self.old.files) }
        ensures kept { OnOk result (writer.new ≡ writer.old) }
        ensures silent { IfErr result (λ status. status ≢ Status.Done → writer.new ≡ writer.old) }
    {
        if words.len() <= 1 {
            return Ok(());
        }
        match matches_of(self.alloc, words) {
            Ok(matches) => self.take_matches(rt, &matches),
            Err(error) => Err(end_by("modsh", &error, &mut writer.writer, self.errors)),
        }
    }

    /// Answers the files and the reader, as is asked. What the watch tells is no part of what is written.
    fn answer<I: Read + Drop, O: Write>(&mut self, reader: I, writer: &mut FromWrite<O>) -> Status
        requires { writer.old.failed ≡ false }
        ensures ends { IfTold (I.remaining reader) (λ input. Ends self.old.asked.workers self.old.asked.fail
            (self.old.files.text.items ++ input) (O.contents writer.old.writer) (O.contents writer.new.writer) result) }
        ensures error { self.old.asked.fail ≡ false → result ≢ Status.ErrorReply }
        ensures silent { result ≡ Status.Refused → Keeps (O.contents writer.old.writer) (O.contents writer.new.writer) }
    {
        let asked = self.asked;
        let mut witness = Witness::new(self.alloc, asked.explain, &self.files, self.errors);
        let mut source = FromRead::new(self.files.text().chain(reader));
        let answer = serve_watched(self.alloc, asked.workers, &mut source, writer, &mut witness);
        witness.finish(&answer);
        status_after(&answer, asked.fail, witness.kept.has_session)
    }

    /// Reads the sections of the files and the reader, and tells each line of them that has no effect or is about nothing.
    /// No command is answered.
    fn lint<I: Read + Drop>(&mut self, reader: I) -> Status {
        let mut witness = Witness::new(self.alloc, true, &self.files, self.errors);
        let text = self.files.text();
        let mut source = FromRead::new(text.chain(reader));
        let read = read_sections(self.alloc, &mut source, &mut witness);
        witness.finish_lint(read)
    }
}

/// Runs the program on these words, the first of which is its own name, and answers its status:
///
/// - 0: the input was answered to its end, or help or the version was written to `writer`.
/// - 1: with `--fail`, it was answered to its end, and a reply was an error or there was no session; with `--lint`, a line
///   was listed.
/// - 2: an argument, a file or the setup is refused.
/// - 3: a read or a write failed, memory ran out, or a limit was reached.
///
/// What is refused, what failed, and what `--lint` and `--explain` list is written to `errors`.
pub fn drive<R: Files + AllocGlobal, I: Read + Drop, O: Write, E: Write>(
    rt: &R,
    words: &[String],
    reader: I,
    writer: &mut FromWrite<O>,
    errors: &mut E,
) -> u8
    requires { writer.old.failed ≡ false }
    ensures status { result ≤ 3 }
    ensures silent { result ≡ 2 → Keeps (O.contents writer.old.writer) (O.contents writer.new.writer) }
    ensures plain { length words.now ≤ 1 → EndsPlainly (I.remaining reader) (O.contents writer.old.writer) (O.contents writer.new.writer) result }
{
    let mut program = Program::new(rt.alloc(), errors);
    match program.take(rt, words, writer) {
        Ok(()) if program.asked.lint => program.lint(reader).number(),
        Ok(()) => program.answer(reader, writer).number(),
        Err(status) => status.number(),
    }
}

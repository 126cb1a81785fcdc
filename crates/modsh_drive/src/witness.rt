//! What is kept of a session to explain it.
ghost use Rattle.std.specs.Prelude.{◌≡◌, ◌≢◌, ◌+◌, ◌<◌, ◌^◌, ◌++◌, ◌||◌, false, true, is_err, length, min, take, Some};

use crate::explain::{explain, tell_answer, tell_lint};
use crate::files::JoinedFiles;
use crate::notes::note_words;
use crate::places::Places;
use crate::refusals::tell_refusal;
use crate::status::{status_after, status_of_lint};
use conf_lint::{Known, Note, lint};
use modprobe::{Refused, Section, ServeFault, Setup, Texts, Watch};
use program_frame::{Status, tell_no_memory};
use seq_table::Modules;
use std::alloc::{AllocError, Global};
use std::io::Write;

/// How much of a line that is in hand at a fault is kept: what is shown, and whether it has more.
const MOST_KEPT: usize = 64;

/// What is kept to explain a session, if that is asked for, and in any case whether it began.
#[derive(Drop)]
pub(crate) struct Kept<'a> {
    pub(crate) alloc: Global,
    /// How many lines of the input were read.
    pub(crate) lines: u64,
    pub(crate) has_session: bool,
    pub(crate) places: Places<'a>,
    texts: Option<Texts>,
    /// The front of the line in hand at a fault.
    pub(crate) in_hand: Vec<u8>,
    /// The notes of words that no module takes, as they are told.
    pub(crate) notes: Vec<u8>,
    /// The notes of lines that are about nothing.
    pub(crate) about: Vec<Note>,
    /// Whether there was no memory to keep or to tell all of this.
    pub(crate) is_short: bool,
}

impl<'a> Kept<'a> {
    fn new(alloc: Global, files: &'a JoinedFiles<'_>) -> Kept<'a> {
        Kept {
            alloc,
            lines: 0,
            has_session: false,
            places: Places::new(alloc, files.files()),
            texts: None,
            in_hand: Vec::new(alloc),
            notes: Vec::new(alloc),
            about: Vec::new(alloc),
            is_short: false,
        }
    }

    /// The text of a section, as far as it was read.
    pub(crate) fn text(&self, section: Section) -> &[u8] {
        match &self.texts {
            Some(texts) => texts.text(section),
            None => b"",
        }
    }

    /// Keeps the front of a line.
    fn keep_line(&mut self, line: &[u8])
        ensures { self.new.is_short ≡ false →
            self.new.in_hand.items ≡ self.old.in_hand.items ++ take (min (length line.now) 64) line.now }
    {
        let front = &line[..line.len().min(MOST_KEPT)];
        let kept = self.in_hand.extend_from_slice(front);
        self.mind(kept);
    }

    /// Keeps the notes of lines that are about nothing.
    fn lint(&mut self, setup: &Setup) {
        let Some(aliases) = setup.alias_table() else {
            return;
        };
        let known = Known {
            catalogue: setup.catalogue(),
            aliases,
            configuration: setup.configuration(),
        };
        match lint(self.alloc, &known, self.text(Section::Conf)) {
            Ok(notes) => self.about = notes,
            Err(_) => self.is_short = true,
        }
    }

    /// Notes that there was no memory for something.
    fn mind(&mut self, kept: Result<(), AllocError>)
        ensures { self.new ≡ record self.old { is_short = self.old.is_short || is_err kept } }
    {
        self.is_short |= kept.is_err();
    }
}

/// A watch over a session. If it explains, it keeps what that takes, and tells at once why a command is refused.
#[derive(Drop)]
pub(crate) struct Witness<'a, 'e, E> {
    explains: bool,
    pub(crate) kept: Kept<'a>,
    pub(crate) errors: &'e mut E,
}

impl<'a, 'e, E: Write> Witness<'a, 'e, E> {
    /// A watch over a session after these files.
    pub(crate) fn new(
        alloc: Global,
        explains: bool,
        files: &'a JoinedFiles<'_>,
        errors: &'e mut E,
    ) -> Witness<'a, 'e, E> {
        Witness {
            explains,
            kept: Kept::new(alloc, files),
            errors,
        }
    }

    /// Tells how the session ended, and what explains it.
    pub(crate) fn finish(&mut self, answer: &Result<u64, ServeFault>) {
        tell_answer(answer, &self.kept, self.errors);
        if self.explains {
            explain(answer, &self.kept, self.errors);
        }
    }

    /// Tells the fault of sections, or else the notes of a lint, and answers how that ends.
    pub(crate) fn finish_lint(&mut self, read: Result<(), ServeFault>) -> Status {
        if let Err(fault) = read {
            let answer = Err(fault);
            self.finish(&answer);
            return status_after(&answer, false, true);
        }
        match tell_lint(&self.kept, self.errors) {
            Ok(count) => status_of_lint(count),
            Err(_) => tell_no_memory("modsh", self.errors),
        }
    }
}

impl<E: Write> Watch for Witness<'_, '_, E> {
    fn line(&mut self)
        ensures { self.old.kept.lines + 1 < 2 ^ 64 → self.new.kept.lines ≡ self.old.kept.lines + 1 }
    {
        self.kept.lines = self.kept.lines.saturating_add(1);
    }

    fn section(&mut self, section: Section)
        ensures begun { section ≡ Section.Session → self.new.kept.has_session ≡ true }
        ensures same { section ≢ Section.Session → self.new.kept.has_session ≡ self.old.kept.has_session }
    {
        self.kept.has_session |= section == Section::Session;
        if self.explains {
            let lines = self.kept.lines;
            let begun = self.kept.places.begin(section, lines);
            self.kept.mind(begun);
        }
    }

    fn stop(&mut self, line: &[u8])
        ensures { self.old.explains ≡ true → self.new.kept.is_short ≡ false →
            self.new.kept.in_hand.items ≡ self.old.kept.in_hand.items ++ take (min (length line.now) 64) line.now }
    {
        if self.explains {
            self.kept.keep_line(line);
        }
    }

    fn texts(&mut self, texts: Texts)
        ensures { self.old.explains ≡ true → self.new.kept.texts ≡ Some texts }
    {
        if self.explains {
            self.kept.texts = Some(texts);
        }
    }

    fn setup(&mut self, setup: &Setup) {
        if self.explains {
            let noted = note_words(self.kept.alloc, setup, &mut self.kept.notes);
            self.kept.mind(noted);
            self.kept.lint(setup);
        }
    }

    fn refusal<M: Modules>(&mut self, refused: &Refused<'_, M>) {
        if self.explains {
            let told = tell_refusal(refused, &self.kept, self.errors);
            self.kept.mind(told);
        }
    }
}

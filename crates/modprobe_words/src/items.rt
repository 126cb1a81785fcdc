//! What words of a command line say.
ghost use Rattle.std.specs.Prelude.{◌≡◌};
ghost use Rattle.modprobe_words.specs.Words.{fault_of, wanting};

use crate::options::{LongOption, Switch, Valued};

/// Why words are refused.
#[derive(Clone, Copy)]
pub enum Fault<'a> {
    BadLetter(u8),
    LetterWantsValue(u8),
    /// What stands behind `--`, with its value.
    UnknownWord(&'a [u8]),
    AmbiguousWord(&'a [u8]),
    WordTakesNone(LongOption),
    WordWantsValue(LongOption),
}

/// An option, an option with its value, another word, or why the words are refused.
#[derive(Clone, Copy)]
pub enum Item<'a> {
    Plain(Switch),
    WithValue(Valued, &'a [u8]),
    Operand(&'a [u8]),
    Refused(Fault<'a>),
}

/// By what an option was given.
#[derive(Clone, Copy)]
pub(crate) enum Asker {
    ByLetter(u8),
    ByWord(LongOption),
}

/// An option whose value is the next word.
#[derive(Clone, Copy)]
pub(crate) struct Waiting {
    pub(crate) valued: Valued,
    pub(crate) asker: Asker,
}

impl Waiting {
    /// Why the words are refused if there is no next one.
    pub(crate) fn fault<'a>(self) -> Fault<'a>
        ensures { fault_of result ≡ wanting self.asker }
    {
        match self.asker {
            Asker::ByLetter(letter) => Fault::LetterWantsValue(letter),
            Asker::ByWord(option) => Fault::WordWantsValue(option),
        }
    }
}

//! What is noted of the words of options lines.
ghost use Rattle.std.specs.Prelude.{◌≡◌, option_copied, IfOk};
ghost use Rattle.std.specs.List.{find};
ghost use Rattle.machine_lint.specs.Notes.{are_agreed, facts_by, is_of_module, repeated_options, set_later, set_later_by, unknown_by, unknown_parameter, word_kind};

use crate::judge::Judge;
use crate::known::ModuleParameters;
use crate::line::Line;
use crate::note::NoteKind;
use crate::options::{
    OptionWord, all_are_agreed, is_never_unknown, last_setting, option_words, parameter_of,
    takes_more, value_of, words_of,
};
use kmod_names::Text;
use std::alloc::{AllocError, Global};
use text_parts::is_same;

/// The parameters of a module, by the first entry that it has.
pub(crate) fn parameters_of<'a>(
    all: &'a [ModuleParameters],
    name: &[u8],
) -> Option<&'a ModuleParameters>
    ensures { option_copied result ≡ find (is_of_module name.now) all.entry.now }
{
    all.iter()
        .find(|known| is_same(known.module.as_bytes(), name))
}

/// That a module does not have a parameter.
fn unknown_by(
    alloc: Global,
    known: Option<&ModuleParameters>,
    parameter: &[u8],
) -> Result<Option<NoteKind>, AllocError>
    ensures { IfOk result (λ kind. kind ≡ unknown_by (option_copied known.entry) parameter.now) }
{
    let Some(known) = known else {
        return Ok(None);
    };
    let name = known.module.as_bytes();
    if is_never_unknown(name, parameter) || known.has(parameter) {
        Ok(None)
    } else {
        Ok(Some(NoteKind::UnknownParameter(Text::new(alloc, parameter)?)))
    }
}

/// That the last word that sets a parameter has another value, and counts.
fn set_later_by(
    alloc: Global,
    name: &[u8],
    parameter: &[u8],
    value: &[u8],
    last: Option<&OptionWord>,
) -> Result<Option<NoteKind>, AllocError>
    ensures { IfOk result (λ kind. kind ≡ set_later_by name.now parameter.now value.now (option_copied last.entry)) }
{
    let Some(last) = last else {
        return Ok(None);
    };
    if takes_more(name, parameter) || is_same(last.value.as_bytes(), value) {
        Ok(None)
    } else {
        let parameter = Text::new(alloc, parameter)?;
        Ok(Some(NoteKind::SetLater(parameter, last.place)))
    }
}

/// That the parameter of a word has another value in the end.
fn set_later(
    alloc: Global,
    name: &[u8],
    words: &[OptionWord],
    parameter: &[u8],
    value: &[u8],
) -> Result<Option<NoteKind>, AllocError>
    ensures { IfOk result (λ kind. kind ≡ set_later name.now words.now parameter.now value.now) }
{
    set_later_by(
        alloc,
        name,
        parameter,
        value,
        last_setting(words, parameter),
    )
}

impl Judge<'_> {
    /// That the module of a name does not have a parameter.
    fn unknown_parameter(
        &self,
        alloc: Global,
        name: &[u8],
        parameter: &[u8],
    ) -> Result<Option<NoteKind>, AllocError>
        ensures { IfOk result (λ kind. kind ≡ unknown_parameter (facts_by self.now) name.now parameter.now) }
    {
        if self.is_own(alloc, name)? {
            unknown_by(alloc, parameters_of(self.parameters, name), parameter)
        } else {
            Ok(None)
        }
    }

    /// What is noted of a word of an options line, by the words of all lines of its name.
    pub(crate) fn word_kind(
        &self,
        alloc: Global,
        line: &Line,
        words: &[OptionWord],
        word: &[u8],
    ) -> Result<Option<NoteKind>, AllocError>
        ensures { IfOk result (λ kind. kind ≡ word_kind (facts_by self.now) line.now words.now word.now) }
    {
        let parameter = parameter_of(alloc, word)?;
        match self.unknown_parameter(alloc, line.name(), parameter.as_bytes())? {
            Some(kind) => Ok(Some(kind)),
            None => set_later(
                alloc,
                line.name(),
                words,
                parameter.as_bytes(),
                value_of(word),
            ),
        }
    }

    /// Whether all words that set what an options line sets set it to the same values.
    fn are_agreed(&self, alloc: Global, line: &Line) -> Result<bool, AllocError>
        ensures { IfOk result (λ are. are ≡ are_agreed (facts_by self.now) line.now) }
    {
        let all = words_of(alloc, line.name(), self.conf)?;
        let words = option_words(alloc, line.text())?;
        all_are_agreed(alloc, &all, &words)
    }

    /// That an options line stands before, and sets the same where it stands.
    pub(crate) fn repeated_options(
        &self,
        alloc: Global,
        line: &Line,
    ) -> Result<Option<NoteKind>, AllocError>
        ensures { IfOk result (λ kind. kind ≡ repeated_options (facts_by self.now) line.now) }
    {
        let Some(kind) = self.repeated(line) else {
            return Ok(None);
        };
        if self.are_agreed(alloc, line)? {
            Ok(Some(kind))
        } else {
            Ok(None)
        }
    }
}

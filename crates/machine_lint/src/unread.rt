//! Lines whose parameters cannot be checked.
ghost use Rattle.std.specs.Prelude.{◌≡◌, ◌++◌, IfOk, OnOk};
ghost use Rattle.std.specs.List.{filter_map, list_any};
ghost use Rattle.std.specs.Option.{option_to_list};
ghost use Rattle.machine_lint.specs.Notes.{facts_by};
ghost use Rattle.machine_lint.specs.Options.{option_words};
ghost use Rattle.machine_lint.specs.Unchecked.{asks_module, asks_parameters, is_of_unread, is_unchecked, is_unread, unchecked, unchecked_by, unchecked_place};

use crate::judge::Judge;
use crate::known::{Known, Origin};
use crate::line::Line;
use crate::lines::lines_of;
use crate::options::{is_never_unknown, option_words, parameter_of};
use crate::parameters::parameters_of;
use kmod_names::{Place, Text};
use std::alloc::{AllocError, Global};

/// Whether a word sets a parameter that not every module has.
fn asks_module(alloc: Global, name: &[u8], word: &[u8]) -> Result<bool, AllocError>
    ensures { IfOk result (λ asks. asks ≡ asks_module name.now word.now) }
{
    let parameter = parameter_of(alloc, word)?;
    Ok(!is_never_unknown(name, parameter.as_bytes()))
}

/// Whether one of some words does.
fn one_asks_module(alloc: Global, name: &[u8], words: &[Text]) -> Result<bool, AllocError>
    ensures { IfOk result (λ asks. asks ≡ list_any (asks_module name.now) words.now) }
{
    for word in words {
        if asks_module(alloc, name, word.as_bytes())? {
            return Ok(true);
        }
    }
    Ok(false)
}

/// Adds a place, if there is one.
fn push_place(places: &mut Vec<Place>, place: Option<Place>) -> Result<(), AllocError>
    ensures { OnOk result (places.new.items ≡ places.old.items ++ option_to_list place) }
{
    if let Some(place) = place {
        places.push(place)?;
    }
    Ok(())
}

impl Judge<'_> {
    /// Whether a name stands for the module of this very name, and which parameters that has is not known.
    fn is_unread(&self, alloc: Global, name: &[u8]) -> Result<bool, AllocError>
        ensures { IfOk result (λ is. is ≡ is_unread (facts_by self.now) name.now) }
    {
        let is_own = self.is_own(alloc, name)?;
        let known = parameters_of(self.parameters, name);
        Ok(is_own && known.is_none())
    }

    /// Whether a line is one of options, of whoever is told of parameters, for such a module.
    fn is_of_unread(&self, alloc: Global, origin: Origin, line: &Line) -> Result<bool, AllocError>
        ensures { IfOk result (λ is. is ≡ is_of_unread (facts_by self.now) origin line.now) }
    {
        let is_unread = self.is_unread(alloc, line.name())?;
        let is_told = !(origin.is_depmod() || origin.is_package());
        Ok(line.setting().is_options() && is_told && is_unread)
    }

    /// Whether nothing else is noted of a line, and it sets a parameter that not every module has.
    fn asks_parameters(
        &self,
        alloc: Global,
        origin: Origin,
        line: &Line,
    ) -> Result<bool, AllocError>
        ensures { IfOk result (λ asks. asks ≡ asks_parameters (facts_by self.now) origin line.now) }
    {
        let kind = self.kind_of(alloc, origin, line)?;
        let words = option_words(alloc, line.text())?;
        let asks = one_asks_module(alloc, line.name(), &words)?;
        Ok(kind.is_none() && asks)
    }

    /// Whether nobody can check what a line sets.
    fn is_unchecked(&self, alloc: Global, origin: Origin, line: &Line) -> Result<bool, AllocError>
        ensures { IfOk result (λ is. is ≡ is_unchecked (facts_by self.now) origin line.now) }
    {
        if self.is_of_unread(alloc, origin, line)? {
            self.asks_parameters(alloc, origin, line)
        } else {
            Ok(false)
        }
    }

    /// Where a line stands, if nobody can check what it sets.
    fn unchecked_by(
        &self,
        alloc: Global,
        origin: Origin,
        line: &Line,
    ) -> Result<Option<Place>, AllocError>
        ensures { IfOk result (λ place. place ≡ unchecked_by (facts_by self.now) origin line.now) }
    {
        if self.is_unchecked(alloc, origin, line)? {
            Ok(Some(line.place()))
        } else {
            Ok(None)
        }
    }

    /// Where all such lines stand.
    fn unchecked(&self, alloc: Global, known: &Known<'_>) -> Result<Vec<Place>, AllocError>
        ensures { IfOk result (λ places. places.items ≡ filter_map (unchecked_place known.now.files.now (facts_by self.now)) self.now.lines.now) }
    {
        let mut places = Vec::new(alloc);
        let lines = self.lines;
        for line in lines {
            let origin = known.origin_at(line.place().source);
            let place = self.unchecked_by(alloc, origin, line)?;
            push_place(&mut places, place)?;
        }
        Ok(places)
    }
}

/// Where the options lines stand whose parameters cannot be checked: nothing is noted of the line itself, it sets a parameter
/// that not every module has, and which ones its module has is not known. Lines of packages and of depmod have no notes of
/// parameters, and are not among them. It fails only out of memory.
#[tactic(auto, unfolding(crate::specs::Unchecked::unchecked))]
pub fn unchecked(alloc: Global, known: &Known<'_>) -> Result<Vec<Place>, AllocError>
    ensures { IfOk result (λ places. places.items ≡ unchecked known.now) }
{
    let lines = lines_of(alloc, known.conf)?;
    let judge = Judge {
        conf: known.conf,
        index: known.index,
        parameters: known.parameters,
        lines: &lines,
    };
    judge.unchecked(alloc, known)
}

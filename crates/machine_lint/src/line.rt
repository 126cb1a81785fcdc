//! One line of a configuration.
ghost use Rattle.std.specs.Prelude.{◌≡◌, [], ◌++◌, IfOk, OnOk};
ghost use Rattle.machine_lint.specs.Lines.{has_items, of_alias, of_name, of_softdep, of_text, of_weakdep};

use crate::setting::Setting;
use kmod_conf::{NameLine, SoftdepLine, TextLine, WeakdepLine};
use kmod_names::{AliasEntry, Place, Text};
use std::alloc::{AllocError, Global};
use std::marker::Model;

/// A line: where it stands, what it sets, its name, the text after that, and its items.
#[derive(Drop)]
pub(crate) struct Line {
    place: Place,
    setting: Setting,
    name: Text,
    text: Text,
    items: Vec<Text>,
}

impl Model for Line {
    ghost use Rattle.machine_lint.specs.Lines.{Said};

    ghost Value = { Said };

    ghost view = { λ l. record { place = l.place; setting = l.setting; name = l.name; text = l.text; items = l.items.items } };
}

/// The same text, for another owner.
pub(crate) fn copied(alloc: Global, text: &Text) -> Result<Text, AllocError>
    ensures { IfOk result (λ own. own ≡ text.now) }
{
    Text::new(alloc, text.as_bytes())
}

/// Adds texts.
fn add_texts(alloc: Global, all: &mut Vec<Text>, texts: &[Text]) -> Result<(), AllocError>
    ensures { OnOk result (all.new.items ≡ all.old.items ++ texts.now) }
{
    for text in texts {
        all.push(copied(alloc, text)?)?;
    }
    Ok(())
}

impl Line {
    pub(crate) fn of_alias(alloc: Global, line: &AliasEntry) -> Result<Line, AllocError>
        ensures { IfOk result (λ own. own ≡ of_alias line.now) }
    {
        Ok(Line {
            place: line.place,
            setting: Setting::Alias,
            name: copied(alloc, &line.pattern)?,
            text: copied(alloc, &line.target)?,
            items: Vec::new(alloc),
        })
    }

    /// A line that has a name alone.
    pub(crate) fn of_name(
        alloc: Global,
        setting: Setting,
        line: &NameLine,
    ) -> Result<Line, AllocError>
        ensures { IfOk result (λ own. own ≡ of_name setting line.now) }
    {
        Ok(Line {
            place: line.place,
            setting,
            name: copied(alloc, &line.name)?,
            text: Text::of(Vec::new(alloc)),
            items: Vec::new(alloc),
        })
    }

    /// A line that has a name and a text.
    pub(crate) fn of_text(
        alloc: Global,
        setting: Setting,
        line: &TextLine,
    ) -> Result<Line, AllocError>
        ensures { IfOk result (λ own. own ≡ of_text setting line.now) }
    {
        Ok(Line {
            place: line.place,
            setting,
            name: copied(alloc, &line.name)?,
            text: copied(alloc, &line.text)?,
            items: Vec::new(alloc),
        })
    }

    pub(crate) fn of_softdep(alloc: Global, line: &SoftdepLine) -> Result<Line, AllocError>
        ensures { IfOk result (λ own. own ≡ of_softdep line.now) }
    {
        let mut items = Vec::new(alloc);
        add_texts(alloc, &mut items, line.items.pre())?;
        add_texts(alloc, &mut items, line.items.post())?;
        Ok(Line {
            place: line.place,
            setting: Setting::Softdep,
            name: copied(alloc, &line.name)?,
            text: Text::of(Vec::new(alloc)),
            items,
        })
    }

    pub(crate) fn of_weakdep(alloc: Global, line: &WeakdepLine) -> Result<Line, AllocError>
        ensures { IfOk result (λ own. own ≡ of_weakdep line.now) }
    {
        let mut items = Vec::new(alloc);
        add_texts(alloc, &mut items, line.items.words())?;
        Ok(Line {
            place: line.place,
            setting: Setting::Weakdep,
            name: copied(alloc, &line.name)?,
            text: Text::of(Vec::new(alloc)),
            items,
        })
    }

    pub(crate) fn place(&self) -> Place
        ensures { result ≡ self.now.place }
    {
        self.place
    }

    pub(crate) fn setting(&self) -> Setting
        ensures { result ≡ self.now.setting }
    {
        self.setting
    }

    pub(crate) fn name(&self) -> &[u8]
        ensures { result.now ≡ self.now.name }
    {
        self.name.as_bytes()
    }

    pub(crate) fn text(&self) -> &[u8]
        ensures { result.now ≡ self.now.text }
    {
        self.text.as_bytes()
    }

    pub(crate) fn has_items(&self) -> bool
        ensures { result ≡ has_items self.now }
    {
        self.items.len() > 0
    }

    pub(crate) fn items(&self) -> &[Text]
        ensures { result.now ≡ self.now.items }
    {
        &self.items
    }
}

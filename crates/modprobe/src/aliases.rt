//! The aliases of a setup, and the modules that are found for a name.
ghost use Rattle.std.specs.Prelude.{◌≡◌, ◌≢◌, [], IfErr, IfOk, IfSome};
ghost use Rattle.text_parts.specs.Text.{normal_form};
ghost use Rattle.alias_match.specs.Aliases.{aliases_of};
ghost use Rattle.load_plan.specs.LookUp.{found, free_targets, with_names};
ghost use Rattle.load_plan.specs.declared.look_up.FindError.TheVariants.{NotFound};

use crate::alias_text::free_in_text;
use alias_match::{Aliases, read_aliases};
use dep_index::Catalogue;
use load_plan::{FindError, find};
use modprobe_conf::Conf;
use std::alloc::{AllocError, Global};
use std::marker::Model;
use text_parts::Name;

/// How the aliases of modules.alias are kept, for many look-ups or for few. Each look-up finds the same.
#[derive(Clone, Copy, Debug, PartialEq, Eq, Drop)]
pub enum AliasForm {
    /// In a table: all lines are read once, and a look-up reads few of them.
    Table,
    /// As they are written: a look-up that comes to them reads all lines.
    Text,
}

/// The aliases in a form.
#[derive(Drop)]
enum Kept {
    Table(Aliases),
    Text(Vec<u8>),
}

/// The aliases of a modules.alias text, in a form. Contracts see what the text says.
#[derive(Drop)]
pub(crate) struct KeptAliases {
    kept: Kept,
}

impl Model for KeptAliases {
    ghost use Rattle.alias_match.specs.declared.alias.Alias.{Alias};
    ghost use Rattle.alias_match.specs.Aliases.{Entries};
    ghost use Rattle.modprobe.specs.AliasText.{entries_in};

    ghost Value = { Entries Alias };

    ghost view = { λ a. entries_in a.kept };
}

/// The targets of the aliases of a text that match a name and are not blacklisted. NotFound if there are none.
fn find_free(
    alloc: Global,
    name: &[u8],
    configuration: &Conf,
    text: &[u8],
) -> Result<Vec<Name>, FindError>
    ensures found { IfOk result (λ names. names.items ≡ with_names [] (free_targets configuration.now (aliases_of text.now).entries (normal_form name.now))) }
    ensures some { IfOk result (λ names. names.items ≢ []) }
    ensures none { IfErr result (λ e. e ≡ NotFound → with_names [] (free_targets configuration.now (aliases_of text.now).entries (normal_form name.now)) ≡ []) }
{
    let name = Name::new(alloc, name)?;
    let names = free_in_text(alloc, configuration, text, name.as_bytes())?;
    if names.is_empty() {
        return Err(FindError::NotFound);
    }
    Ok(names)
}

/// The modules of a name, of which the aliases of a text are read only if neither an alias of the configuration nor a module
/// has the name.
fn find_with_text(
    alloc: Global,
    name: &[u8],
    catalogue: &Catalogue,
    configuration: &Conf,
    text: &[u8],
) -> Result<Vec<Name>, FindError>
    ensures found { IfOk result (λ names. names.items ≡ found catalogue.now configuration.now (aliases_of text.now).entries name.now) }
    ensures some { IfOk result (λ names. names.items ≢ []) }
    ensures none { IfErr result (λ e. e ≡ NotFound → found catalogue.now configuration.now (aliases_of text.now).entries name.now ≡ []) }
{
    let nothing = read_aliases(alloc, b"")?;
    match find(alloc, name, catalogue, configuration, &nothing) {
        Ok(names) => Ok(names),
        Err(FindError::NotFound) => find_free(alloc, name, configuration, text),
        Err(FindError::Memory) => Err(FindError::Memory),
    }
}

impl KeptAliases {
    /// The aliases of a text, kept in a form. It fails only out of memory.
    pub(crate) fn read(
        alloc: Global,
        text: &[u8],
        form: AliasForm,
    ) -> Result<KeptAliases, AllocError>
        ensures { IfOk result (λ aliases. aliases ≡ aliases_of text.now) }
    {
        let kept = match form {
            AliasForm::Table => Kept::Table(read_aliases(alloc, text)?),
            AliasForm::Text => Kept::Text(Vec::from_slice(alloc, text)?),
        };
        Ok(KeptAliases { kept })
    }

    /// The table of the aliases, if they are kept in one.
    pub(crate) fn table(&self) -> Option<&Aliases>
        ensures { IfSome result (λ aliases. aliases.now ≡ self.now) }
    {
        match &self.kept {
            Kept::Table(aliases) => Some(aliases),
            Kept::Text(_) => None,
        }
    }

    /// The modules of a name, as `find` of load_plan finds them.
    pub(crate) fn find(
        &self,
        alloc: Global,
        name: &[u8],
        catalogue: &Catalogue,
        configuration: &Conf,
    ) -> Result<Vec<Name>, FindError>
        ensures found { IfOk result (λ names. names.items ≡ found catalogue.now configuration.now self.now.entries name.now) }
        ensures some { IfOk result (λ names. names.items ≢ []) }
        ensures none { IfErr result (λ e. e ≡ NotFound → found catalogue.now configuration.now self.now.entries name.now ≡ []) }
    {
        match &self.kept {
            Kept::Table(aliases) => find(alloc, name, catalogue, configuration, aliases),
            Kept::Text(text) => find_with_text(alloc, name, catalogue, configuration, text),
        }
    }
}

//! Which modules are found for a name.
ghost use Rattle.std.specs.Prelude.{◌≡◌, ◌≢◌, [], map, IfOk, IfErr};
ghost use Rattle.load_plan.specs.declared.look_up.FindError.TheVariants.{NotFound};
ghost use Rattle.load_plan.specs.LookUp.{found, free_targets, targets_of, with_names};

use alias_match::{Alias, Aliases};
use dep_index::Catalogue;
use indexmap::IndexSet;
use modprobe_conf::Conf;
use std::alloc::{AllocError, AllocFailed, Global};
use text_parts::Name;
use thiserror::Error;

/// Why no module is found.
#[derive(Clone, Copy, Debug, PartialEq, Eq, Drop, Error)]
pub enum FindError {
    /// No alias matches the name, and no module has it.
    #[error("no alias matches the name, and no module has it")]
    NotFound,
    /// Memory ran out.
    #[error("out of memory")]
    Memory,
}

impl From<AllocError> for FindError {
    ghost use Rattle.load_plan.specs.declared.look_up.FindError.TheVariants.{Memory};

    ghost from_gives = { λ _ e. e ≡ Memory };

    fn from(_error: AllocError) -> FindError {
        FindError::Memory
    }
}

impl<T: Drop> From<AllocFailed<T>> for FindError {
    ghost use Rattle.load_plan.specs.declared.look_up.FindError.TheVariants.{Memory};

    ghost from_gives = { λ _ e. e ≡ Memory };

    fn from(_error: AllocFailed<T>) -> FindError {
        FindError::Memory
    }
}

/// The targets of the aliases, each once. Whether one is there already is told by a hash of it.
fn names_of(alloc: Global, aliases: &[&Alias]) -> Result<Vec<Name>, AllocError>
    ensures { IfOk result (λ names. names.items ≡ with_names [] (map (λ alias. alias.now.target) aliases.now)) }
{
    let mut names = Vec::new(alloc);
    let mut seen = IndexSet::new(alloc);
    for alias in aliases {
        if seen.insert(alias.target.as_bytes())? {
            names.push(alias.target.copy(alloc)?)?;
        }
    }
    Ok(names)
}

/// The targets of the configuration's aliases that match, each once.
fn configured(alloc: Global, configuration: &Conf, name: &[u8]) -> Result<Vec<Name>, AllocError>
    ensures { IfOk result (λ names. names.items ≡ with_names [] (targets_of configuration.now.aliases name.now)) }
{
    let aliases = configuration.matching_aliases(alloc, name)?;
    names_of(alloc, &aliases)
}

/// The targets of modules.alias that match and are not blacklisted, each once.
fn free(
    alloc: Global,
    configuration: &Conf,
    aliases: &Aliases,
    name: &[u8],
) -> Result<Vec<Name>, AllocError>
    ensures { IfOk result (λ names. names.items ≡ with_names [] (free_targets configuration.now aliases.now.entries name.now)) }
{
    let mut aliases = aliases.matching(alloc, name)?;
    aliases.retain(|alias| !configuration.blacklisted(alias.target.as_bytes()));
    names_of(alloc, &aliases)
}

/// The modules of a name, in normal form: the targets of the configuration's aliases that match it; if there are
/// none, the catalogue module of that name; if there is none, the targets of modules.alias that match it and are
/// not blacklisted. Each stands once, in the order of the lines. A target need not be in the catalogue. NotFound
/// if all three have nothing.
pub fn find(
    alloc: Global,
    name: &[u8],
    catalogue: &Catalogue,
    configuration: &Conf,
    aliases: &Aliases,
) -> Result<Vec<Name>, FindError>
    ensures found { IfOk result (λ names. names.items ≡ found catalogue.now configuration.now aliases.now.entries name.now) }
    ensures some { IfOk result (λ names. names.items ≢ []) }
    ensures none { IfErr result (λ e. e ≡ NotFound → found catalogue.now configuration.now aliases.now.entries name.now ≡ []) }
{
    let name = Name::new(alloc, name)?;
    let names = configured(alloc, configuration, name.as_bytes())?;
    if !names.is_empty() {
        return Ok(names);
    }
    if catalogue.slot(name.as_bytes()).is_some() {
        let mut own = Vec::new(alloc);
        own.push(name)?;
        return Ok(own);
    }
    let names = free(alloc, configuration, aliases, name.as_bytes())?;
    if names.is_empty() {
        return Err(FindError::NotFound);
    }
    Ok(names)
}

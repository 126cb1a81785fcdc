//! The parameters of the module that is being read.
ghost use Rattle.std.specs.Prelude.{◌≡◌, ◌∷◌, ◌++◌, ◌&&◌, [], false, take, is_ok, nat_le, if◌then◌else◌, OnOk};
ghost use Rattle.std.specs.List.{list_any};
ghost use Rattle.std.specs.Str.{bytes_eq};
ghost use Rattle.dep_index.specs.Catalogue.ParamNames.{names_in};

use crate::catalogue::params::Param;
use indexmap::IndexSet;
use std::alloc::{AllocError, Global};
use std::marker::Model;
use text_parts::{Name, is_same};

/// So many parameters are compared one by one. Few modules have more, and only theirs are found by a hash.
const COMPARED: usize = 16;

/// The parameters of a module, in the order of the text. Contracts see them as a list.
#[derive(Drop)]
pub(crate) struct ParamList {
    params: Vec<Param>,
    /// The names of all but those that are compared one by one.
    later: IndexSet<Vec<u8>>,
}

impl Model for ParamList {
    ghost use Rattle.std.specs.Prelude.{List, ◌≡◌};
    ghost use Rattle.dep_index.specs.declared.catalogue.params.Param.{Param};
    ghost use Rattle.dep_index.specs.Catalogue.ParamNames.{names_in, later_names};

    ghost Value = { List Param };

    ghost view = { λ p. p.params.items };

    ghost invariant = { λ p. names_in p.later.keys ≡ later_names p.params.items };
}

/// The parameters that are compared one by one.
fn compared(params: &[Param]) -> &[Param]
    ensures { result.now ≡ take 16 params.entry.now }
{
    if params.len() < COMPARED {
        params
    } else {
        &params[..COMPARED]
    }
}

fn is_compared(params: &[Param], name: &[u8]) -> bool
    ensures { result ≡ list_any (λ p. bytes_eq name.now p.name) (take 16 params.now) }
{
    compared(params)
        .iter()
        .any(|param| is_same(name, param.name.as_bytes()))
}

/// Adds the name, which is not there, if so many parameters stand before its own that they are not compared.
fn note(
    alloc: Global,
    later: &mut IndexSet<Vec<u8>>,
    count: usize,
    name: &Name,
) -> Result<(), AllocError>
    requires { list_any (bytes_eq name.now) (names_in later.old.keys) ≡ false }
    ensures { names_in later.new.keys ≡
        (if is_ok result && nat_le 16 count then names_in later.old.keys ++ name.now ∷ [] else names_in later.old.keys) }
{
    if count < COMPARED {
        return Ok(());
    }
    let own = name.copy(alloc)?;
    later.insert(own.into_bytes())?;
    Ok(())
}

impl ParamList {
    pub(crate) fn new(alloc: Global) -> ParamList
        ensures { result ≡ [] }
    {
        ParamList {
            params: Vec::new(alloc),
            later: IndexSet::new(alloc),
        }
    }

    /// Whether a parameter of the name stands already.
    pub(crate) fn has(&self, name: &[u8]) -> bool
        ensures { result ≡ list_any (λ p. bytes_eq name.now p.name) self.now }
    {
        is_compared(&self.params, name) || self.later.contains(name)
    }

    /// Adds a parameter whose name does not stand yet.
    pub(crate) fn push(&mut self, alloc: Global, param: Param) -> Result<(), AllocError>
        requires { list_any (λ p. bytes_eq param.name p.name) self.old ≡ false }
        ensures { OnOk result (self.new ≡ self.old ++ param ∷ []) }
    {
        self.params.reserve(1)?;
        note(alloc, &mut self.later, self.params.len(), &param.name)?;
        self.params.push(param)?;
        Ok(())
    }

    /// The parameters, in order.
    pub(crate) fn into_vec(self) -> Vec<Param>
        ensures { result.items ≡ self }
    {
        let ParamList { params, .. } = self;
        params
    }
}

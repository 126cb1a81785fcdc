//! What the lines behind a `module` line say of it.
ghost use Rattle.std.specs.Prelude.{◌≡◌, [], ◌∷◌, ◌++◌, Some, Ok, OnOk, MatchResult};
ghost use Rattle.text_parts.specs.Text.{texts_of};
ghost use Rattle.dep_index.specs.Catalogue.{described, sized, change};
ghost use Rattle.dep_index.specs.Catalogue as spec;
ghost use Rattle.dep_index.specs.Catalogue.Descriptions.{description_of, open_in};
ghost use Rattle.dep_index.specs.Catalogue.Directives.{directive_in};
ghost use Rattle.dep_index.specs.Catalogue.Exports.{export_links, change_links};
ghost use Rattle.dep_index.specs.Faults.{IsMade};

use crate::catalogue::directives::Directive;
use crate::catalogue::exporters::Exporters;
use crate::catalogue::param_list::ParamList;
use crate::catalogue::params::{Param, ParamKind};
use crate::catalogue::symbols::Symbols;
use crate::catalogue::versions::Version;
use crate::faults::Refused;
use std::alloc::{AllocError, Global};
use text_parts::Name;

/// What a catalogue says of a module beside its name.
#[derive(Drop)]
pub(crate) struct Details {
    pub(crate) size: Option<u32>,
    pub(crate) exports: Symbols,
    pub(crate) needed_symbols: Symbols,
    pub(crate) params: Vec<Param>,
    pub(crate) softneeds: Vec<Name>,
    pub(crate) permanent: bool,
}

/// The module that the lines now speak of.
#[derive(Drop)]
pub(crate) struct Open {
    pub(crate) name: Vec<u8>,
    pub(crate) size: Option<u32>,
    pub(crate) exports: Symbols,
    pub(crate) needed_symbols: Symbols,
    pub(crate) params: ParamList,
    pub(crate) softneeds: Vec<Name>,
    pub(crate) permanent: bool,
}

impl Open {
    pub(crate) fn new(alloc: Global, name: Vec<u8>) -> Open
        ensures { open_in result ≡ described name.items }
    {
        Open {
            name,
            size: None,
            exports: Symbols::new(alloc),
            needed_symbols: Symbols::new(alloc),
            params: ParamList::new(alloc),
            softneeds: Vec::new(alloc),
            permanent: false,
        }
    }

    /// Its name, and what was said of it beside.
    pub(crate) fn close(self) -> (Vec<u8>, Details)
        ensures { description_of result ≡ open_in self }
    {
        let Open {
            name,
            size,
            exports,
            needed_symbols,
            params,
            softneeds,
            permanent,
        } = self;
        let details = Details {
            size,
            exports,
            needed_symbols,
            params: params.into_vec(),
            softneeds,
            permanent,
        };
        (name, details)
    }

    fn set_size(&mut self, n: u32) -> Result<(), Refused>
        ensures { IsMade result (sized (open_in self.old) (open_in self.old).size n) (open_in self.new) }
    {
        if self.size.is_some() {
            return Err(Refused::Bad);
        }
        self.size = Some(n);
        Ok(())
    }

    fn need(&mut self, symbols: &[&[u8]]) -> Result<(), AllocError>
        ensures { OnOk result (open_in self.new ≡ record (open_in self.old) { needed_symbols = (open_in self.old).needed_symbols ++ texts_of symbols.now }) }
    {
        self.needed_symbols.push_all(symbols)
    }

    fn soften(&mut self, mut names: Vec<Name>) -> Result<(), AllocError>
        ensures { OnOk result (open_in self.new ≡ record (open_in self.old) { softneeds = (open_in self.old).softneeds ++ names.items }) }
    {
        self.softneeds.append(&mut names)
    }

    fn define(
        &mut self,
        alloc: Global,
        version: Version,
        name: Name,
        kind: ParamKind,
    ) -> Result<(), Refused>
        ensures { IsMade result (change version [] (open_in self.old) (spec.param name kind)) (open_in self.new) }
    {
        if !version.has_kind(kind) || self.params.has(name.as_bytes()) {
            return Err(Refused::Bad);
        }
        let drops_quotes = version.drops_quotes();
        let param = Param {
            name,
            kind,
            drops_quotes,
        };
        self.params.push(alloc, param)?;
        Ok(())
    }

    fn export<'a>(
        &mut self,
        exporters: &mut Exporters<'a>,
        slot: u16,
        symbols: &[&'a [u8]],
    ) -> Result<(), Refused>
        ensures { IsMade result (export_links exporters.old slot (open_in self.old) (texts_of symbols.now)) (open_in self.new, exporters.new) }
    {
        self.exports.reserve(symbols)?;
        for symbol in symbols {
            if !exporters.add(symbol, slot)? {
                return Err(Refused::TwiceExported);
            }
            self.exports.push(symbol)?;
        }
        Ok(())
    }

    /// Takes what a line says of this module in the slot.
    pub(crate) fn change<'a>(
        &mut self,
        alloc: Global,
        version: Version,
        exporters: &mut Exporters<'a>,
        slot: u16,
        directive: Directive<'_, 'a>,
    ) -> Result<(), Refused>
        ensures { let meant = change_links version exporters.old slot (open_in self.old) (directive_in directive.entry) in
            IsMade result meant (open_in self.new, exporters.new) }
    {
        match directive {
            Directive::Version(_) | Directive::Module(_) | Directive::End(_) => {
                return Err(Refused::Bad);
            }
            Directive::Size(n) => self.set_size(n)?,
            Directive::Exports(symbols) => self.export(exporters, slot, symbols)?,
            Directive::Needs(symbols) => self.need(symbols)?,
            Directive::Softneeds(names) => {
                if !version.has_softneeds() {
                    return Err(Refused::Bad);
                }
                self.soften(names)?
            }
            Directive::Param(name, kind) => self.define(alloc, version, name, kind)?,
            Directive::Permanent => self.permanent = true,
        }
        Ok(())
    }
}

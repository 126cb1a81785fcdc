//! What plans are made from, and what it says of a module.
ghost use Rattle.std.specs.Prelude.{◌≡◌, ◌<◌, ◌++◌, [], length, map, true, IfOk, IfSome, OnOk};
ghost use Rattle.dep_index.specs.Catalogue.{description_at, slot_named};
ghost use Rattle.load_plan.specs.declared.graph.Target.TheVariants.{Slot};
ghost use Rattle.load_plan.specs.Cuts.{Appends};
ghost use Rattle.load_plan.specs.Sources.{hard_of, is_stopped, node_from, options_from, post_of, pre_of, target_of};
ghost use Rattle.dep_index.specs.Dependencies.{deps};
ghost use Rattle.modprobe_conf.specs.Configuration.{options_of, softdep_of};
ghost use Rattle.std.specs.Option.{option_copied};

use crate::graph::{MissingName, Row, Target};
use dep_index::{Catalogue, DepIndex};
use modprobe_conf::{Conf, Softdep};
use std::alloc::AllocError;
use text_parts::Name;

/// What plans are made from: the catalogue, the modules.dep text that goes before its needs, and the configuration.
#[derive(Clone, Copy)]
pub struct Sources<'a> {
    pub catalogue: &'a Catalogue,
    pub dependencies: &'a DepIndex,
    pub configuration: &'a Conf,
}

/// The slot of a name in normal form.
pub(crate) fn slot_of(catalogue: &Catalogue, name: &Name) -> Option<usize>
    ensures slot { result ≡ slot_named catalogue.now name.now }
    ensures within { IfSome result (λ slot. slot < length catalogue.now) }
{
    catalogue.slot(name.as_bytes())
}

/// The module of a name.
fn target_of<'a>(catalogue: &Catalogue, name: &'a Name) -> Target<'a>
    ensures { result ≡ target_of catalogue.now name.entry.now }
{
    match slot_of(catalogue, name) {
        Some(slot) => Target::Slot(slot),
        None => Target::Missing(MissingName::new(name)),
    }
}

fn add_names<'a>(
    catalogue: &Catalogue,
    names: &'a [Name],
    targets: &mut Vec<Target<'a>>,
) -> Result<(), AllocError>
    ensures { OnOk result (targets.new.items ≡ targets.old.items ++ map (target_of catalogue.now) names.now) }
{
    for name in names {
        targets.push(target_of(catalogue, name))?;
    }
    Ok(())
}

fn add_slots(needs: &[u16], targets: &mut Vec<Target<'_>>) -> Result<(), AllocError>
    ensures { OnOk result (targets.new.items ≡ targets.old.items ++ map Slot needs.now) }
{
    for slot in needs {
        targets.push(Target::Slot(*slot as usize))?;
    }
    Ok(())
}

/// Adds the hard dependencies of a slot.
fn add_hard<'a>(
    catalogue: &Catalogue,
    dependencies: &'a DepIndex,
    slot: usize,
    targets: &mut Vec<Target<'a>>,
) -> Result<(), AllocError>
    requires { slot < length catalogue.now }
    ensures { OnOk result (targets.new.items ≡ targets.old.items
        ++ hard_of catalogue.now slot (deps dependencies.now (description_at catalogue.now slot).name)) }
{
    match dependencies.deps(catalogue.name(slot)) {
        Some(names) => add_names(catalogue, names, targets),
        None => add_slots(catalogue.needs(slot), targets),
    }
}

/// Adds the pre items of a slot, by the softdep line of its name.
fn add_pre<'a>(
    catalogue: &'a Catalogue,
    softdep: Option<&'a Softdep>,
    slot: usize,
    targets: &mut Vec<Target<'a>>,
) -> Result<(), AllocError>
    requires { slot < length catalogue.now }
    ensures { OnOk result (targets.new.items ≡ targets.old.items
        ++ map (target_of catalogue.now) (pre_of (description_at catalogue.now slot) (option_copied softdep.entry))) }
{
    match softdep {
        Some(softdep) => add_names(catalogue, softdep.pre(), targets),
        None => add_names(catalogue, catalogue.softneeds(slot), targets),
    }
}

/// Adds the post items of a module, by the softdep line of its name.
fn add_post<'a>(
    catalogue: &Catalogue,
    softdep: Option<&'a Softdep>,
    targets: &mut Vec<Target<'a>>,
) -> Result<(), AllocError>
    ensures { OnOk result (targets.new.items ≡ targets.old.items
        ++ map (target_of catalogue.now) (post_of (option_copied softdep.entry))) }
{
    match softdep {
        Some(softdep) => add_names(catalogue, softdep.post(), targets),
        None => Ok(()),
    }
}

/// What a plan reads of the settings of a name: its softdep line, whether an install line stands in the way of its
/// module, and whether it has no options.
#[derive(Clone, Copy)]
struct Said<'a> {
    softdep: Option<&'a Softdep>,
    stops: bool,
    is_bare: bool,
}

/// What is said of a name, by one look-up.
fn said_of<'a>(configuration: &'a Conf, name: &[u8]) -> Said<'a>
    ensures softdep { option_copied result.softdep ≡ softdep_of configuration.entry.now name.now }
    ensures stops { result.stops ≡ is_stopped configuration.entry.now name.now }
    ensures bare { result.is_bare ≡ true → options_of configuration.entry.now name.now ≡ [] }
{
    match configuration.settings(name) {
        Some(settings) => {
            let softdep = settings.softdep();
            Said {
                softdep,
                stops: settings.has_install() && softdep.is_none(),
                is_bare: settings.options().is_empty(),
            }
        }
        None => Said {
            softdep: None,
            stops: false,
            is_bare: true,
        },
    }
}

/// Adds what a plan asks of a slot after the targets of others, and tells whether its name has no options.
pub(crate) fn add_node<'a>(
    sources: &Sources<'a>,
    slot: usize,
    targets: &mut Vec<Target<'a>>,
) -> Result<(Row, bool), AllocError>
    requires { slot < length sources.now.catalogue.now }
    ensures row { IfOk result (λ read. Appends targets.old.items targets.new.items read.0 (node_from sources.now slot)) }
    ensures bare { IfOk result (λ read. read.1 ≡ true → options_from sources.now slot ≡ []) }
{
    let Sources {
        catalogue,
        dependencies,
        configuration,
    } = *sources;
    let said = said_of(configuration, catalogue.name(slot));
    let hard_from = targets.len();
    add_hard(catalogue, dependencies, slot, targets)?;
    let pre_from = targets.len();
    add_pre(catalogue, said.softdep, slot, targets)?;
    let post_from = targets.len();
    add_post(catalogue, said.softdep, targets)?;
    let row = Row {
        hard_from,
        pre_from,
        post_from,
        end: targets.len(),
        installs: said.stops,
    };
    Ok((row, said.is_bare))
}

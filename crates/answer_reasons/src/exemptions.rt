//! Blacklist lines that do not hold, and why.
ghost use Rattle.std.specs.Prelude.{◌≡◌};
ghost use Rattle.kmod_query.specs.Objects.{object_of};
ghost use Rattle.answer_reasons.specs.Exemptions.{asked_exemption, exemption_of};

use crate::tasks::Tasks;
use crate::told::Told;
use answer_facts::{Blacklist, IdleFact, ModuleFact, What};
use kmod_names::normal_alias;
use kmod_query::{Ask, Object, Query, World, is_barred};
use std::alloc::AllocError;
use text_parts::is_same;

/// Why the blacklist lines of a module do not hold.
#[derive(Clone, Copy, PartialEq, Eq, Hash)]
pub(crate) enum Exemption {
    /// It is asked for by its own name, without -b.
    OwnName,
    /// Another module needs it.
    Needed,
    /// It is a soft dependency.
    SoftDependency,
    /// Names are resolved, and nothing is loaded.
    Resolved,
}

impl Exemption {
    /// What the lines do then.
    fn effect(self) -> Blacklist {
        match self {
            Exemption::OwnName => Blacklist::OwnName,
            Exemption::Needed => Blacklist::Needed,
            Exemption::SoftDependency => Blacklist::SoftDependency,
            Exemption::Resolved => Blacklist::Resolved,
        }
    }
}

/// Why a blacklisted module that a name stands for is answered; None if it is not. `barred` says that a load leaves it out.
fn asked_exemption(ask: Ask, barred: bool) -> Option<Exemption>
    ensures { result ≡ asked_exemption ask barred }
{
    match ask {
        Ask::Resolve => Some(Exemption::Resolved),
        Ask::ShowDepends | Ask::DryRun if !barred => Some(Exemption::OwnName),
        _ => None,
    }
}

/// Why the blacklist lines of a module that a name stands for do not hold. None if it has none, or they hold, or modules are
/// to be removed.
fn exemption_of(world: &World<'_>, query: &Query<'_>, object: &Object) -> Option<Exemption>
    ensures { result ≡ exemption_of world.now query.now (object_of object.now) }
{
    if world.conf.is_blacklisted(&object.name) {
        asked_exemption(query.ask, is_barred(world, query, object))
    } else {
        None
    }
}

impl<'a> Told<'_, 'a> {
    /// Tells the blacklist lines of a module that do not hold, once for each reason.
    pub(crate) fn tell_exempt(
        &mut self,
        tasks: &mut Tasks<'a>,
        name: &'a [u8],
        exemption: Exemption,
    ) -> Result<(), AllocError> {
        let asked = self.known.asked;
        if asked.world.conf.is_blacklisted(name) && tasks.add_exempt(name, exemption)? {
            return self.tell_blacklist(name, exemption.effect());
        }
        Ok(())
    }

    /// Tells the blacklist lines that do not hold for a module for which a name stands. `name` is that of the module.
    pub(crate) fn tell_exempt_object(
        &mut self,
        tasks: &mut Tasks<'a>,
        world: &World<'_>,
        object: &Object,
        name: &'a [u8],
    ) -> Result<(), AllocError> {
        match exemption_of(world, &self.known.asked.query, object) {
            Some(exemption) => self.tell_exempt(tasks, name, exemption),
            None => Ok(()),
        }
    }

    /// Tells the blacklist lines of a name that stands for other modules alone, once.
    pub(crate) fn tell_blacklisted_alias(
        &mut self,
        name: &'a [u8],
        objects: &[Object],
    ) -> Result<(), AllocError> {
        let is_alias = !objects.is_empty()
            && !objects.iter().any(|object| is_same(&object.name, name));
        if !is_alias || self.known.is_removal() || !self.begin_unheld(name)? {
            return Ok(());
        }
        let named = self.known.named;
        let what = What::Idle(IdleFact::BlacklistedAlias);
        self.say_of_each(name, what, &named.blacklist, None)
    }

    /// Whether a blacklist line has a name of a module with `-` for `_`. That of the kernel's command line may, and does not
    /// hold then.
    fn is_misspelt(&self, written: &[u8], name: &[u8]) -> Result<bool, AllocError> {
        if !written.contains(&b'-') {
            return Ok(false);
        }
        match normal_alias(self.alloc, written)? {
            Some(normal) => Ok(is_same(normal.as_bytes(), name)),
            None => Ok(false),
        }
    }

    /// Tells the names of a module with `-` for `_` that blacklist lines have, each once: all stand on the kernel's command
    /// line.
    pub(crate) fn tell_misspelt(&mut self, name: &'a [u8]) -> Result<(), AllocError> {
        let named = self.known.named;
        for line in named.blacklist.all() {
            if self.is_misspelt(line.name, name)? && self.begin_unheld(line.name)? {
                let what = What::Module(ModuleFact::Misspelt(line.name));
                self.say_of(name, what, line.place)?;
            }
        }
        Ok(())
    }
}

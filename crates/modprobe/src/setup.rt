//! What a session knows besides its table.
ghost use Rattle.std.specs.Prelude.{◌≡◌, ◌≢◌, ◌≤◌, [], Ok, false, IfOk, IfErr, IfSome, OnOk};
ghost use Rattle.load_plan.specs.LookUp.{found};
ghost use Rattle.load_plan.specs.declared.look_up.FindError.TheVariants.{NotFound};
ghost use Rattle.modprobe.specs.Lines.{bytes_left, IfTold, IsPaid, StopsForTurns, SpendsTurns, HasTrueEnd, source_of, SameReader, line_of};
ghost use Rattle.modprobe.specs.Setup.{name_at};
ghost use Rattle.modprobe.specs.SetupInput.{setup_for, setup_of, GivesSetup, Refuses, SetupStops};
ghost use Rattle.modprobe.specs.ForProofs.{BoundsNames, FitsNames, RefusesTexts, StopsNowhere, is_setup_read, is_turns_code, parts_of};

use crate::aliases::{AliasForm, KeptAliases};
use crate::device::Source;
use crate::fault::{SetupCode, SetupFault};
use crate::lines::Lines;
use crate::reply::ERROR_ROOM;
use crate::section::{Texts, read_texts};
use crate::watch::Watch;
use alias_match::Aliases;
use dep_index::{Catalogue, DepIndex, read_catalogue, read_dep};
use load_plan::{FindError, Sources};
use modprobe_conf::{Conf, read_conf};
use std::alloc::Global;
use std::marker::Model;
use text_parts::Name;

/// The setup of a session: its catalogue, and what its texts of modules.dep(5), modules.alias and modprobe.d(5) say.
#[derive(Drop)]
pub struct Setup {
    catalogue: Catalogue,
    // the length of the longest name of the catalogue
    longest: usize,
    dependencies: DepIndex,
    aliases: KeptAliases,
    configuration: Conf,
}

impl Model for Setup {
    ghost use Rattle.modprobe.specs.Setup as setup;
    ghost use Rattle.modprobe.specs.ForProofs.{BoundsNames};

    ghost Value = { setup.Setup };

    ghost view = { λ s. record { catalogue = s.catalogue; dependencies = s.dependencies; aliases = s.aliases; configuration = s.configuration } };

    ghost invariant = { λ s. BoundsNames s.longest s.catalogue };
}

impl Setup {
    /// The catalogue.
    pub fn catalogue(&self) -> &Catalogue
        ensures { result.now ≡ self.now.catalogue }
    {
        &self.catalogue
    }

    /// What plans are made from.
    pub(crate) fn sources(&self) -> Sources<'_>
        ensures catalogue { result.catalogue.now ≡ self.now.catalogue }
        ensures dependencies { result.dependencies.now ≡ self.now.dependencies }
        ensures configuration { result.configuration.now ≡ self.now.configuration }
    {
        Sources {
            catalogue: &self.catalogue,
            dependencies: &self.dependencies,
            configuration: &self.configuration,
        }
    }

    /// What modules.alias says, if it is kept in a table.
    pub fn alias_table(&self) -> Option<&Aliases>
        ensures { IfSome result (λ aliases. aliases.now ≡ self.now.aliases) }
    {
        self.aliases.table()
    }

    /// The modules of a name, as `find` of load_plan finds them. NotFound if there are none.
    pub fn find(&self, alloc: Global, name: &[u8]) -> Result<Vec<Name>, FindError>
        ensures found { IfOk result (λ names. names.items ≡ found self.now.catalogue self.now.configuration self.now.aliases.entries name.now) }
        ensures some { IfOk result (λ names. names.items ≢ []) }
        ensures none { IfErr result (λ e. e ≡ NotFound → found self.now.catalogue self.now.configuration self.now.aliases.entries name.now ≡ []) }
    {
        self.aliases
            .find(alloc, name, &self.catalogue, &self.configuration)
    }

    /// What modprobe.d says.
    pub fn configuration(&self) -> &Conf
        ensures { result.now ≡ self.now.configuration }
    {
        &self.configuration
    }

    /// The name of the module in a slot; of a slot past the end it is empty.
    pub(crate) fn name(&self, slot: usize) -> &[u8]
        ensures { result.now ≡ name_at self.now slot }
    {
        if slot < self.catalogue.len() {
            self.catalogue.name(slot)
        } else {
            b""
        }
    }

    /// Room for the line of a refusal that names any module.
    pub(crate) fn error_room(&self) -> usize
        ensures least { 32 ≤ result }
        ensures names { FitsNames self.now result }
    {
        self.longest + ERROR_ROOM
    }
}

/// The length of the longest name.
fn longest_name(catalogue: &Catalogue) -> usize
    ensures { BoundsNames result catalogue.now }
{
    let mut longest = 0usize;
    for slot in 0..catalogue.len() {
        longest = longest.max(catalogue.name(slot).len());
    }
    longest
}

/// The setup that the texts of the sections make, with the aliases in a form.
pub(crate) fn setup_for(alloc: Global, texts: &Texts, form: AliasForm) -> Result<Setup, SetupFault>
    ensures setup { IfOk result (λ s. setup_for (parts_of texts.now) ≡ Ok s) }
    ensures refused { IfErr result (λ fault. RefusesTexts fault (parts_of texts.now)) }
    ensures read { is_setup_read result ≡ false }
    ensures turns { IfErr result (λ fault. is_turns_code fault.code ≡ false) }
    ensures stops { IfErr result (λ fault. StopsNowhere fault.code) }
{
    let catalogue = read_catalogue(alloc, &texts.catalogue)?;
    Ok(Setup {
        longest: longest_name(&catalogue),
        catalogue,
        dependencies: read_dep(alloc, &texts.dep)?,
        aliases: KeptAliases::read(alloc, &texts.alias, form)?,
        configuration: read_conf(alloc, &texts.conf)?,
    })
}

/// Gives the texts of the sections to the watch, and shows it the setup.
fn tell_setup<T: Watch>(setup: &Result<Setup, SetupFault>, texts: Texts, watch: &mut T) {
    watch.texts(texts);
    if let Ok(setup) = setup {
        watch.setup(setup);
    }
}

/// Reads the sections of an input, up to the first `%session` line or the end, and what they say: `lines` then gives the
/// lines of the session. B1: a line stands before the first section line, which is told as it is read. C1 to C4: the
/// first fault of the catalogue, at its line of the joined text. M1 to M3: the catalogue has none, and this is the first of
/// modules.dep. LongLine: a line of more than 65,535 bytes. Read: the source failed. Turns: it was read as often as
/// `lines` may. Memory: there is none. Each read of the source takes one turn of `lines`.
/// The watch is told of each line and each section, and then of the texts and the setup.
pub fn read_setup_watched<R: Source, T: Watch>(
    alloc: Global,
    lines: &mut Lines<'_, R>,
    watch: &mut T,
) -> Result<Setup, SetupFault>
    requires { R.has_failed (source_of lines.old) ≡ false }
    ensures setup { IfOk result (λ s.
        GivesSetup (bytes_left R.remaining lines.old) (bytes_left R.remaining lines.new) s) }
    ensures refused { IfErr result (λ fault.
        IfTold (bytes_left R.remaining lines.old) (λ input. Refuses fault (setup_of input))) }
    ensures stops { IfErr result (λ fault. SetupStops fault.code (bytes_left R.remaining lines.old)
        (R.remaining (source_of lines.new)) (line_of lines.new)) }
    ensures read { R.has_failed (source_of lines.new) ≡ is_setup_read result }
    ensures turns { IfErr result (λ fault.
        fault.code ≡ SetupCode.Turns → StopsForTurns R.remaining lines.old lines.new) }
    ensures paid { OnOk result (IsPaid R.remaining lines.old lines.new) }
    ensures counted { SpendsTurns R.read_count lines.old lines.new }
    ensures end { HasTrueEnd R.remaining lines.old → HasTrueEnd R.remaining lines.new }
    ensures same_reader { SameReader lines.old lines.new }
{
    let mut texts = Texts::new(alloc);
    match read_texts(lines, &mut texts, watch) {
        Ok(()) => {
            let setup = setup_for(alloc, &texts, AliasForm::Table);
            tell_setup(&setup, texts, watch);
            setup
        }
        Err(fault) => {
            watch.texts(texts);
            Err(fault)
        }
    }
}

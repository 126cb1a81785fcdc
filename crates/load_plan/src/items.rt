//! What a command loads for a name, and what it removes.
ghost use Rattle.std.specs.Prelude.{◌≡◌, ◌<◌, length, map, true, All, IfOk};
ghost use Rattle.text_parts.specs.Text.{normal_form, texts_of};
ghost use Rattle.load_plan.specs.declared.refusal.WalkError.TheVariants.{Refused};
ghost use Rattle.load_plan.specs.declared.graph.Target.TheVariants.{Slot};
ghost use Rattle.load_plan.specs.ForProofs.{steps_of};
ghost use Rattle.load_plan.specs.Items.{Answers, error_of, name_at, plan_from, removal_plan_from};
ghost use Rattle.load_plan.specs.OptionWords.{item_for, plan_for, removal_for, AreBare};
ghost use Rattle.load_plan.specs.Parts.{known_at};
ghost use Rattle.load_plan.specs.Reading.{IsRead};
ghost use Rattle.load_plan.specs.Results.{IsRefusalWithin};
ghost use Rattle.load_plan.specs.Sources.{options_from};

use crate::kept::is_kept;
use crate::options::Options;
use crate::plans::{PlanStep, plan_in, removal_plan_in, step_of};
use crate::reach::{Part, part_from};
use crate::refusal::{PlanRefusal, WalkError};
use crate::sources::{Sources, slot_of};
use crate::walk::Walked;
use dep_index::Catalogue;
use modprobe_conf::Word;
use std::alloc::{AllocError, AllocFailed, Global};
use std::fmt;
use text_parts::Name;
use thiserror::Error;

/// A module that a plan loads, whether only soft items ask for it, and the words that it is loaded with.
#[derive(Drop)]
pub struct Item<'a> {
    pub slot: usize,
    pub soft: bool,
    pub options: Options<'a>,
}

/// Why there is no plan.
#[derive(Drop, Error)]
pub enum PlanError {
    /// The module is a hard dependency of itself.
    #[error("a module is a hard dependency of itself")]
    Cycle(Name),
    /// The module has an install line and no softdep line (modprobe.d(5)).
    #[error("a module has an install line and no softdep line")]
    Install(Name),
    /// The catalogue has no module of that name.
    #[error("the catalogue has no module of the name")]
    Unknown(Name),
    /// Memory ran out.
    #[error("out of memory")]
    Memory,
    /// The module has a remove line and no softdep line (modprobe.d(5)).
    #[error("a module has a remove line and no softdep line")]
    Remove(Name),
}

impl fmt::Debug for PlanError {
    fn fmt<W: fmt::Write>(&self, f: &mut fmt::Formatter<W>) -> fmt::Result {
        write!(f, "{self}")
    }
}

impl From<AllocError> for PlanError {
    ghost use Rattle.load_plan.specs.declared.items.PlanError.TheVariants.{Memory};

    ghost from_gives = { λ _ e. e ≡ Memory };

    fn from(_error: AllocError) -> PlanError {
        PlanError::Memory
    }
}

impl<T: Drop> From<AllocFailed<T>> for PlanError {
    ghost use Rattle.load_plan.specs.declared.items.PlanError.TheVariants.{Memory};

    ghost from_gives = { λ _ e. e ≡ Memory };

    fn from(_error: AllocFailed<T>) -> PlanError {
        PlanError::Memory
    }
}

/// The refusal with the name of its module.
pub(crate) fn error_of(
    alloc: Global,
    catalogue: &Catalogue,
    refusal: PlanRefusal,
) -> Result<PlanError, AllocError>
    requires { IsRefusalWithin (length catalogue.now) (Refused refusal) }
    ensures { IfOk result (λ e. e ≡ error_of catalogue.now refusal) }
{
    match refusal {
        PlanRefusal::Cycle(slot) => Ok(PlanError::Cycle(Name::new(alloc, catalogue.name(slot))?)),
        PlanRefusal::Install(slot) => Ok(PlanError::Install(Name::new(
            alloc,
            catalogue.name(slot),
        )?)),
        PlanRefusal::Unknown(name) => Ok(PlanError::Unknown(name)),
    }
}

/// The module that a command asks for, and the words of the command.
#[derive(Clone, Copy)]
pub(crate) struct Asked<'a, 'b> {
    pub(crate) slot: usize,
    pub(crate) words: &'b [&'a [u8]],
}

/// The words of the options lines of a slot. They are looked up if its name may have some.
fn options_at<'a>(sources: &Sources<'a>, part: &Part<'a>, slot: usize) -> &'a [Word]
    requires slot { slot < length sources.now.catalogue.now }
    requires bare { AreBare sources.now part.now.bare.items }
    ensures { result.now ≡ options_from sources.now slot }
{
    match part.bare.get(slot) {
        Some(true) => &[],
        _ => sources.configuration.options(sources.catalogue.name(slot)),
    }
}

fn item_of<'a>(
    alloc: Global,
    sources: &Sources<'a>,
    part: &Part<'a>,
    asked: Asked<'a, '_>,
    step: PlanStep,
) -> Result<Item<'a>, AllocError>
    requires slot { step.slot < length sources.now.catalogue.now }
    requires bare { AreBare sources.now part.now.bare.items }
    ensures { IfOk result (λ item. item ≡ item_for sources.now asked.entry step) }
{
    let mut options = Options::new(alloc);
    options.add_options(options_at(sources, part, step.slot))?;
    if step.slot == asked.slot {
        options.add_words(asked.words)?;
    }
    Ok(Item {
        slot: step.slot,
        soft: step.soft,
        options,
    })
}

fn items_of<'a>(
    alloc: Global,
    sources: &Sources<'a>,
    part: &Part<'a>,
    asked: Asked<'a, '_>,
    planned: &Walked,
) -> Result<Vec<Item<'a>>, AllocError>
    requires within { All (λ slot. slot < length sources.now.catalogue.now) planned.now.order.items }
    requires bare { AreBare sources.now part.now.bare.items }
    ensures items { IfOk result (λ items. items.items
        ≡ map (item_for sources.now asked.entry) (steps_of planned.now.marks.items planned.now.order.items)) }
    ensures within { IfOk result (λ items. All (λ item. item.slot < length sources.now.catalogue.now) items.items) }
{
    let mut items = Vec::with_capacity(alloc, planned.order.len())?;
    for slot in &planned.order {
        let step = step_of(&planned.marks, *slot);
        items.push(item_of(alloc, sources, part, asked, step)?)?;
    }
    Ok(items)
}

/// The plan of a module that was read.
pub(crate) fn planned<'a>(
    alloc: Global,
    sources: &Sources<'a>,
    part: &Part<'a>,
    asked: Asked<'a, '_>,
) -> Result<Vec<Item<'a>>, PlanError>
    requires read { IsRead sources.now part.now }
    requires known { known_at part.now.known.items asked.slot ≡ true }
    ensures items { Answers (λ items. items.items) result (plan_for sources.now asked.entry) }
    ensures within { IfOk result (λ items. All (λ item. item.slot < length sources.now.catalogue.now) items.items) }
{
    match plan_in(alloc, &part.graph, asked.slot) {
        Ok(planned) => Ok(items_of(alloc, sources, part, asked, &planned)?),
        Err(WalkError::Refused(refusal)) => Err(error_of(alloc, sources.catalogue, refusal)?),
        Err(WalkError::Memory) => Err(PlanError::Memory),
    }
}

/// The plan of a name: the modules that are loaded for it, in order. Hard dependencies stand before their users,
/// none stands twice; soft items stand before or after (modprobe.d(5)), and are skipped if they can't be
/// loaded. The words of the command are the last words of the name's own module. It is refused at the first module
/// of the hard walk that is on the way to itself (Cycle), that the catalogue does not have (Unknown), or that has
/// an install line and no softdep line (Install), and if memory runs out.
pub fn plan<'a>(
    alloc: Global,
    name: &[u8],
    words: &[&'a [u8]],
    sources: &Sources<'a>,
) -> Result<Vec<Item<'a>>, PlanError>
    ensures items { Answers (λ items. items.items) result (plan_from sources.now name.now (texts_of words.now)) }
    ensures within { IfOk result (λ items. All (λ item. item.slot < length sources.now.catalogue.now) items.items) }
{
    let name = Name::new(alloc, name)?;
    let Some(slot) = slot_of(sources.catalogue, &name) else {
        return Err(PlanError::Unknown(name));
    };
    let part = part_from(alloc, sources, slot)?;
    planned(alloc, sources, &part, Asked { slot, words })
}

/// The removal plan of a module that was read.
pub(crate) fn removal_planned(
    alloc: Global,
    sources: &Sources,
    part: &Part,
    slot: usize,
) -> Result<Vec<usize>, PlanError>
    requires read { IsRead sources.now part.now }
    requires known { known_at part.now.known.items slot ≡ true }
    ensures order { Answers (λ order. order.items) result (removal_for sources.now slot) }
    ensures within { IfOk result (λ order. All (λ slot. slot < length sources.now.catalogue.now) order.items) }
{
    match removal_plan_in(alloc, &part.graph, slot) {
        Ok(order) => Ok(order),
        Err(WalkError::Refused(refusal)) => Err(error_of(alloc, sources.catalogue, refusal)?),
        Err(WalkError::Memory) => Err(PlanError::Memory),
    }
}

/// The removal plan of a name: its module, and then what it stands on, each user before its dependencies. It is
/// refused if the name has a remove line and no softdep line (Remove), else at the first module of the hard walk
/// that is on the way to itself (Cycle) or that the catalogue does not have (Unknown), and if memory runs out.
pub fn removal_plan(alloc: Global, name: &[u8], sources: &Sources) -> Result<Vec<usize>, PlanError>
    ensures order { Answers (λ order. order.items) result (removal_plan_from sources.now name.now) }
    ensures within { IfOk result (λ order. All (λ slot. slot < length sources.now.catalogue.now) order.items) }
{
    let name = Name::new(alloc, name)?;
    if is_kept(sources.configuration, name.as_bytes()) {
        return Err(PlanError::Remove(name));
    }
    let Some(slot) = slot_of(sources.catalogue, &name) else {
        return Err(PlanError::Unknown(name));
    };
    let part = part_from(alloc, sources, slot)?;
    removal_planned(alloc, sources, &part, slot)
}

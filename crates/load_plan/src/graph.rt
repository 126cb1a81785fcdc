//! A dependency graph: for each module the modules that it names.
ghost use Rattle.std.specs.Prelude.{◌≡◌, ◌+◌, ◌^◌, ◌<◌, [], ◌∷◌, drop, length, true, IfOk, IfSome, MatchOption};
ghost use Rattle.std.specs.List.{list_all};
ghost use Rattle.load_plan.specs.Cuts.{nodes_in, IsGraph};
ghost use Rattle.load_plan.specs.SoftModules.{is_missing, HasNoSoftModules};
ghost use Rattle.load_plan.specs.Graph.{is_bounded, is_within, node_at, targets_of};

use crate::by_slot::BySlot;
use std::alloc::{AllocError, Global};
use std::marker::Model;
use text_parts::Name;

/// A name that the catalogue does not have, where it was read: most graphs name some, and a plan copies none of them.
/// Contracts see it as its bytes.
#[derive(Drop)]
pub(crate) struct MissingName<'a> {
    name: &'a Name,
}

impl<'a> Model for MissingName<'a> {
    ghost use Rattle.std.specs.Prelude.{ℕ, List};

    ghost Value = { List ℕ };

    ghost view = { λ m. m.name.now };
}

impl<'a> MissingName<'a> {
    pub(crate) fn new(name: &'a Name) -> MissingName<'a>
        ensures { result ≡ name.entry.now }
    {
        MissingName { name }
    }

    /// The name, for another owner.
    pub(crate) fn copy(&self, alloc: Global) -> Result<Name, AllocError>
        ensures { IfOk result (λ copied. copied ≡ self.now) }
    {
        self.name.copy(alloc)
    }
}

/// A module that a module names: a slot of the catalogue, or a name that the catalogue does not have.
#[derive(Drop)]
pub(crate) enum Target<'a> {
    Slot(usize),
    Missing(MissingName<'a>),
}

/// The target at an index, if there is one.
pub(crate) fn target_at<'t, 'a>(targets: &'t [Target<'a>], index: usize) -> Option<&'t Target<'a>>
    ensures first { MatchOption result
        (drop index targets.entry.now ≡ [])
        (λ t. drop index targets.entry.now ≡ t.now ∷ drop (index + 1) targets.entry.now) }
    ensures within { IfSome result (λ _. index + 1 < 2 ^ 64) }
{
    targets.get(index)
}

/// Whether none of the targets is a module of the graph.
pub(crate) fn are_missing(targets: &[Target]) -> bool
    ensures { result ≡ list_all is_missing targets.now }
{
    targets
        .iter()
        .all(|target| matches!(target, Target::Missing(_)))
}

/// The three lists of what a module names, in the order in which a visit takes them: its pre items, its hard
/// dependencies, its post items.
#[derive(Clone, Copy)]
pub(crate) enum Phase {
    Pre,
    Hard,
    Post,
}

/// Where the targets of a module stand among those of all: its hard dependencies, its pre items and its post items,
/// in this order.
#[derive(Clone, Copy)]
pub(crate) struct Row {
    pub(crate) hard_from: usize,
    pub(crate) pre_from: usize,
    pub(crate) post_from: usize,
    pub(crate) end: usize,
    /// The module has an install line and no softdep line (modprobe.d(5)).
    pub(crate) installs: bool,
}

/// The modules by slot; each slot that a module names is one of them. Contracts see it as the list of its nodes.
#[derive(Drop)]
pub(crate) struct DependencyGraph<'a> {
    rows: BySlot<Row>,
    // those of all modules, so that none has an allocation of its own
    targets: Vec<Target<'a>>,
    has_soft: bool,
}

impl<'a> Model for DependencyGraph<'a> {
    ghost use Rattle.std.specs.Prelude.{List};
    ghost use Rattle.load_plan.specs.Graph.{Node};

    ghost Value = { List Node };

    ghost use Rattle.load_plan.specs.Cuts.{nodes_in, IsGraph};

    ghost view = { λ g. nodes_in g.targets.items g.rows };

    ghost invariant = { λ g. IsGraph g.targets.items g.rows g.has_soft };
}

impl<'a> DependencyGraph<'a> {
    /// The modules of these rows. If `has_soft` is false no soft item is a module.
    pub(crate) fn new(
        rows: BySlot<Row>,
        targets: Vec<Target<'a>>,
        has_soft: bool,
    ) -> DependencyGraph<'a>
        requires { IsGraph targets.items rows has_soft }
        ensures { result ≡ nodes_in targets.entry.items rows }
    {
        DependencyGraph {
            rows,
            targets,
            has_soft,
        }
    }

    /// The number of modules.
    pub(crate) fn len(&self) -> usize
        ensures len { result ≡ length self.now }
        ensures bounded { is_bounded self.now ≡ true }
    {
        self.rows.len()
    }

    /// What a module names in a phase.
    pub(crate) fn targets(&self, slot: usize, phase: Phase) -> &[Target<'a>]
        requires { slot < length self.now }
        ensures targets { result.now ≡ targets_of (node_at self.now slot) phase }
        ensures within { list_all (is_within (length self.now)) result.now ≡ true }
    {
        let row = self.rows.at(slot);
        match phase {
            Phase::Pre => &self.targets[row.pre_from..row.post_from],
            Phase::Hard => &self.targets[row.hard_from..row.pre_from],
            Phase::Post => &self.targets[row.post_from..row.end],
        }
    }

    /// Whether no soft item is a module of the graph: a visit then finds what the hard walk found.
    pub(crate) fn has_no_soft_module(&self) -> bool
        ensures { result ≡ true → HasNoSoftModules self.now }
    {
        !self.has_soft
    }

    pub(crate) fn installs(&self, slot: usize) -> bool
        requires { slot < length self.now }
        ensures { result ≡ (node_at self.now slot).installs }
    {
        self.rows.at(slot).installs
    }
}

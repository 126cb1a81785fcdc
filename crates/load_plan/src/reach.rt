//! The part of the dependency graph that plans read: what modules reach over hard dependencies and soft items.
ghost use Rattle.std.specs.Prelude.{◌≡◌, ◌<◌, ℕ, [], length, replicate, false, true, IfOk, IfSome, OnOk};
ghost use Rattle.std.specs.List.{list_all};
ghost use Rattle.load_plan.specs.Graph.{is_within, node_at};
ghost use Rattle.load_plan.specs.Cuts.{no_row};
ghost use Rattle.load_plan.specs.Sources.{graph_from};
ghost use Rattle.load_plan.specs.Parts.{Adds, is_target_in, known_at, names_in, AreClosed};
ghost use Rattle.load_plan.specs.Reading.{IsRead};

use crate::by_slot::BySlot;
use crate::filled::filled;
use crate::graph::{DependencyGraph, Phase, Row, Target, are_missing};
use crate::sources::{Sources, add_node, slot_of};
use dep_index::Catalogue;
use std::alloc::{AllocError, Global};
use text_parts::Name;

/// A module that names nothing.
const NOTHING: Row = Row {
    hard_from: 0,
    pre_from: 0,
    post_from: 0,
    end: 0,
    installs: false,
};

/// The modules that were reached, and those of them that are left to be read.
#[derive(Drop)]
struct Reach {
    known: Vec<bool>,
    left: Vec<usize>,
}

impl Reach {
    /// Reaches a module: one that is not known yet is left to be read.
    fn add(&mut self, slot: usize) -> Result<(), AllocError>
        requires { slot < length self.old.known.items }
        ensures adds { OnOk result (Adds self.old.known.items self.old.left.items self.new.known.items self.new.left.items) }
        ensures here { OnOk result (known_at self.new.known.items slot ≡ true) }
    {
        if !self.known[slot] {
            self.known[slot] = true;
            self.left.push(slot)?;
        }
        Ok(())
    }

    /// Reaches the modules of these names.
    fn add_names(&mut self, catalogue: &Catalogue, names: &[Name]) -> Result<(), AllocError>
        requires { length self.old.known.items ≡ length catalogue.now }
        ensures { OnOk result (Adds self.old.known.items self.old.left.items self.new.known.items self.new.left.items) }
    {
        for name in names {
            if let Some(slot) = slot_of(catalogue, name) {
                self.add(slot)?;
            }
        }
        Ok(())
    }

    /// Reaches a target, if it is a module.
    fn add_target(&mut self, target: &Target) -> Result<(), AllocError>
        requires { is_within (length self.old.known.items) target.now ≡ true }
        ensures adds { OnOk result (Adds self.old.known.items self.old.left.items self.new.known.items self.new.left.items) }
        ensures here { OnOk result (is_target_in (known_at self.new.known.items) target.now ≡ true) }
    {
        match target {
            Target::Slot(slot) => self.add(*slot),
            Target::Missing(_) => Ok(()),
        }
    }

    /// Reaches these targets, the last of them first: what is left last is read first, so that modules are read in the
    /// order in which a hard walk enters them.
    fn add_targets(&mut self, targets: &[Target]) -> Result<(), AllocError>
        requires { list_all (is_within (length self.old.known.items)) targets.now ≡ true }
        ensures adds { OnOk result (Adds self.old.known.items self.old.left.items self.new.known.items self.new.left.items) }
        ensures all { OnOk result (list_all (is_target_in (known_at self.new.known.items)) targets.now ≡ true) }
    {
        let mut place = targets.len();
        'last: while place > 0 {
            place -= 1;
            self.add_target(&targets[place])?;
        }
        Ok(())
    }

    /// Reaches all that a module of the graph names.
    fn add_named(&mut self, graph: &DependencyGraph, slot: usize) -> Result<(), AllocError>
        requires slot { slot < length graph.now }
        requires long { length self.old.known.items ≡ length graph.now }
        ensures adds { OnOk result (Adds self.old.known.items self.old.left.items self.new.known.items self.new.left.items) }
        ensures all { OnOk result (names_in (known_at self.new.known.items) (node_at graph.now slot) ≡ true) }
    {
        self.add_targets(graph.targets(slot, Phase::Hard))?;
        self.add_targets(graph.targets(slot, Phase::Pre))?;
        self.add_targets(graph.targets(slot, Phase::Post))?;
        Ok(())
    }
}

/// The dependency graph as far as some modules reach, of which of these the names have no options, and which modules
/// they are. The others name nothing in the graph.
#[derive(Drop)]
pub(crate) struct Part<'a> {
    pub(crate) graph: DependencyGraph<'a>,
    pub(crate) bare: Vec<bool>,
    pub(crate) known: Vec<bool>,
}

/// What the modules reach that are left to be read.
fn read_part<'a>(
    alloc: Global,
    sources: &Sources<'a>,
    mut reach: Reach,
) -> Result<Part<'a>, AllocError>
    requires { Adds (replicate (length sources.now.catalogue.now) false) [] reach.known.items reach.left.items }
    ensures read { IfOk result (IsRead sources.now) }
    ensures known { IfOk result (λ part. (m : ℕ) → known_at reach.known.items m ≡ true → known_at part.known.items m ≡ true) }
{
    let count = sources.catalogue.len();
    let mut rows = BySlot::new(alloc, NOTHING, count)?;
    let mut targets = Vec::new(alloc);
    let mut has_soft = false;
    let mut bare = filled(alloc, false, count)?;
    'modules: while let Some(slot) = reach.left.pop() {
        let (row, is_bare) = add_node(sources, slot, &mut targets)?;
        reach.add_targets(&targets[row.hard_from..row.end])?;
        has_soft = has_soft || !are_missing(&targets[row.pre_from..row.end]);
        rows.set(slot, row)?;
        bare[slot] = is_bare;
    }
    let graph = DependencyGraph::new(rows, targets, has_soft);
    Ok(Part {
        graph,
        bare,
        known: reach.known,
    })
}

/// What a module reaches.
pub(crate) fn part_from<'a>(
    alloc: Global,
    sources: &Sources<'a>,
    start: usize,
) -> Result<Part<'a>, AllocError>
    requires { start < length sources.now.catalogue.now }
    ensures read { IfOk result (IsRead sources.now) }
    ensures known { IfOk result (λ part. known_at part.known.items start ≡ true) }
{
    let mut reach = Reach {
        known: filled(alloc, false, sources.catalogue.len())?,
        left: Vec::new(alloc),
    };
    reach.add(start)?;
    read_part(alloc, sources, reach)
}

/// What the modules of these names reach.
pub(crate) fn part_of_names<'a>(
    alloc: Global,
    sources: &Sources<'a>,
    names: &[Name],
) -> Result<Part<'a>, AllocError>
    ensures { IfOk result (IsRead sources.now) }
{
    let mut reach = Reach {
        known: filled(alloc, false, sources.catalogue.len())?,
        left: Vec::new(alloc),
    };
    reach.add_names(sources.catalogue, names)?;
    read_part(alloc, sources, reach)
}

/// The closed modules and all that one more reaches, if that is settled. Of closed modules all is settled, and they name
/// none but themselves.
fn closed_with(
    alloc: Global,
    graph: &DependencyGraph,
    settled: &[bool],
    closed: &[bool],
    start: usize,
) -> Result<Option<Vec<bool>>, AllocError>
    requires start { start < length graph.now }
    requires long { length settled.now ≡ length graph.now }
    requires closed { AreClosed graph.now settled.now closed.now }
    ensures closed { IfOk result (λ more. IfSome more (λ known. AreClosed graph.now settled.now known.items)) }
    ensures start { IfOk result (λ more. IfSome more (λ known. known_at known.items start ≡ true)) }
{
    let mut reach = Reach {
        known: Vec::from_slice(alloc, closed)?,
        left: Vec::new(alloc),
    };
    reach.add(start)?;
    'modules: while let Some(slot) = reach.left.pop() {
        if !settled[slot] {
            return Ok(None);
        }
        reach.add_named(graph, slot)?;
    }
    Ok(Some(reach.known))
}

/// Closes a module, if all that it reaches is settled, and says whether it is closed.
pub(crate) fn close(
    alloc: Global,
    graph: &DependencyGraph,
    settled: &[bool],
    closed: &mut Vec<bool>,
    start: usize,
) -> Result<bool, AllocError>
    requires start { start < length graph.now }
    requires long { length settled.now ≡ length graph.now }
    requires closed { AreClosed graph.now settled.now closed.old.items }
    ensures closed { AreClosed graph.now settled.now closed.new.items }
    ensures start { IfOk result (λ is. is ≡ true → known_at closed.new.items start ≡ true) }
{
    if closed[start] {
        return Ok(true);
    }
    match closed_with(alloc, graph, settled, closed, start)? {
        Some(more) => {
            *closed = more;
            Ok(true)
        }
        None => Ok(false),
    }
}

//! The steps that bring a table to the modules of a kernel, and their lines.
ghost use Rattle.std.specs.Prelude.{◌≡◌, ◌<◌, length, map, All, IfOk};
ghost use Rattle.table_adopt.specs.Steps.{slot_of, first_word, last_word, line_of, bytes_of};

use dep_index::Catalogue;
use std::alloc::{AllocError, Global};

/// Half of a load or of a removal of the module of a slot. Each line of an adoption makes one.
#[derive(Clone, Copy, Debug, PartialEq, Eq, Drop)]
pub enum Step {
    BeginLoad(usize),
    /// A load ends, well or not.
    EndLoad(usize, bool),
    BeginRemove(usize),
    EndRemove(usize),
}

impl Step {
    fn slot(self) -> usize
        ensures { result ≡ slot_of self }
    {
        match self {
            Step::BeginLoad(slot) => slot,
            Step::EndLoad(slot, _) => slot,
            Step::BeginRemove(slot) => slot,
            Step::EndRemove(slot) => slot,
        }
    }

    /// What stands before the name in the step's line, and after it.
    fn words(self) -> (&'static [u8], &'static [u8])
        ensures first { result.0.now ≡ first_word self }
        ensures last { result.1.now ≡ last_word self }
    {
        match self {
            Step::BeginLoad(_) => (b"begin_load ", b""),
            Step::EndLoad(_, true) => (b"end_load ", b" ok"),
            Step::EndLoad(_, false) => (b"end_load ", b" fail"),
            Step::BeginRemove(_) => (b"begin_remove ", b""),
            Step::EndRemove(_) => (b"end_remove ", b""),
        }
    }
}

/// The line of a step.
fn line_of(alloc: Global, catalogue: &Catalogue, step: Step) -> Result<Vec<u8>, AllocError>
    requires { slot_of step < length catalogue.now }
    ensures { IfOk result (λ line. line.items ≡ line_of catalogue.now step) }
{
    let (first, last) = step.words();
    let mut line = Vec::from_slice(alloc, first)?;
    line.extend_from_slice(catalogue.name(step.slot()))?;
    line.extend_from_slice(last)?;
    Ok(line)
}

/// The lines of steps, in their order.
pub(crate) fn lines_of(
    alloc: Global,
    catalogue: &Catalogue,
    steps: &[Step],
) -> Result<Vec<Vec<u8>>, AllocError>
    requires { All (λ step. slot_of step < length catalogue.now) steps.now }
    ensures { IfOk result (λ lines. bytes_of lines.items ≡ map (line_of catalogue.now) steps.now) }
{
    let mut lines = Vec::new(alloc);
    for step in steps {
        lines.push(line_of(alloc, catalogue, *step)?)?;
    }
    Ok(lines)
}

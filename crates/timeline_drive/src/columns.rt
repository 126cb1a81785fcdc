//! The columns in which steps are drawn.

use crate::bars::{Band, Tick};
use crate::captions::Call;
use std::alloc::{AllocError, Global};

/// Two neighbours among the steps that are named stand at most so many columns apart.
pub(crate) const WIDEST: u32 = 4;

/// The steps that a report names, in rising order, each with its tick in the whole picture.
#[derive(Drop)]
pub(crate) struct Columns {
    steps: Vec<u32>,
    ticks: Vec<Tick>,
}

/// The steps that calls name, in rising order.
fn named_steps(alloc: Global, calls: &[Call<'_>]) -> Result<Vec<u32>, AllocError> {
    let mut steps = Vec::new(alloc);
    for call in calls {
        let first = call.entry.first;
        let last = call.entry.last.unwrap_or(first);
        let point = match call.entry.effect {
            Some(effect) => effect.point,
            None => first,
        };
        steps.extend_from_slice(&[first, last, point])?;
    }
    steps.sort_unstable();
    steps.dedup();
    Ok(steps)
}

/// The ticks of steps in rising order.
fn ticks_of(alloc: Global, steps: &[u32]) -> Result<Vec<Tick>, AllocError> {
    let mut ticks = Vec::new(alloc);
    let mut earlier = steps.first().copied().unwrap_or(0);
    let mut column: u32 = 0;
    for step in steps {
        let apart = step.saturating_sub(earlier);
        column = column.saturating_add(apart.min(WIDEST));
        ticks.push(Tick {
            step: *step,
            column,
            is_cut: apart > WIDEST,
        })?;
        earlier = *step;
    }
    Ok(ticks)
}

fn column_of(tick: Option<&Tick>) -> u32 {
    match tick {
        Some(tick) => tick.column,
        None => 0,
    }
}

impl Columns {
    pub(crate) fn new(alloc: Global, calls: &[Call<'_>]) -> Result<Columns, AllocError> {
        let steps = named_steps(alloc, calls)?;
        let ticks = ticks_of(alloc, &steps)?;
        Ok(Columns { steps, ticks })
    }

    /// The column of a step that is named.
    pub(crate) fn of(&self, step: u32) -> u32 {
        let at = self.steps.binary_search(&step).unwrap_or(0);
        column_of(self.ticks.get(at))
    }

    /// The last column; 0 if no step is named.
    pub(crate) fn last(&self) -> u32 {
        column_of(self.ticks.last())
    }

    /// Adds to each band, of so many columns, the steps that are named there.
    pub(crate) fn push_ticks(
        &self,
        bands: &mut Vec<Band<'_>>,
        columns: u32,
    ) -> Result<(), AllocError> {
        let columns = columns.max(1);
        for tick in &self.ticks {
            if let Some(band) = bands.get_mut((tick.column / columns) as usize) {
                band.ticks.push(Tick {
                    column: tick.column % columns,
                    ..*tick
                })?;
            }
        }
        Ok(())
    }
}

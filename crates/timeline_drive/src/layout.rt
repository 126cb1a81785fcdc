//! Where everything stands in a picture.

use crate::bars::{Band, Bar, Label, ROWS, Rows, Scale, push_parts};
use crate::captions::Call;
use crate::columns::Columns;
use crate::labels::place_labels;
use std::alloc::{AllocError, Global};

/// A picture: its lanes, its columns, and its bands from the top to the bottom.
#[derive(Drop)]
pub(crate) struct Layout<'e> {
    /// The threads that make calls, in rising order: a lane each.
    pub(crate) threads: Vec<u8>,
    /// The last column; 0 if no step is named.
    pub(crate) last: u32,
    pub(crate) bands: Vec<Band<'e>>,
}

fn threads_of(alloc: Global, calls: &[Call<'_>]) -> Result<Vec<u8>, AllocError> {
    let mut threads = Vec::new(alloc);
    for call in calls {
        threads.push(call.entry.thread)?;
    }
    threads.sort_unstable();
    threads.dedup();
    Ok(threads)
}

/// Bands with so many lanes, in which nothing stands yet.
fn empty_bands<'e>(
    alloc: Global,
    count: u32,
    lanes: usize,
    free: Rows,
) -> Result<Vec<Band<'e>>, AllocError> {
    let mut bands = Vec::new(alloc);
    for _ in 0..count {
        let rows = vec![in alloc; free; lanes]?;
        bands.push(Band {
            ticks: Vec::new(alloc),
            bars: Vec::new(alloc),
            rows,
        })?;
    }
    Ok(bands)
}

/// The bar of a call in the whole picture. One that has not returned goes on to the last column.
fn whole_bar<'e>(columns: &Columns, lane: usize, call: &'e Call<'_>) -> Bar<'e> {
    let entry = &call.entry;
    let from = columns.of(entry.first);
    let to = match entry.last {
        Some(last) => columns.of(last),
        None => columns.last(),
    };
    Bar {
        entry,
        words: call.words.as_slice(),
        lane,
        from,
        to: to.max(from),
        has_first: true,
        has_end: true,
        point: entry.effect.map(|effect| columns.of(effect.point)),
        label: Label::Hidden,
    }
}

/// The bands of calls that these threads make.
fn bands_of<'e>(
    alloc: Global,
    scale: &Scale,
    threads: &[u8],
    columns: &Columns,
    calls: &'e [Call<'_>],
) -> Result<Vec<Band<'e>>, AllocError> {
    let count = (columns.last() / scale.columns.max(1)).saturating_add(1);
    let limit = scale.limit(columns.last().saturating_add(1));
    let free = Rows {
        limit,
        begins: [limit; ROWS],
        used: 0,
    };
    let mut bands = empty_bands(alloc, count, threads.len(), free)?;
    columns.push_ticks(&mut bands, scale.columns)?;
    for call in calls {
        let lane = threads.binary_search(&call.entry.thread).unwrap_or(0);
        push_parts(&mut bands, scale.columns, &whole_bar(columns, lane, call))?;
    }
    Ok(bands)
}

impl<'e> Layout<'e> {
    /// Where everything stands. The time is linear in the calls and the bars, but for sorting.
    pub(crate) fn new(
        alloc: Global,
        scale: &Scale,
        calls: &'e [Call<'_>],
    ) -> Result<Layout<'e>, AllocError> {
        let threads = threads_of(alloc, calls)?;
        let columns = Columns::new(alloc, calls)?;
        let mut bands = bands_of(alloc, scale, &threads, &columns, calls)?;
        place_labels(scale, &mut bands);
        Ok(Layout {
            threads,
            last: columns.last(),
            bands,
        })
    }
}

//! A picture as an SVG.

mod bands;
mod marks;
mod style;

use crate::bars::Scale;
use crate::captions::Call;
use crate::layout::Layout;
use crate::page::Page;
use bands::{band_height, push_band};
use std::alloc::{AllocError, Global};
use style::push_head;

/// Pixels. The letters are those of a font of 11 pixels, with a little room.
const SCALE: Scale = Scale {
    column: 26,
    letter: 7,
    gap: 8,
    overhang: 120,
    narrowest: NARROWEST - LEFT - INSET,
    columns: 42,
    has_text_in_bars: true,
};

/// Where the columns begin.
pub(crate) const LEFT: u32 = 52;

/// How far a label stands to the right of its place.
pub(crate) const INSET: u32 = 6;

/// What the legend needs.
const HEAD: u32 = 52;

const NARROWEST: u32 = 700;

/// Where the columns end.
pub(crate) fn right(layout: &Layout<'_>) -> u32 {
    let columns = layout.last.saturating_add(1).min(SCALE.columns);
    SCALE.width(columns).saturating_add(LEFT)
}

fn height(layout: &Layout<'_>) -> u32 {
    let mut height = HEAD;
    for band in &layout.bands {
        height = height.saturating_add(band_height(band));
    }
    height
}

/// The picture of a report's calls as an SVG: a lane for each thread, a bar for each call, a mark at its point. If
/// the columns do not fit side by side, they go on in further bands below.
pub(crate) fn svg_text(alloc: Global, calls: &[Call<'_>]) -> Result<String, AllocError> {
    let layout = Layout::new(alloc, &SCALE, calls)?;
    let width = right(&layout)
        .saturating_add(SCALE.overhang + INSET)
        .max(NARROWEST);
    let mut page = Page::new(alloc);
    push_head(&mut page, width, height(&layout));
    let mut top = HEAD;
    for band in &layout.bands {
        push_band(&mut page, &layout, band, top);
        top = top.saturating_add(band_height(band));
    }
    page.add("</svg>\n");
    page.finish()
}

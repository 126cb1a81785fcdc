//! The bands of an SVG.

use super::marks::{push_bar, push_hair, push_lead};
use super::{LEFT, SCALE, right};
use crate::bars::{Band, Tick};
use crate::captions::digits;
use crate::layout::Layout;
use crate::page::Page;

/// The height of an axis, of a bar, and of a row of labels above it.
const AXIS: u32 = 28;

pub(crate) const BAR: u32 = 34;

pub(crate) const ROW: u32 = 14;

/// What is left free above the labels of a lane.
const SPACE: u32 = 16;

/// What is left free under a band.
const UNDER: u32 = 30;

/// A thread is below this, so that there are at most so many lanes.
const LANES: usize = 64;

/// The height of a lane with so many rows of labels.
fn lane_height(rows: u32) -> u32 {
    rows.saturating_mul(ROW).saturating_add(BAR + SPACE)
}

pub(crate) fn band_height(band: &Band<'_>) -> u32 {
    let mut height = AXIS + UNDER;
    for rows in &band.rows {
        height = height.saturating_add(lane_height(rows.used));
    }
    height
}

/// The middle of a column.
pub(crate) fn middle(column: u32) -> u32 {
    SCALE.width(column).saturating_add(LEFT + SCALE.column / 2)
}

/// Adds the steps of an axis, each with its number if there is room for it.
fn push_ticks(page: &mut Page, ticks: &[Tick], y: u32) {
    let (upper, base) = (y.saturating_sub(4), y.saturating_sub(8));
    let mut free = 0;
    for tick in ticks {
        let x = middle(tick.column);
        page.fill("<path class=\"axis\" d=\"M$ $V$\"/>", &[x, upper, y]);
        if tick.is_cut && tick.column > 1 {
            page.fill(
                "<text class=\"soft\" text-anchor=\"middle\" x=\"$\" y=\"$\">…</text>",
                &[x.saturating_sub(SCALE.column * 2), base],
            );
        }
        let half = digits(tick.step).saturating_mul(SCALE.letter) / 2;
        if free <= x.saturating_sub(half) {
            page.fill(
                "<text class=\"soft\" text-anchor=\"middle\" x=\"$\" y=\"$\">$</text>",
                &[x, base, tick.step],
            );
            free = x.saturating_add(half).saturating_add(SCALE.gap);
        }
    }
}

/// Adds the axis of a band, whose line stands at this height.
fn push_axis(page: &mut Page, ticks: &[Tick], y: u32, right: u32) {
    page.fill(
        "<path class=\"axis\" d=\"M$ $H$\"/><text class=\"soft\" x=\"8\" y=\"$\">step</text>",
        &[LEFT, y, right, y.saturating_sub(8)],
    );
    push_ticks(page, ticks, y);
    page.add("\n");
}

/// Adds the names of the lanes of a band that begins at this height, and answers where the bars of each lane begin.
fn push_lanes(page: &mut Page, layout: &Layout<'_>, band: &Band<'_>, top: u32) -> [u32; LANES] {
    let right = right(layout);
    let mut tops = [top; LANES];
    let mut y = top.saturating_add(AXIS);
    for (lane, thread) in layout.threads.iter().enumerate() {
        if let (Some(rows), Some(own)) = (band.rows.get(lane), tops.get_mut(lane)) {
            y = y.saturating_add(lane_height(rows.used));
            *own = y.saturating_sub(BAR);
            let (line, base) = (own.saturating_add(BAR / 2), own.saturating_add(BAR / 2 + 4));
            page.fill(
                "<text class=\"lane\" x=\"8\" y=\"$\">t$</text><path class=\"rule\" d=\"M$ $H$\"/>\n",
                &[base, *thread as u32, LEFT, line, right],
            );
        }
    }
    tops
}

/// Adds a band, which begins at this height. The lines stand behind all bars.
pub(crate) fn push_band(page: &mut Page, layout: &Layout<'_>, band: &Band<'_>, top: u32) {
    let axis = top.saturating_add(AXIS - 6);
    push_axis(page, &band.ticks, axis, right(layout));
    let tops = push_lanes(page, layout, band, top);
    for bar in &band.bars {
        let top = tops.get(bar.lane).copied().unwrap_or(top);
        push_hair(page, bar, axis, top);
        push_lead(page, bar, top);
    }
    for bar in &band.bars {
        let top = tops.get(bar.lane).copied().unwrap_or(top);
        push_bar(page, bar, top);
    }
}

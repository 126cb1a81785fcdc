//! Bars: the parts of calls within a band.

use crate::entries::Entry;
use std::alloc::AllocError;

/// How large things are drawn: in pixels, or in letters of a terminal.
#[derive(Clone, Copy, Drop)]
pub(crate) struct Scale {
    /// The width of a column.
    pub(crate) column: u32,
    /// The width of a letter.
    pub(crate) letter: u32,
    /// What is left free between two labels, and in a bar beside its text.
    pub(crate) gap: u32,
    /// How far a label may stand over the last column.
    pub(crate) overhang: u32,
    /// How far labels may stand in any picture, however few columns it has.
    pub(crate) narrowest: u32,
    /// How many columns a band has.
    pub(crate) columns: u32,
    /// Whether a bar has room for text.
    pub(crate) has_text_in_bars: bool,
}

/// Where the text of a bar stands.
#[derive(Clone, Copy, Drop)]
pub(crate) enum Label {
    Hidden,
    /// In the bar, which has room for so many letters of it.
    Inside { letters: u32 },
    /// In a row above the bar, of which 0 is the lowest; `at` is its beginning, and it has room for so many letters.
    Above { row: u32, at: u32, letters: u32 },
}

/// A call in the whole picture, or the part of it that lies within a band. Columns are those of the picture or the band.
#[derive(Clone, Copy, Drop)]
pub(crate) struct Bar<'e> {
    pub(crate) entry: &'e Entry<'e>,
    /// The words of the call.
    pub(crate) words: &'e [u8],
    pub(crate) lane: usize,
    pub(crate) from: u32,
    pub(crate) to: u32,
    /// Whether the call's first step is here.
    pub(crate) has_first: bool,
    /// Whether it ends here, by its last step or with the picture.
    pub(crate) has_end: bool,
    /// The column of its point, if that is here.
    pub(crate) point: Option<u32>,
    pub(crate) label: Label,
}

/// A step that a report names, in the whole picture or in a band.
#[derive(Clone, Copy, Drop)]
pub(crate) struct Tick {
    pub(crate) step: u32,
    pub(crate) column: u32,
    /// Whether columns before it were left out.
    pub(crate) is_cut: bool,
}

/// A lane has at most so many rows of labels in a band.
pub(crate) const ROWS: usize = 6;

/// The rows of labels of a lane, which are filled from the right.
#[derive(Clone, Copy, Drop)]
pub(crate) struct Rows {
    /// Where the room for labels ends.
    pub(crate) limit: u32,
    /// Where what stands in each row begins.
    pub(crate) begins: [u32; ROWS],
    /// How many rows have labels.
    pub(crate) used: u32,
}

/// A band: some columns of all lanes.
#[derive(Drop)]
pub(crate) struct Band<'e> {
    pub(crate) ticks: Vec<Tick>,
    pub(crate) bars: Vec<Bar<'e>>,
    /// The rows of labels of each lane.
    pub(crate) rows: Vec<Rows>,
}

impl Scale {
    /// The width of so many columns.
    pub(crate) fn width(&self, columns: u32) -> u32 {
        columns.saturating_mul(self.column)
    }

    /// Where the room for labels ends in a picture of so many columns.
    pub(crate) fn limit(&self, columns: u32) -> u32 {
        self.width(columns.min(self.columns))
            .saturating_add(self.overhang)
            .max(self.narrowest)
    }

    /// The width of so many letters.
    pub(crate) fn text_width(&self, letters: u32) -> u32 {
        letters.saturating_mul(self.letter)
    }
}

/// The part of a bar that lies within a band whose columns begin and end with these.
fn part<'e>(whole: &Bar<'e>, begin: u32, end: u32) -> Bar<'e> {
    let point = match whole.point {
        Some(point) if begin <= point && point <= end => Some(point - begin),
        _ => None,
    };
    Bar {
        from: whole.from.saturating_sub(begin),
        to: whole.to.min(end).saturating_sub(begin),
        has_first: begin <= whole.from,
        has_end: whole.to <= end,
        point,
        ..*whole
    }
}

/// Adds the parts of a bar to the bands, of so many columns, in which it lies.
pub(crate) fn push_parts<'e>(
    bands: &mut Vec<Band<'e>>,
    columns: u32,
    whole: &Bar<'e>,
) -> Result<(), AllocError> {
    let columns = columns.max(1);
    for index in whole.from / columns..(whole.to / columns).saturating_add(1) {
        let begin = index.saturating_mul(columns);
        let end = begin.saturating_add(columns - 1);
        if let Some(band) = bands.get_mut(index as usize) {
            band.bars.push(part(whole, begin, end))?;
        }
    }
    Ok(())
}

//! Where the texts of bars stand.

use crate::bars::{Band, Bar, Label, Rows, Scale};
use crate::captions::{letters, reply_text};

/// How many letters there is room for in a bar.
fn room_in(scale: &Scale, bar: &Bar<'_>) -> u32 {
    if !scale.has_text_in_bars {
        return 0;
    }
    let columns = bar.to.saturating_sub(bar.from).saturating_add(1);
    let width = scale
        .width(columns)
        .saturating_sub(scale.gap.saturating_mul(2));
    width / scale.letter.max(1)
}

/// The label in the lowest row in which nothing stands from there on. One for which no row is wide enough is cut.
fn above(scale: &Scale, bar: &Bar<'_>, letters: u32, rows: &mut Rows) -> Option<Label> {
    let letters = letters.min(rows.limit / scale.letter.max(1));
    let width = scale.text_width(letters);
    let at = scale.width(bar.from).min(rows.limit.saturating_sub(width));
    let end = at.saturating_add(width);
    let mut row: u32 = 0;
    for begin in &mut rows.begins {
        if end <= *begin {
            *begin = at.saturating_sub(scale.gap);
            rows.used = rows.used.max(row.saturating_add(1));
            return Some(Label::Above { row, at, letters });
        }
        row = row.saturating_add(1);
    }
    None
}

/// The label of a bar: in it if there is room for all, else above it, else what there is room for.
fn place(scale: &Scale, bar: &Bar<'_>, rows: &mut Rows) -> Label {
    let words = letters(bar.words);
    let reply = letters(reply_text(bar.entry.effect).as_bytes());
    let room = room_in(scale, bar);
    if words.max(reply) <= room {
        return Label::Inside { letters: room };
    }
    if !bar.has_first {
        return Label::Hidden;
    }
    let both = words.saturating_add(reply).saturating_add(2);
    match above(scale, bar, both, rows) {
        Some(label) => label,
        None if room > 1 => Label::Inside { letters: room },
        None => Label::Hidden,
    }
}

/// Places the labels of a band, from the right to the left.
fn place_in(scale: &Scale, band: &mut Band<'_>) {
    for bar in band.bars.iter_mut().rev() {
        if let Some(rows) = band.rows.get_mut(bar.lane) {
            bar.label = place(scale, bar, rows);
        }
    }
}

/// Places the labels of bands.
pub(crate) fn place_labels(scale: &Scale, bands: &mut Vec<Band<'_>>) {
    for band in bands {
        place_in(scale, band);
    }
}

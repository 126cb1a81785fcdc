//! A picture in columns of a terminal.

use crate::bars::{Band, Bar, Label, Scale, Tick};
use crate::captions::{Call, caption_room, digits, is_refused, letters, reply_text};
use crate::layout::Layout;
use crate::page::Page;
use std::alloc::{AllocError, Global};
use std::str;

/// Letters. A line has 80.
const SCALE: Scale = Scale {
    column: 3,
    letter: 1,
    gap: 2,
    overhang: 0,
    narrowest: 75,
    columns: 25,
    has_text_in_bars: false,
};

/// Where the columns begin.
const LEFT: u32 = 5;

/// A line of letters.
const BLANK: [u8; 80] = [b' '; 80];

/// Writes a letter into a line, if the line goes so far.
fn put(line: &mut [u8], at: u32, letter: u8) {
    if let Some(cell) = line.get_mut(at as usize) {
        *cell = letter;
    }
}

/// Writes a text into a line from there on, as far as the line goes. What is no printed character of ASCII is a `?`.
fn write_at(line: &mut [u8], at: u32, text: &[u8]) {
    let mut place = at;
    for byte in text {
        let is_shown = byte.is_ascii_graphic() || *byte == b' ';
        put(line, place, if is_shown { *byte } else { b'?' });
        place = place.saturating_add(1);
    }
}

/// Writes a number into a line from there on.
fn write_number(line: &mut [u8], at: u32, number: u32) {
    let count = digits(number);
    let end = at.saturating_add(count);
    let mut left = number;
    for behind in 0..count {
        let place = end.saturating_sub(behind).saturating_sub(1);
        put(line, place, b'0' + (left % 10) as u8);
        left /= 10;
    }
}

/// Adds a line without the blanks at its end.
fn push_line(page: &mut Page, line: &[u8]) {
    page.add(str::from_utf8(line.trim_ascii_end()).unwrap_or(""));
    page.add("\n");
}

/// The middle of a column.
fn middle(column: u32) -> u32 {
    SCALE.width(column).saturating_add(LEFT + 1)
}

/// Adds the steps, each with its number if there is room for it.
fn push_axis(page: &mut Page, ticks: &[Tick]) {
    let mut line = BLANK;
    write_at(&mut line, 0, b"step");
    let mut free = LEFT;
    for tick in ticks {
        let at = middle(tick.column);
        if tick.is_cut && tick.column > 1 {
            write_at(&mut line, at.saturating_sub(6), b"..");
        }
        let end = at.saturating_add(digits(tick.step));
        if free <= at && end as usize <= line.len() {
            write_number(&mut line, at, tick.step);
            free = end.saturating_add(1);
        }
    }
    push_line(page, &line);
}

/// Writes a bar: `[===o===]`, `[---x---]` if the call was refused, `[...` before its point is known.
fn write_bar(line: &mut [u8], bar: &Bar<'_>) {
    let (stroke, mark) = match bar.entry.effect {
        Some(_) if is_refused(bar.entry) => (b'-', b'x'),
        Some(_) => (b'=', b'o'),
        None => (b'.', b'.'),
    };
    let (begin, end) = (middle(bar.from), middle(bar.to));
    for at in begin..end.saturating_add(1) {
        put(line, at, stroke);
    }
    if let Some(point) = bar.point {
        put(line, middle(point), mark);
    }
    if bar.has_first {
        put(line, begin.saturating_sub(1), b'[');
    }
    if bar.has_end {
        let close = if bar.entry.last.is_some() { b']' } else { b'~' };
        put(line, end.saturating_add(1), close);
    }
}

/// Writes a text, cut to so many letters of which the last two are dots, and answers where it ends.
fn write_cut(line: &mut [u8], at: u32, text: &[u8], room: u32) -> u32 {
    let count = letters(text);
    if count <= room {
        write_at(line, at, text);
        return at.saturating_add(count);
    }
    let kept = room.saturating_sub(2);
    let dots = at.saturating_add(kept);
    write_at(line, at, text.get(..kept as usize).unwrap_or(text));
    write_at(line, dots, b"..");
    dots.saturating_add(2)
}

/// Writes the text of a bar, if it stands in this row.
fn write_label(line: &mut [u8], bar: &Bar<'_>, row: u32) {
    let Label::Above {
        row: own,
        at,
        letters,
    } = bar.label
    else {
        return;
    };
    if own == row {
        let reply = reply_text(bar.entry.effect);
        let room = caption_room(letters, reply);
        let end = write_cut(line, at.saturating_add(LEFT), bar.words, room);
        write_at(line, end, b": ");
        write_at(line, end.saturating_add(2), reply.as_bytes());
    }
}

/// Adds a row of labels of a lane.
fn push_labels(page: &mut Page, band: &Band<'_>, lane: usize, row: u32) {
    let mut line = BLANK;
    for bar in &band.bars {
        if bar.lane == lane {
            write_label(&mut line, bar, row);
        }
    }
    push_line(page, &line);
}

/// Adds the bars of a lane.
fn push_bars(page: &mut Page, band: &Band<'_>, lane: usize, thread: u8) {
    let mut line = BLANK;
    put(&mut line, 0, b't');
    write_number(&mut line, 1, thread as u32);
    for bar in &band.bars {
        if bar.lane == lane {
            write_bar(&mut line, bar);
        }
    }
    push_line(page, &line);
}

/// Adds a lane: rows of labels, and then its bars.
fn push_lane(page: &mut Page, band: &Band<'_>, lane: usize, thread: u8) {
    let rows = match band.rows.get(lane) {
        Some(rows) => rows.used,
        None => 0,
    };
    for above in 0..rows {
        push_labels(page, band, lane, rows - above - 1);
    }
    push_bars(page, band, lane, thread);
}

fn push_band(page: &mut Page, threads: &[u8], band: &Band<'_>) {
    push_axis(page, &band.ticks);
    for (lane, thread) in threads.iter().enumerate() {
        push_lane(page, band, lane, *thread);
    }
    page.add("\n");
}

/// The picture of a report's calls in letters, in lines of at most 80: a line for the bars of each thread, and rows for
/// their texts above it. If the columns do not fit side by side, they go on below.
pub(crate) fn terminal_text(alloc: Global, calls: &[Call<'_>]) -> Result<String, AllocError> {
    let layout = Layout::new(alloc, &SCALE, calls)?;
    let mut page = Page::new(alloc);
    for band in &layout.bands {
        push_band(&mut page, &layout.threads, band);
    }
    page.add("o takes effect, x is refused, ~ has not returned\n");
    page.finish()
}

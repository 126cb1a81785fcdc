//! The bars of an SVG, with their texts and their points.

use super::bands::{BAR, ROW, middle};
use super::{INSET, LEFT, SCALE};
use crate::bars::{Bar, Label};
use crate::captions::{caption_room, is_refused, reply_text};
use crate::entries::Entry;
use crate::page::Page;

/// The beginning of a call's group, whose class is what its reply is.
fn group(entry: &Entry<'_>) -> &'static str {
    match entry.effect {
        Some(_) if is_refused(entry) => "<g class=\"refused\">",
        Some(_) => "<g class=\"done\">",
        None => "<g class=\"pending\">",
    }
}

/// Adds the hair line from the axis to a point.
pub(crate) fn push_hair(page: &mut Page, bar: &Bar<'_>, axis: u32, top: u32) {
    if let Some(point) = bar.point {
        page.fill(
            "<path class=\"hair\" d=\"M$ $V$\"/>\n",
            &[middle(point), axis, top.saturating_add(BAR)],
        );
    }
}

/// Adds what a pointer is shown.
fn push_title(page: &mut Page, entry: &Entry<'_>, words: &[u8]) {
    page.fill("<title>call $, t$: ", &[entry.number, entry.thread as u32]);
    page.escape(words);
    match entry.last {
        Some(last) => page.fill(", steps $ to $", &[entry.first, last]),
        None => page.fill(", from step $ on", &[entry.first]),
    }
    if let Some(effect) = entry.effect {
        page.fill(", point $, ", &[effect.point]);
        page.add(effect.reply.text());
    }
    page.add("</title>");
}

/// Adds the outline of a bar that goes on in another band: it has no edge where the bands break.
fn push_outline(page: &mut Page, bar: &Bar<'_>, begin: u32, end: u32, top: u32) {
    let bottom = top.saturating_add(BAR);
    if !bar.has_first && !bar.has_end {
        return page.fill(
            "<path class=\"edge\" d=\"M$ $H$M$ $H$\"/>",
            &[begin, top, end, begin, bottom, end],
        );
    }
    let (open, closed) = if bar.has_first {
        (end, begin)
    } else {
        (begin, end)
    };
    page.fill(
        "<path class=\"edge\" d=\"M$ $H$V$H$\"/>",
        &[open, top, closed, bottom, open],
    );
}

/// Adds the shape of a bar: with round corners, or with sharp ones if the call was refused or goes on in another band.
fn push_shape(page: &mut Page, bar: &Bar<'_>, top: u32) {
    let begin = SCALE
        .width(bar.from)
        .saturating_add(if bar.has_first { LEFT + 2 } else { LEFT - 6 });
    let end = SCALE
        .width(bar.to.saturating_add(1))
        .saturating_add(if bar.has_end { LEFT - 2 } else { LEFT + 6 });
    let is_open = bar.has_end && bar.entry.last.is_none();
    let is_cut = !(bar.has_first && bar.has_end);
    page.add(match (is_open, is_cut) {
        (true, _) => "<rect class=\"bar open\"",
        (false, true) => "<rect class=\"bar cut\"",
        (false, false) => "<rect class=\"bar\"",
    });
    let is_sharp = is_cut || is_refused(bar.entry);
    let corner = if is_sharp { 0 } else { 6 };
    page.fill(
        " x=\"$\" y=\"$\" width=\"$\" height=\"$\" rx=\"$\"/>",
        &[begin, top, end.saturating_sub(begin), BAR, corner],
    );
    if is_cut && !is_open {
        push_outline(page, bar, begin, end, top);
    }
}

/// Adds a text, cut to so many letters.
fn push_cut(page: &mut Page, text: &[u8], letters: u32) {
    let letters = letters as usize;
    if text.len() <= letters {
        return page.escape(text);
    }
    page.escape(&text[..letters.saturating_sub(1)]);
    page.add("…");
}

/// Adds the text of a bar in two lines.
fn push_inside(page: &mut Page, bar: &Bar<'_>, letters: u32, top: u32) {
    let x = SCALE.width(bar.from).saturating_add(LEFT + SCALE.gap);
    page.fill("<text x=\"$\" y=\"$\">", &[x, top.saturating_add(13)]);
    push_cut(page, bar.words, letters);
    page.fill(
        "</text><text class=\"reply\" x=\"$\" y=\"$\">",
        &[x, top.saturating_add(26)],
    );
    push_cut(page, reply_text(bar.entry.effect).as_bytes(), letters);
    page.add("</text>");
}

/// Where the text of a bar stands above it in a row.
fn base(top: u32, row: u32) -> u32 {
    top.saturating_sub(row.saturating_mul(ROW).saturating_add(5))
}

/// Adds the line that leads from a bar to its text above it. It is drawn before all texts, and passes behind them.
pub(crate) fn push_lead(page: &mut Page, bar: &Bar<'_>, top: u32) {
    if let Label::Above { row, .. } = bar.label {
        let x = SCALE.width(bar.from).saturating_add(LEFT + 3);
        page.fill(
            "<path class=\"lead\" d=\"M$ $V$\"/>\n",
            &[x, top, base(top, row).saturating_sub(8)],
        );
    }
}

/// Adds the text of a bar above it.
fn push_above(page: &mut Page, bar: &Bar<'_>, at: u32, letters: u32, base: u32) {
    let reply = reply_text(bar.entry.effect);
    page.fill(
        "<text class=\"label\" x=\"$\" y=\"$\">",
        &[at.saturating_add(LEFT + INSET), base],
    );
    push_cut(page, bar.words, caption_room(letters, reply));
    page.add(": <tspan class=\"reply\">");
    page.add(reply);
    page.add("</tspan></text>");
}

/// Adds the mark of a point: a disc, or a diamond if the call was refused.
fn push_mark(page: &mut Page, bar: &Bar<'_>, top: u32) {
    let Some(point) = bar.point else {
        return;
    };
    let (x, y) = (middle(point), top.saturating_add(BAR));
    if is_refused(bar.entry) {
        page.fill(
            "<path class=\"mark\" d=\"M$ $l6 6-6 6-6-6z\"/>",
            &[x, y.saturating_sub(6)],
        );
    } else {
        page.fill(
            "<circle class=\"mark\" cx=\"$\" cy=\"$\" r=\"4.5\"/>",
            &[x, y],
        );
    }
}

/// Adds a bar, whose top stands at this height.
pub(crate) fn push_bar(page: &mut Page, bar: &Bar<'_>, top: u32) {
    page.add(group(bar.entry));
    push_title(page, bar.entry, bar.words);
    push_shape(page, bar, top);
    match bar.label {
        Label::Hidden => {}
        Label::Inside { letters } => push_inside(page, bar, letters, top),
        Label::Above { row, at, letters } => push_above(page, bar, at, letters, base(top, row)),
    }
    push_mark(page, bar, top);
    page.add("</g>\n");
}

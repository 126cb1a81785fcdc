//! Look-ups, plans and removal plans, and texts that are refused: a row has texts, what is asked over them, and the lines
//! of the answer.

mod chains;
mod faults;
mod look_ups;
mod parameters;
mod plans;
mod prefixes;
mod removals;
mod soft_items;

use crate::texts::{Rest, behind, behind_name_lines, holds_or_short};
use alias_match::{Aliases, read_aliases};
use dep_index::{CatError, Catalogue, DepError, DepIndex, read_catalogue, read_dep};
use load_plan::{FindError, Item, PlanError, Sources, find, plan, removal_plan};
use modprobe_conf::read_conf;
use std::alloc::{AllocError, Global};
use std::process::Abort;
use text_parts::Name;

/// The texts of a catalogue, of modules.dep, modprobe.d and modules.alias.
type Texts<'a> = [&'a [u8]; 4];

const CATALOGUE: usize = 0;

const DEPENDENCIES: usize = 1;

const CONFIGURATION: usize = 2;

const ALIAS_TEXT: usize = 3;

/// The text that a section of a row is.
fn place_of(section: &str) -> Option<usize> {
    match section {
        "catalogue" => Some(CATALOGUE),
        "dep" => Some(DEPENDENCIES),
        "conf" => Some(CONFIGURATION),
        "alias" => Some(ALIAS_TEXT),
        _ => None,
    }
}

/// Whether the error is told so: its cause and the name.
fn is_refusal(error: &PlanError, wanted: &[u8]) -> Result<bool, AllocError> {
    let (cause, name) = match error {
        PlanError::Cycle(name) => (b"cycle ".as_slice(), name),
        PlanError::Install(name) => (b"install ".as_slice(), name),
        PlanError::Unknown(name) => (b"unknown ".as_slice(), name),
        PlanError::Remove(name) => (b"remove ".as_slice(), name),
        PlanError::Memory => return Err(AllocError),
    };
    let rest = behind(Some(wanted), &[cause, name.as_bytes(), b"\n"]);
    Ok(matches!(rest, Some([])))
}

/// What is left behind the line of an item: its module, whether only soft items ask for it, its words.
fn behind_item<'a>(rest: Rest<'a>, catalogue: &Catalogue, item: &Item) -> Rest<'a> {
    if item.slot >= catalogue.len() {
        return None;
    }
    let mark = if item.soft { b" soft" } else { b" hard" };
    let mut rest = behind(rest, &[catalogue.name(item.slot), mark]);
    for word in item.options.words() {
        rest = behind(rest, &[b" ", word]);
    }
    behind(rest, &[b"\n"])
}

/// Whether these are the lines of the items.
fn are_items(items: &[Item], catalogue: &Catalogue, wanted: &[u8]) -> bool {
    let mut rest = Some(wanted);
    for item in items {
        rest = behind_item(rest, catalogue, item);
    }
    matches!(rest, Some([]))
}

fn is_plan(
    made: Result<Vec<Item>, PlanError>,
    catalogue: &Catalogue,
    wanted: &[u8],
) -> Result<bool, AllocError> {
    match made {
        Ok(items) => Ok(are_items(&items, catalogue, wanted)),
        Err(error) => is_refusal(&error, wanted),
    }
}

/// What is left behind the line of a module.
fn behind_module<'a>(rest: Rest<'a>, catalogue: &Catalogue, slot: usize) -> Rest<'a> {
    if slot >= catalogue.len() {
        return None;
    }
    behind(rest, &[catalogue.name(slot), b"\n"])
}

/// Whether these are the lines of the modules.
fn are_modules(slots: &[usize], catalogue: &Catalogue, wanted: &[u8]) -> bool {
    let mut rest = Some(wanted);
    for slot in slots {
        rest = behind_module(rest, catalogue, *slot);
    }
    matches!(rest, Some([]))
}

fn is_order(
    made: Result<Vec<usize>, PlanError>,
    catalogue: &Catalogue,
    wanted: &[u8],
) -> Result<bool, AllocError> {
    match made {
        Ok(slots) => Ok(are_modules(&slots, catalogue, wanted)),
        Err(error) => is_refusal(&error, wanted),
    }
}

fn is_found(made: Result<Vec<Name>, FindError>, wanted: &[u8]) -> Result<bool, AllocError> {
    match made {
        Ok(names) => Ok(matches!(behind_name_lines(Some(wanted), &names), Some([]))),
        Err(FindError::NotFound) => Ok(wanted == b"not found\n".as_slice()),
        Err(FindError::Memory) => Err(AllocError),
    }
}

/// Whether this is the plan of a module, with a word of the command if there is one.
fn is_plan_of<'a>(
    alloc: Global,
    sources: &Sources<'a>,
    asked: &'a str,
    wanted: &[u8],
) -> Result<bool, AllocError> {
    let made = match asked.split_once(' ') {
        Some((name, word)) => plan(alloc, name.as_bytes(), &[word.as_bytes()], sources),
        None => plan(alloc, asked.as_bytes(), &[], sources),
    };
    is_plan(made, sources.catalogue, wanted)
}

fn is_answer<'a>(
    alloc: Global,
    sources: &Sources<'a>,
    aliases: &Aliases,
    asked: &'a str,
    wanted: &[u8],
) -> Result<bool, AllocError> {
    let (catalogue, configuration) = (sources.catalogue, sources.configuration);
    let (what, name) = asked.split_once(' ').unwrap_or((asked, ""));
    match what {
        "find" => {
            let made = find(alloc, name.as_bytes(), catalogue, configuration, aliases);
            is_found(made, wanted)
        }
        "plan" => is_plan_of(alloc, sources, name, wanted),
        "remove" => {
            let made = removal_plan(alloc, name.as_bytes(), sources);
            is_order(made, catalogue, wanted)
        }
        _ => Ok(false),
    }
}

/// The answer over texts of which two are still to be read.
fn is_answer_over<'a>(
    alloc: Global,
    catalogue: &'a Catalogue,
    dependencies: &'a DepIndex,
    texts: &Texts,
    asked: &'a str,
    wanted: &[u8],
) -> Result<bool, AllocError> {
    let configuration = read_conf(alloc, texts[CONFIGURATION])?;
    let sources = Sources {
        catalogue,
        dependencies,
        configuration: &configuration,
    };
    match read_aliases(alloc, texts[ALIAS_TEXT]) {
        Ok(aliases) => is_answer(alloc, &sources, &aliases, asked, wanted),
        Err(error) => Err(error),
    }
}

/// The answer over a catalogue, or why the text of modules.dep is refused.
fn is_answer_in(
    alloc: Global,
    catalogue: &Catalogue,
    texts: &Texts,
    asked: &str,
    wanted: &[u8],
) -> Result<bool, AllocError> {
    match read_dep(alloc, texts[DEPENDENCIES]) {
        Ok(dependencies) => is_answer_over(alloc, catalogue, &dependencies, texts, asked, wanted),
        Err(DepError::Memory) => Err(AllocError),
        Err(error) => Ok(format!(in alloc; "{error:?}\n")?.as_bytes() == wanted),
    }
}

/// Whether this is the answer over the texts, or why one of them is refused.
fn is_answered(
    alloc: Global,
    texts: &Texts,
    asked: &str,
    wanted: &[u8],
) -> Result<bool, AllocError> {
    match read_catalogue(alloc, texts[CATALOGUE]) {
        Ok(catalogue) => is_answer_in(alloc, &catalogue, texts, asked, wanted),
        Err(CatError::Memory) => Err(AllocError),
        Err(error) => Ok(format!(in alloc; "{error:?}\n")?.as_bytes() == wanted),
    }
}

/// The answer that holds at the length: what stands behind the last `@` with a number up to it.
fn answer_at(answers: &str, length: usize) -> &[u8] {
    let mut found = b"".as_slice();
    for part in answers.split('@') {
        if let Some((since, answer)) = part.split_once('\n') {
            match since.parse::<usize>() {
                Ok(since) if since <= length => found = answer.as_bytes(),
                _ => {}
            }
        }
    }
    found
}

/// The texts have their answer at each length of the one in this place, else what is asked and the length are told.
fn are_answered_at_each(
    rt: &impl Abort,
    alloc: Global,
    texts: &Texts,
    place: usize,
    asked: &str,
    answers: &str,
) {
    let text = texts.get(place).copied().unwrap_or(b"");
    for length in 0..=text.len() {
        let mut cut = *texts;
        if let Some(part) = cut.get_mut(place) {
            *part = &text[..length];
        }
        let fact = is_answered(alloc, &cut, asked, answer_at(answers, length));
        assert!(rt; fact == Ok(true), "at {length}: {asked}");
    }
}

/// Whether the texts have this answer, or each beginning of one of them has its own.
fn is_right(
    rt: &impl Abort,
    alloc: Global,
    texts: &Texts,
    asked: &str,
    wanted: &str,
) -> Result<bool, AllocError> {
    let Some(("each", asked)) = asked.split_once(' ') else {
        return is_answered(alloc, texts, asked, wanted.as_bytes());
    };
    match asked.split_once(' ') {
        Some((section, asked)) => {
            let place = place_of(section).unwrap_or(CATALOGUE);
            are_answered_at_each(rt, alloc, texts, place, asked, wanted);
            Ok(true)
        }
        None => Ok(false),
    }
}

/// Adds a text. A catalogue takes the others away.
fn add_text<'a>(texts: &mut Texts<'a>, place: usize, text: &'a str) {
    if place == CATALOGUE {
        *texts = [b"", b"", b"", b""];
    }
    if let Some(place) = texts.get_mut(place) {
        *place = text.as_bytes();
    }
}

/// A row is right, else its own words are told.
fn row_holds<'a>(
    rt: &impl Abort,
    alloc: Global,
    texts: &mut Texts<'a>,
    shows: &str,
    parts: &'a str,
) -> Result<(), AllocError> {
    for part in parts.split('%') {
        let (head, body) = part.split_once('\n').unwrap_or((part, ""));
        match place_of(head) {
            Some(place) => add_text(texts, place, body),
            None => holds_or_short(rt, shows, is_right(rt, alloc, texts, head, body))?,
        }
    }
    Ok(())
}

/// Each row is right, if there was memory for all. Behind `~` stands what a row shows, and behind each `%` a text, which
/// further rows have too, or what is asked and the lines of the answer.
fn rows_hold(rt: &impl Abort, alloc: Global, rows: &str) -> Result<(), AllocError> {
    let mut whole = Ok(());
    let mut texts: Texts = [b"", b"", b"", b""];
    for row in rows.split('~') {
        if let Some((shows, parts)) = row.split_once('%') {
            whole = whole.and(row_holds(rt, alloc, &mut texts, shows, parts));
        }
    }
    whole
}

static ROWS: [&str; 5] = [
    faults::ROWS,
    look_ups::ROWS,
    plans::ROWS,
    removals::ROWS,
    soft_items::ROWS,
];

#[test]
fn each_row(rt: HostRuntime) -> Result<(), AllocError> {
    let mut whole = Ok(());
    for rows in &ROWS {
        whole = whole.and(rows_hold(&rt, rt.alloc(), rows));
    }
    whole
}

#[test]
fn each_beginning(rt: HostRuntime) -> Result<(), AllocError> {
    rows_hold(&rt, rt.alloc(), prefixes::ROWS)
}

//! What modprobe(8) would load for a name, as the command plan tells it.
ghost use Rattle.std.specs.Prelude.{◌≡◌, ◌++◌, flat_map, IfOk, OnOk};
ghost use Rattle.text_parts.specs.Text.{texts_of};
ghost use Rattle.modprobe.specs.Plans.{mark_text, words_text, item_text, whole_plan, plan_outcome};

use crate::reply::{Reply, plan_refusal};
use crate::request::whole_plan;
use crate::setup::Setup;
use load_plan::Item;
use std::alloc::{AllocError, Global};
use text_parts::Name;

fn mark_text(soft: bool) -> &'static [u8]
    ensures { result.now ≡ mark_text soft }
{
    if soft { b"soft" } else { b"hard" }
}

/// Adds a space and the word, for each word.
fn push_words(text: &mut Vec<u8>, words: &[&[u8]]) -> Result<(), AllocError>
    ensures { OnOk result (text.new.items ≡ text.old.items ++ words_text (texts_of words.now)) }
{
    for word in words {
        text.extend_from_slice(b" ")?;
        text.extend_from_slice(word)?;
    }
    Ok(())
}

/// Adds the line of an item of a plan.
fn push_item(text: &mut Vec<u8>, setup: &Setup, item: &Item<'_>) -> Result<(), AllocError>
    ensures { OnOk result (text.new.items ≡ text.old.items ++ item_text setup.now item.now) }
{
    text.extend_from_slice(b"load ")?;
    text.extend_from_slice(setup.name(item.slot))?;
    text.extend_from_slice(b" ")?;
    text.extend_from_slice(mark_text(item.soft))?;
    push_words(text, item.options.words())?;
    text.extend_from_slice(b"\n")
}

/// The lines of the items of a plan.
fn items_text(alloc: Global, setup: &Setup, items: &[Item<'_>]) -> Result<Vec<u8>, AllocError>
    ensures { IfOk result (λ text. text.items ≡ flat_map (item_text setup.now) items.now) }
{
    let mut text = Vec::new(alloc);
    for item in items {
        push_item(&mut text, setup, item)?;
    }
    Ok(text)
}

/// The plan of a name: a line for each item, or why there is none.
pub(crate) fn plan_reply(alloc: Global, setup: &Setup, name: Name) -> Result<Reply, AllocError>
    ensures { IfOk result (λ reply. reply ≡ plan_outcome setup.now (whole_plan setup.now name)) }
{
    match whole_plan(alloc, setup, name) {
        Ok(items) => Ok(Reply::says(items_text(alloc, setup, &items)?)),
        Err(error) => plan_refusal(alloc, error),
    }
}

//! What ends a command line before a query is answered.
ghost use Rattle.std.specs.Prelude.{◌≡◌, option_map};
ghost use Rattle.modprobe_words.specs.Endings.{ending_of, first_ending, seen};
ghost use Rattle.modprobe_words.specs.Words.{item_of, items_of};

use crate::form::Form;
use crate::items::{Fault, Item};
use crate::numbers::is_number;
use crate::options::{Switch, Valued};
use kmod_version::Kmod;

/// What ends a command line before a query is answered.
#[derive(Clone, Copy)]
pub enum Ending<'a> {
    Version,
    Help,
    /// `--wait` has this in place of a number.
    BadWait(&'a [u8]),
    /// `--as` has this in place of a version that is known.
    BadKmod(&'a [u8]),
    /// `--explain` has this in place of a form that is known.
    BadForm(&'a [u8]),
    /// `--lint` has this in place of a form that is known.
    BadLint(&'a [u8]),
    Refused(Fault<'a>),
}

fn ending_of(item: Item<'_>) -> Option<Ending<'_>>
    ensures { option_map seen result ≡ ending_of (item_of item.entry) }
{
    match item {
        Item::Plain(Switch::Version) => Some(Ending::Version),
        Item::Plain(Switch::Help) => Some(Ending::Help),
        Item::WithValue(Valued::Wait, text) if !is_number(text) => Some(Ending::BadWait(text)),
        Item::WithValue(Valued::As, text) if Kmod::of(text).is_none() => {
            Some(Ending::BadKmod(text))
        }
        Item::WithValue(Valued::Explain, text) if Form::of(text).is_none() => {
            Some(Ending::BadForm(text))
        }
        Item::WithValue(Valued::Lint, text) if Form::of(text).is_none() => {
            Some(Ending::BadLint(text))
        }
        Item::Refused(fault) => Some(Ending::Refused(fault)),
        _ => None,
    }
}

/// The first item that ends a command line.
pub fn first_ending<'a>(items: &[Item<'a>]) -> Option<Ending<'a>>
    ensures { option_map seen result ≡ first_ending (items_of items.entry.now) }
{
    for item in items {
        if let Some(ending) = ending_of(*item) {
            return Some(ending);
        }
    }
    None
}

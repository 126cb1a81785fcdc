//! Shell patterns, and whether they match a text.
ghost use Rattle.std.specs.Prelude.{◌≡◌, ◌≢◌, ◌↔◌, ◌≤◌, ◌∷◌, ◌++◌, [], ℕ, List, length, map, IsTrue, MatchOption};
ghost use Rattle.alias_match.specs.Pattern.{Matches, byte};
ghost use Rattle.alias_match.specs.Front.{IsFrontOf};
ghost use Rattle.alias_match.specs.Marks.{IsMarkOf};
ghost use Rattle.alias_match.specs.ForProofs.{IsStep, IsLater, count_before, next_end};
ghost use Rattle.alias_match.specs.Reading.{Gives, Reads};

use crate::front::Front;
use crate::item::{Item, Items};
use crate::read::{PatternError, check_from_plain};
use crate::runs::longest_run_mark;
use std::alloc::Global;
use std::marker::Model;

/// A shell pattern. It is kept as its text, since items of their own would take sixteen times the memory.
#[derive(Debug, Drop)]
pub struct Pattern {
    text: Vec<u8>,
    /// How many bytes of the text stand for themselves, from the first on. A match compares them at once.
    plain: usize,
}

impl Model for Pattern {
    ghost use Rattle.std.specs.Prelude.{List};
    ghost use Rattle.alias_match.specs.Pattern.{Piece};
    ghost use Rattle.alias_match.specs.Reading.{BeginsPlainly, pieces_of};

    ghost Value = { List Piece };

    ghost view = { λ p. pieces_of p.text.items };

    ghost invariant = { λ p. BeginsPlainly p.text.items p.plain };
}

/// What follows the last run, and the end of the text at which it was tried last.
#[derive(Drop)]
struct Retry<'p, 't> {
    items: Items<'p>,
    text: &'t [u8],
}

/// How many bytes stand before the first that is this one.
#[inline(always)]
fn count_before(own: u8, text: &[u8]) -> usize
    ensures value { result ≡ count_before own text.now }
    ensures within { result ≤ length text.now }
{
    text.iter().take_while(|byte| own != **byte).count()
}

/// The end of the text at which the items are tried next: if they begin with a byte, the first that begins with it.
#[inline(always)]
fn next_end<'t>(items: &Items, text: &'t [u8]) -> &'t [u8]
    ensures end { result.now ≡ next_end items.now text.entry.now }
    ensures shorter { length result.now ≤ length text.entry.now }
{
    match items.again().split_first() {
        Some((Item::Byte(own), _)) => &text[count_before(own, text)..],
        _ => text,
    }
}

impl<'p, 't> Retry<'p, 't> {
    /// The same items, at the next end of the text after its first byte.
    #[inline(always)]
    fn later(self) -> Option<Retry<'p, 't>>
        ensures { MatchOption result (self.entry.text.now ≡ []) (IsLater self.entry) }
    {
        let (_, rest) = self.text.split_first()?;
        let text = next_end(&self.items, rest);
        Some(Retry {
            items: self.items,
            text,
        })
    }
}

/// What the first item and the first byte say.
#[derive(Drop)]
enum Step<'p, 't> {
    /// The item is a run, and these follow it.
    Run(Items<'p>),
    /// The item holds the byte, and these follow them.
    Taken(Items<'p>, &'t [u8]),
    /// Both are at their end.
    Over,
    /// The text ends before the items do.
    Short,
    /// The item does not hold the byte, or there is none.
    Stuck,
}

/// What the first item says at the end of the text.
fn step_at_end<'p, 't>(items: Items<'p>) -> Step<'p, 't>
    ensures { IsStep items.entry [] result }
{
    match items.split_first() {
        None => Step::Over,
        Some((Item::Run, after)) => Step::Run(after),
        Some(_) => Step::Short,
    }
}

/// What the first item says of a byte and those that follow it.
#[inline(always)]
fn step_at<'p, 't>(items: Items<'p>, byte: u8, later: &'t [u8]) -> Step<'p, 't>
    ensures { IsStep items.entry (byte ∷ later.entry.now) result }
{
    match items.split_first() {
        None => Step::Stuck,
        Some((Item::Run, after)) => Step::Run(after),
        Some((item, after)) if item.holds(byte) => Step::Taken(after, later),
        Some(_) => Step::Stuck,
    }
}

#[inline(always)]
fn next_step<'p, 't>(items: Items<'p>, text: &'t [u8]) -> Step<'p, 't>
    ensures { IsStep items.entry text.entry.now result }
{
    let Some((byte, later)) = text.split_first() else {
        return step_at_end(items);
    };
    step_at(items, *byte, later)
}

/// What follows the front in a text that begins with it.
#[inline(always)]
fn strip_front<'t>(text: &'t [u8], front: &[u8]) -> Option<&'t [u8]>
    ensures { MatchOption result
        ((rest : List ℕ) → text.entry.now ≢ front.now ++ rest)
        (λ rest. text.entry.now ≡ front.now ++ rest.now) }
{
    text.strip_prefix(front)
}

/// Whether the whole text is a joining of one text from each item, in order.
fn items_match(pattern: Items, text: &[u8]) -> bool
    ensures { IsTrue result ↔ Matches pattern.entry text.now }
{
    let mut items = pattern.again();
    let mut rest = text;
    let mut retry: Option<Retry> = None;
    'walk: loop {
        match next_step(items, rest) {
            Step::Run(after) => {
                rest = next_end(&after, rest);
                items = after.again();
                retry = Some(Retry {
                    items: after,
                    text: rest,
                });
            }
            Step::Taken(after, later) => {
                items = after;
                rest = later;
            }
            Step::Over => return true,
            Step::Short => return false,
            Step::Stuck => {
                let Some(last) = retry else {
                    return false;
                };
                let Some(next) = last.later() else {
                    return false;
                };
                items = next.items.again();
                rest = next.text;
                retry = Some(next);
            }
        }
    }
}

impl Pattern {
    /// The pattern that the text is (glob(7)), or its first fault from the left; `Memory` if memory runs out.
    pub fn read(alloc: Global, text: &[u8]) -> Result<Pattern, PatternError>
        ensures { Gives (λ pattern. pattern) result (Reads text.now) }
    {
        let plain = check_from_plain(text)?;
        let text = Vec::from_slice(alloc, text)?;
        Ok(Pattern { text, plain })
    }

    /// A mark that each text has that the pattern matches: that of its longest run of single bytes.
    pub(crate) fn mark(&self) -> u64
        ensures { IsMarkOf result self.now }
    {
        let (front, items) = self.parts();
        longest_run_mark(front, items)
    }

    /// How each text begins that the pattern matches.
    pub(crate) fn front(&self) -> Front
        ensures { IsFrontOf result self.now }
    {
        let (bytes, _) = self.parts();
        Front::of(bytes)
    }

    /// The bytes at the beginning that stand for themselves, and the items after them.
    #[inline(always)]
    fn parts(&self) -> (&[u8], Items)
        ensures { self.now ≡ map (λ b. byte b) result.0.now ++ result.1 }
    {
        let (front, behind) = self.text.split_at(self.plain);
        (front, Items::of(behind))
    }

    /// Whether the whole text, byte for byte as it stands, is a joining of one text from each item, in order.
    /// It takes no memory.
    pub fn matches(&self, text: &[u8]) -> bool
        ensures { IsTrue result ↔ Matches self.now text.now }
    {
        let (front, items) = self.parts();
        match strip_front(text, front) {
            Some(rest) => items_match(items, rest),
            None => false,
        }
    }
}

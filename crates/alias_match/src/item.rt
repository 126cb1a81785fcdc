//! What the items of a pattern are, read from its text.
ghost use Rattle.std.specs.Prelude.{◌≡◌, ◌∷◌, [], length, ◌≤◌, true, IfOk, MatchOption, MatchResult, Ok, Err};
ghost use Rattle.std.specs.List.{list_any};
ghost use Rattle.alias_match.specs.Pattern.{holds, in_range};
ghost use Rattle.alias_match.specs.Reading.{HasItem, IsPattern, IsSet, members_of, pieces_of};
ghost use Rattle.alias_match.specs.ForProofs.{piece};

use crate::read::{PatternError, after_end, after_members, next_item, next_member, split_sign};
use std::marker::Model;

/// The bytes from the first to the last, none if the first is greater.
#[derive(Clone, Copy, Debug, PartialEq, Eq, Drop)]
pub(crate) struct ByteRange {
    pub first: u8,
    pub last: u8,
}

impl ByteRange {
    fn contains(self, byte: u8) -> bool
        ensures { result ≡ in_range byte self }
    {
        self.first <= byte && byte <= self.last
    }
}

/// A set of bytes: those of its ranges, or all others. Its members stay in the text, which has them from its first byte
/// on.
#[derive(Drop)]
pub(crate) struct Set<'a> {
    negated: bool,
    members: &'a [u8],
}

impl<'a> Model for Set<'a> {
    ghost use Rattle.alias_match.specs.Pattern.{Piece, one_of};
    ghost use Rattle.alias_match.specs.Reading.{IsSet, members_of};

    ghost Value = { Piece };

    ghost view = { λ s. one_of s.negated (members_of s.members.now) };

    ghost invariant = { λ s. IsSet s.members.now };
}

/// Whether the members with which a text begins hold a byte.
#[inline(never)]
fn is_member(members: &[u8], byte: u8) -> bool
    requires { IsSet members.now }
    ensures { result ≡ list_any (in_range byte) (members_of members.now) }
{
    let mut rest = members;
    'members: while let Some((first, after)) = rest.split_first() {
        let Ok((range, after)) = next_member(*first, after) else {
            return false;
        };
        if range.contains(byte) {
            return true;
        }
        if after_end(after).is_some() {
            return false;
        }
        rest = after;
    }
    false
}

impl<'a> Set<'a> {
    /// The set that stands after its bracket, and what follows it.
    #[inline(never)]
    pub fn read(text: &'a [u8]) -> Result<(Set<'a>, &'a [u8]), PatternError>
        ensures value { MatchResult result
            (λ x. HasItem 91 text.entry.now (Ok (x.0, x.1.now)))
            (λ e. HasItem 91 text.entry.now (Err e)) }
        ensures shorter { IfOk result (λ x. length x.1.now ≤ length text.entry.now) }
    {
        let (negated, members) = split_sign(text);
        let rest = after_members(members)?;
        Ok((Set { negated, members }, rest))
    }

    #[inline(always)]
    pub fn contains(&self, byte: u8) -> bool
        ensures { result ≡ holds self.now byte }
    {
        if self.negated {
            !is_member(self.members, byte)
        } else {
            is_member(self.members, byte)
        }
    }
}

/// One item of a pattern.
#[derive(Drop)]
pub(crate) enum Item<'a> {
    Byte(u8),
    AnyByte,
    Run,
    OneOf(Set<'a>),
}

impl<'a> Item<'a> {
    /// Whether the text of this byte alone is one for which the item stands. A run is asked elsewhere.
    #[inline(always)]
    pub fn holds(&self, byte: u8) -> bool
        ensures { result ≡ holds (piece self.now) byte }
    {
        match self {
            Item::Byte(own) => *own == byte,
            Item::AnyByte => true,
            Item::Run => false,
            Item::OneOf(set) => set.contains(byte),
        }
    }
}

/// The items of a text that is a pattern.
#[derive(Drop)]
pub(crate) struct Items<'a> {
    text: &'a [u8],
}

impl<'a> Model for Items<'a> {
    ghost use Rattle.std.specs.Prelude.{List};
    ghost use Rattle.alias_match.specs.Pattern.{Piece};
    ghost use Rattle.alias_match.specs.Reading.{IsPattern, pieces_of};

    ghost Value = { List Piece };

    ghost view = { λ i. pieces_of i.text.now };

    ghost invariant = { λ i. IsPattern i.text.now };
}

impl<'a> Items<'a> {
    #[inline(always)]
    pub fn of(text: &'a [u8]) -> Items<'a>
        requires { IsPattern text.now }
        ensures { result ≡ pieces_of text.entry.now }
    {
        Items { text }
    }

    /// The same items once more.
    #[inline(always)]
    pub fn again(&self) -> Items<'a>
        ensures same { result ≡ self.now }
        ensures few { length self.now ≤ 18446744073709551615 }
    {
        Items { text: self.text }
    }

    /// How many bytes their text has.
    #[inline(always)]
    pub fn text_len(&self) -> usize
        ensures { length self.now ≤ result }
    {
        self.text.len()
    }

    /// The first item, and those that follow it.
    #[inline(always)]
    pub fn split_first(self) -> Option<(Item<'a>, Items<'a>)>
        ensures { MatchOption result (self.entry ≡ []) (λ x. self.entry ≡ piece x.0 ∷ x.1) }
    {
        let (first, rest) = self.text.split_first()?;
        match next_item(*first, rest) {
            Ok((item, after)) => Some((item, Items { text: after })),
            Err(_) => None,
        }
    }
}

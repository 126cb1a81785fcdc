//! The longest run of single bytes in a pattern.
ghost use Rattle.std.specs.Prelude.{◌≡◌, ◌<◌, ◌≤◌, ◌++◌, drop, length, map, IfSome};
ghost use Rattle.alias_match.specs.Pattern.{byte, literal_beginning};
ghost use Rattle.alias_match.specs.Marks.{IsMarkOf, mark};

use crate::hash_table::{MARK_BYTES, mark, with_digit};
use crate::item::{Item, Items};

/// The single bytes with which items begin.
#[derive(Drop)]
struct LeadingBytes<'a> {
    /// How many they are.
    count: usize,
    /// The mark of these, after a front.
    mark: u64,
    /// The items after them, from the first that is no single byte on.
    behind: Items<'a>,
}

/// The single bytes with which items begin that stand after a front.
fn leading_bytes<'a>(front: &[u8], items: Items<'a>) -> LeadingBytes<'a>
    ensures count { result.count ≡ length (literal_beginning items.entry) }
    ensures mark { result.mark ≡ mark (front.now ++ literal_beginning items.entry) }
    ensures behind { result.behind ≡ drop result.count items.entry }
{
    let mut count = 0usize;
    let mut mark = mark(front);
    let mut rest = items.again();
    'items: while let Some((Item::Byte(byte), after)) = rest.again().split_first() {
        count += 1;
        mark = with_digit(mark, byte);
        rest = after;
    }
    LeadingBytes {
        count,
        mark,
        behind: rest,
    }
}

/// The items after the first, if their text has more bytes than that. Else none of their runs has.
fn longer_behind_first<'a>(items: Items<'a>, longest: usize) -> Option<Items<'a>>
    ensures behind { IfSome result (λ after. after ≡ drop 1 items.entry) }
    ensures shorter { IfSome result (λ after. length after < length items.entry) }
{
    let (_, after) = items.split_first()?;
    if after.text_len() > longest {
        Some(after)
    } else {
        None
    }
}

/// The mark of the longest run of single bytes in a pattern: bytes that stand for themselves, and items after them. A run
/// after other items counts only if it fills a mark.
pub(crate) fn longest_run_mark(front: &[u8], items: Items) -> u64
    ensures { IsMarkOf result (map (λ b. byte b) front.now ++ items.entry) }
{
    let first = leading_bytes(front, items);
    let mut longest = front.len().saturating_add(first.count);
    let mut mark = first.mark;
    let mut rest = first.behind;
    'runs: while let Some(after) = longer_behind_first(rest, longest) {
        let run = leading_bytes(&[], after);
        if run.count >= MARK_BYTES && run.count > longest {
            longest = run.count;
            mark = run.mark;
        }
        rest = run.behind;
    }
    mark
}

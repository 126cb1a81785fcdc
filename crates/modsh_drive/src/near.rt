//! Names that may have been meant by a misspelt one.

use text_parts::is_same;

/// How many bytes the texts have alike at their fronts.
fn same_front(left: &[u8], right: &[u8]) -> usize {
    left.iter()
        .zip(right.iter())
        .take_while(|(own, other)| **own == **other)
        .count()
}

/// A text without so many bytes at its front.
fn after(text: &[u8], count: usize) -> &[u8] {
    text.get(count..).unwrap_or(b"")
}

/// Whether the first two bytes of one text are those of the other, swapped, and their other bytes are the same.
fn are_swapped(left: &[u8], right: &[u8]) -> bool {
    match (left, right) {
        ([a, b, left @ ..], [c, d, right @ ..]) => *a == *d && *b == *c && is_same(left, right),
        _ => false,
    }
}

/// Whether one text is the other but for one byte that is more, less or another, or two that are swapped. A text of one or
/// two bytes is near none.
pub(crate) fn is_near(left: &[u8], right: &[u8]) -> bool {
    if left.len() < 3 || right.len() < 3 {
        return false;
    }
    let front = same_front(left, right);
    let (left, right) = (after(left, front), after(right, front));
    let (left_rest, right_rest) = (after(left, 1), after(right, 1));
    is_same(left_rest, right_rest)
        || is_same(left_rest, right)
        || is_same(left, right_rest)
        || are_swapped(left, right)
}

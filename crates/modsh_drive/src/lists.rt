//! Several things in a row, as people read them.

use std::fmt;

/// How many of them are told.
const MOST_TOLD: usize = 4;

/// Things in a row, the last of them after a word: `a`, `a and b`, `a, b and c`. Of more than four the first four are
/// told, and how many more there are.
#[derive(Drop)]
pub(crate) struct Row<'a, T> {
    items: &'a [T],
    word: &'static str,
}

impl<'a, T: fmt::Display> Row<'a, T> {
    /// All of these.
    pub(crate) fn all(items: &'a [T]) -> Row<'a, T> {
        Row {
            items,
            word: " and ",
        }
    }

    /// One of these.
    pub(crate) fn one(items: &'a [T]) -> Row<'a, T> {
        Row {
            items,
            word: " or ",
        }
    }
}

impl<T: fmt::Display> fmt::Display for Row<'_, T> {
    fn fmt<W: fmt::Write>(&self, f: &mut fmt::Formatter<W>) -> fmt::Result {
        let (word, more) = (self.word, self.items.len().saturating_sub(MOST_TOLD));
        let mut left = self.items.len().min(MOST_TOLD);
        let mut before = "";
        for item in self.items.get(..left).unwrap_or(self.items) {
            write!(f, "{before}{item}")?;
            left = left.saturating_sub(1);
            before = if left == 1 && more == 0 { word } else { ", " };
        }
        if more > 0 {
            write!(f, "{word}{more} more")?;
        }
        Ok(())
    }
}

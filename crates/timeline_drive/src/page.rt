//! The text of a picture as it grows.

use crate::escapes::push_escaped;
use std::alloc::{AllocError, Global};

/// The text of a picture. Once memory has run out nothing is added, and `finish` says so.
#[derive(Drop)]
pub(crate) struct Page {
    text: String,
    outcome: Result<(), AllocError>,
}

/// Adds a template, each `$` of which stands for the next of these numbers.
fn push_filled(text: &mut String, template: &str, numbers: &[u32]) -> Result<(), AllocError> {
    let mut left = numbers.iter();
    for part in template.split('$') {
        text.push_str(part)?;
        if let Some(number) = left.next() {
            write!(text, "{number}")?;
        }
    }
    Ok(())
}

impl Page {
    pub(crate) fn new(alloc: Global) -> Page {
        Page {
            text: String::new(alloc),
            outcome: Ok(()),
        }
    }

    /// Adds a text as it is.
    pub(crate) fn add(&mut self, part: &str) {
        if self.outcome.is_ok() {
            self.outcome = self.text.push_str(part);
        }
    }

    /// Adds a template, each `$` of which stands for the next of these numbers.
    pub(crate) fn fill(&mut self, template: &str, numbers: &[u32]) {
        if self.outcome.is_ok() {
            self.outcome = push_filled(&mut self.text, template, numbers);
        }
    }

    /// Adds bytes as text of an SVG.
    pub(crate) fn escape(&mut self, bytes: &[u8]) {
        if self.outcome.is_ok() {
            self.outcome = push_escaped(&mut self.text, bytes);
        }
    }

    /// The whole text.
    pub(crate) fn finish(self) -> Result<String, AllocError> {
        let Page { text, outcome } = self;
        outcome?;
        Ok(text)
    }
}

//! Texts that are made for an explanation, and last as long as its facts.

use bumpalo::Bump;
use kmod_names::Text;
use std::alloc::{AllocError, Global};

/// A copy of a text.
pub(crate) fn kept<'a>(texts: &'a Bump, bytes: &[u8]) -> Result<&'a [u8], AllocError> {
    let text: &'a [u8] = texts.try_alloc_slice_copy(bytes)?;
    Ok(text)
}

/// Copies of texts.
fn kept_each<'a>(
    alloc: Global,
    texts: &'a Bump,
    names: &[Text],
) -> Result<Vec<&'a [u8]>, AllocError> {
    let mut all = Vec::new(alloc);
    for name in names {
        all.push(kept(texts, name.as_bytes())?)?;
    }
    Ok(all)
}

/// Copies of texts, in their order.
pub(crate) fn kept_names<'a>(
    alloc: Global,
    texts: &'a Bump,
    names: &[Text],
) -> Result<&'a [&'a [u8]], AllocError> {
    let all = kept_each(alloc, texts, names)?;
    let names: &'a [&'a [u8]] = texts.try_alloc_slice_copy(&all)?;
    Ok(names)
}

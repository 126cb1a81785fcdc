//! The modules that the kernel's command line keeps the kernel from loading.
ghost use Rattle.std.specs.Prelude.{◌≡◌, []};
ghost use Rattle.text_parts.specs.Text.{texts_of};
ghost use Rattle.answer_reasons.specs.KernelList.{is_other, kernel_list, list_after};

use std::alloc::{AllocError, Global};
use text_parts::is_same;

/// Whether the kernel ends a word at a byte, outside quotes.
fn is_space(byte: u8) -> bool {
    matches!(byte, b' ' | b'\t'..=b'\r')
}

/// The words of the kernel's command line, which blanks end that stand in no quotes: `next_arg` of the kernel's
/// lib/cmdline.c. A word may be empty. It fails only if memory runs out.
pub(crate) fn kernel_words<'l>(alloc: Global, line: &'l [u8]) -> Result<Vec<&'l [u8]>, AllocError> {
    let mut words = Vec::new(alloc);
    let mut start = 0usize;
    let mut is_quoted = false;
    for (at, byte) in line.iter().enumerate() {
        if is_space(*byte) && !is_quoted {
            words.push(line.get(start..at).unwrap_or(b""))?;
            start = at.saturating_add(1);
        } else {
            is_quoted = is_quoted != (*byte == b'"');
        }
    }
    words.push(line.get(start..).unwrap_or(b""))?;
    Ok(words)
}

/// A text without the quotes that it begins and ends with.
pub(crate) fn unquoted(text: &[u8]) -> &[u8] {
    match text.strip_prefix(b"\"") {
        Some(rest) => rest.strip_suffix(b"\"").unwrap_or(rest),
        None => text,
    }
}

/// The names that a word lists after `module_blacklist=`, in place of those of earlier words. In the name of a parameter the
/// kernel takes `-` for `_`.
fn list_after<'a>(list: &'a [u8], word: &'a [u8]) -> &'a [u8]
    ensures { result.now ≡ list_after list.entry.now word.entry.now }
{
    if let Some(names) = word.strip_prefix(b"module_blacklist=") {
        return names;
    }
    match word.strip_prefix(b"module-blacklist=") {
        Some(names) => names,
        None => list,
    }
}

/// The names, with commas between them, that the last `module_blacklist=` of the kernel's command line lists. Words after
/// `--` do not count.
pub(crate) fn kernel_list<'a>(words: &[&'a [u8]]) -> &'a [u8]
    ensures { result.now ≡ kernel_list [] (texts_of words.entry.now) }
{
    let mut list: &'a [u8] = b"";
    for word in words {
        if is_same(word, b"--") {
            return list;
        }
        list = list_after(list, word);
    }
    list
}

/// Whether a name of the list is not that of a module.
fn is_other(name: &[u8], item: &[u8]) -> bool
    ensures { result ≡ is_other name.now item.now }
{
    !is_same(name, item)
}

/// Whether the kernel may load a module by such a list.
pub(crate) fn is_allowed(list: &[u8], name: &[u8]) -> bool {
    list.split(|byte| *byte == b',')
        .all(|item| is_other(name, item))
}

//! What a line says of its module.
ghost use Rattle.std.specs.Prelude.{◌≡◌};
ghost use Rattle.text_parts.specs.Text.{texts_of};
ghost use Rattle.conf_lint.specs.Notes.{does_nothing, setting_said};

use text_parts::is_same;

/// What a line other than an alias says of its module.
#[derive(Clone, Copy, Debug, PartialEq, Eq, Drop)]
pub(crate) enum Setting {
    /// No alias of modules.alias leads to it.
    Blacklist,
    /// A command stands for its load or its removal.
    Command,
    /// The words that the module is loaded with.
    Options,
    /// The modules that are loaded before and after it.
    Softdep,
}

/// What a line says by its first word, and the words behind its name. A blacklist line alone needs none.
pub(crate) fn setting_said(word: &[u8], rest: &[&[u8]]) -> Option<Setting>
    ensures { result ≡ setting_said word.now (texts_of rest.now) }
{
    if is_same(word, b"blacklist") {
        return Some(Setting::Blacklist);
    }
    if rest.is_empty() {
        return None;
    }
    if is_same(word, b"install") || is_same(word, b"remove") {
        Some(Setting::Command)
    } else if is_same(word, b"options") {
        Some(Setting::Options)
    } else if is_same(word, b"softdep") {
        Some(Setting::Softdep)
    } else {
        None
    }
}

/// Whether the command of an install or remove line is `true` or `false`.
pub(crate) fn does_nothing(words: &[&[u8]]) -> bool
    ensures { result ≡ does_nothing (texts_of words.now) }
{
    let Some((word, _)) = words.split_first() else {
        return false;
    };
    is_same(word, b"true")
        || is_same(word, b"/bin/true")
        || is_same(word, b"/usr/bin/true")
        || is_same(word, b"false")
        || is_same(word, b"/bin/false")
        || is_same(word, b"/usr/bin/false")
}

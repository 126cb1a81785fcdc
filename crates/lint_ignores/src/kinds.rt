//! The kinds of notes, by their words in JSON (gz-lint(7)).
ghost use Rattle.std.specs.Prelude.{◌≡◌};
ghost use Rattle.lint_ignores.specs.Kinds.{is_kind, is_of_file, is_of_item, is_of_line, is_of_name, is_of_options};

use text_parts::is_same;

/// What may be noted of the name of a line.
fn is_of_name(kind: &[u8]) -> bool
    ensures { result ≡ is_of_name kind.now }
{
    is_same(kind, b"unknown")
        || is_same(kind, b"keeps_nothing")
        || is_same(kind, b"pattern")
        || is_same(kind, b"built_in")
        || is_same(kind, b"alias")
        || is_same(kind, b"unknown_module")
}

/// What may be noted of its items.
fn is_of_item(kind: &[u8]) -> bool
    ensures { result ≡ is_of_item kind.now }
{
    is_same(kind, b"no_item")
        || is_same(kind, b"unknown_item")
        || is_same(kind, b"itself")
        || is_same(kind, b"ring")
}

/// What may be noted of the line itself, and of other lines.
fn is_of_line(kind: &[u8]) -> bool
    ensures { result ≡ is_of_line kind.now }
{
    is_same(kind, b"bad_line")
        || is_same(kind, b"carriage_return")
        || is_same(kind, b"later")
        || is_same(kind, b"passed_over")
        || is_same(kind, b"repeated")
        || is_same(kind, b"unknown_kind")
}

/// What may be noted of options.
fn is_of_options(kind: &[u8]) -> bool
    ensures { result ≡ is_of_options kind.now }
{
    is_same(kind, b"stopped")
        || is_same(kind, b"unknown_parameter")
        || is_same(kind, b"set_later")
        || is_same(kind, b"other_text")
}

/// Why a file may not be read.
fn is_of_file(kind: &[u8]) -> bool
    ensures { result ≡ is_of_file kind.now }
{
    is_same(kind, b"hidden")
        || is_same(kind, b"dotted")
        || is_same(kind, b"ending")
        || is_same(kind, b"folder")
        || is_same(kind, b"dangling")
        || is_same(kind, b"outside")
}

/// Whether a word is a kind of notes, or `*`, which stands for any.
pub fn is_kind(word: &[u8]) -> bool
    ensures { result ≡ is_kind word.now }
{
    is_same(word, b"*")
        || is_of_name(word)
        || is_of_item(word)
        || is_of_line(word)
        || is_of_options(word)
        || is_of_file(word)
}

//! The words of options lines.
ghost use Rattle.std.specs.Prelude.{◌≡◌, ◌≤◌, [], ◌∷◌, ◌++◌, filter, length, map, option_copied, IfOk, OnOk};
ghost use Rattle.std.specs.List.{list_all, position_or_len};
ghost use Rattle.text_parts.specs.Text.{is_filled};
ghost use Rattle.machine_lint.specs.Options.{adds_device, agrees, ends_with_quote, has_dot, has_other_prefix, has_own_prefix, is_agreed, is_command, is_dot, is_equals, is_never_unknown, is_of_fcoe, is_of_ubi, is_quote, is_this, is_white};
ghost use Rattle.machine_lint.specs.Options.{last_setting, option_words, parameter_of, takes_more, unquoted, value_of, without_end, word_of, words_for, words_of};

use kmod_conf::{Conf, TextLine};
use kmod_names::{Place, Text};
use std::alloc::{AllocError, Global};
use text_parts::{Name, is_same};

/// A word of an options line: where the line stands, the parameter that it sets, and the value.
#[derive(Drop)]
pub(crate) struct OptionWord {
    pub(crate) place: Place,
    pub(crate) parameter: Text,
    pub(crate) value: Text,
}

/// Whether the byte is white space to the kernel.
fn is_white(byte: u8) -> bool
    ensures { result ≡ is_white byte }
{
    byte == b' ' || (byte >= 9 && byte <= 13) || byte == 160
}

fn is_quote(byte: u8) -> bool
    ensures { result ≡ is_quote byte }
{
    byte == b'"'
}

/// Adds a part of a text, if it is a word.
fn push_word(alloc: Global, words: &mut Vec<Text>, part: &[u8]) -> Result<(), AllocError>
    ensures { OnOk result (words.new.items ≡ words.old.items ++ filter is_filled (part.now ∷ [])) }
{
    if !part.is_empty() {
        words.push(Text::new(alloc, part)?)?;
    }
    Ok(())
}

/// The words of the text of an options line. White space within double quotes divides nothing. It fails only out of memory.
pub(crate) fn option_words(alloc: Global, text: &[u8]) -> Result<Vec<Text>, AllocError>
    ensures { IfOk result (λ words. words.items ≡ option_words text.now) }
{
    let mut words = Vec::new(alloc);
    let mut part = Vec::new(alloc);
    let mut is_quoted = false;
    for byte in text {
        if is_white(*byte) && !is_quoted {
            push_word(alloc, &mut words, &part)?;
            part.clear();
        } else {
            is_quoted = is_quoted != is_quote(*byte);
            part.push(*byte)?;
        }
    }
    push_word(alloc, &mut words, &part)?;
    Ok(words)
}

fn ends_with_quote(text: &[u8]) -> bool
    ensures { result ≡ ends_with_quote text.now }
{
    matches!(text.last(), Some(byte) if is_quote(*byte))
}

/// A text without the double quote at its end, if it has one there.
fn without_end(text: &[u8]) -> &[u8]
    ensures { result.now ≡ without_end text.entry.now }
{
    if ends_with_quote(text) {
        &text[..text.len() - 1]
    } else {
        text
    }
}

/// What stands within double quotes, if the text begins with one, or all of it.
fn unquoted(text: &[u8]) -> &[u8]
    ensures { result.now ≡ unquoted text.entry.now }
{
    match text.split_first() {
        Some((first, rest)) if is_quote(*first) => without_end(rest),
        _ => text,
    }
}

fn is_equals(byte: u8) -> bool
    ensures { result ≡ is_equals byte }
{
    byte == b'='
}

/// Where the first `=` stands, or the length.
fn name_len(word: &[u8]) -> usize
    ensures value { result ≡ position_or_len is_equals word.now }
    ensures within { result ≤ length word.now }
{
    word.iter().take_while(|byte| !is_equals(**byte)).count()
}

/// The value that a word sets.
pub(crate) fn value_of(word: &[u8]) -> &[u8]
    ensures { result.now ≡ value_of word.entry.now }
{
    let own = unquoted(word);
    match own[name_len(own)..].split_first() {
        Some((_, value)) => unquoted(value),
        None => b"",
    }
}

/// The parameter that a word sets. It fails only out of memory.
pub(crate) fn parameter_of(alloc: Global, word: &[u8]) -> Result<Text, AllocError>
    ensures { IfOk result (λ parameter. parameter ≡ parameter_of word.now) }
{
    let own = unquoted(word);
    let name = Name::new(alloc, &own[..name_len(own)])?;
    Ok(Text::of(name.into_bytes()))
}

fn is_dot(byte: u8) -> bool
    ensures { result ≡ is_dot byte }
{
    byte == b'.'
}

fn has_dot(parameter: &[u8]) -> bool
    ensures { result ≡ has_dot parameter.now }
{
    parameter.iter().any(|byte| is_dot(*byte))
}

/// Whether the module's name and a dot stand before the parameter.
fn has_own_prefix(name: &[u8], parameter: &[u8]) -> bool
    ensures { result ≡ has_own_prefix name.now parameter.now }
{
    match parameter.strip_prefix(name) {
        Some(rest) => rest.starts_with(b"."),
        None => false,
    }
}

/// Whether the parameter has a dot, but not behind the module's name.
fn has_other_prefix(name: &[u8], parameter: &[u8]) -> bool
    ensures { result ≡ has_other_prefix name.now parameter.now }
{
    has_dot(parameter) && !has_own_prefix(name, parameter)
}

/// Whether nothing is said if a module does not have the parameter.
pub(crate) fn is_never_unknown(name: &[u8], parameter: &[u8]) -> bool
    ensures { result ≡ is_never_unknown name.now parameter.now }
{
    is_same(parameter, b"dyndbg")
        || is_same(parameter, b"async_probe")
        || is_same(parameter, b"__")
        || has_other_prefix(name, parameter)
}

fn is_of_fcoe(parameter: &[u8]) -> bool
    ensures { result ≡ is_of_fcoe parameter.now }
{
    is_same(parameter, b"create")
        || is_same(parameter, b"create_vn2vn")
        || is_same(parameter, b"destroy")
        || is_same(parameter, b"enable")
        || is_same(parameter, b"disable")
}

fn is_of_ubi(parameter: &[u8]) -> bool
    ensures { result ≡ is_of_ubi parameter.now }
{
    is_same(parameter, b"mtd") || is_same(parameter, b"block")
}

/// Whether a parameter of a module is this one of this module.
fn is_this(of: &[u8], own: &[u8], name: &[u8], parameter: &[u8]) -> bool
    ensures { result ≡ is_this of.now own.now name.now parameter.now }
{
    is_same(name, of) && is_same(parameter, own)
}

/// Whether each setting of the module's parameter brings one device more.
fn adds_device(name: &[u8], parameter: &[u8]) -> bool
    ensures { result ≡ adds_device name.now parameter.now }
{
    is_this(b"virtio_mmio", b"device", name, parameter)
        || is_this(b"phram", b"phram", name, parameter)
        || is_this(b"block2mtd", b"block2mtd", name, parameter)
        || (is_same(name, b"ubi") && is_of_ubi(parameter))
}

/// Whether each setting of the module's parameter is a command, which is done at once.
fn is_command(name: &[u8], parameter: &[u8]) -> bool
    ensures { result ≡ is_command name.now parameter.now }
{
    is_this(b"md_mod", b"new_array", name, parameter)
        || is_this(b"ipmi_si", b"hotmod", name, parameter)
        || (is_same(name, b"libfcoe") && is_of_fcoe(parameter))
}

/// Whether each setting of the module's parameter does one thing more, and takes nothing from those before it.
pub(crate) fn takes_more(name: &[u8], parameter: &[u8]) -> bool
    ensures { result ≡ takes_more name.now parameter.now }
{
    is_same(parameter, b"dyndbg") || adds_device(name, parameter) || is_command(name, parameter)
}

impl OptionWord {
    /// Whether the word sets another parameter, or this one to this value.
    fn agrees(&self, parameter: &[u8], value: &[u8]) -> bool
        ensures { result ≡ agrees parameter.now value.now self.now }
    {
        !is_same(self.parameter.as_bytes(), parameter) || is_same(self.value.as_bytes(), value)
    }

    fn new(alloc: Global, line: &TextLine, word: &Text) -> Result<OptionWord, AllocError>
        ensures { IfOk result (λ own. own ≡ word_of line.now word.now) }
    {
        Ok(OptionWord {
            place: line.place,
            parameter: parameter_of(alloc, word.as_bytes())?,
            value: Text::new(alloc, value_of(word.as_bytes()))?,
        })
    }
}

/// Adds the words of a line, if it has this name.
fn add_words(
    alloc: Global,
    all: &mut Vec<OptionWord>,
    name: &[u8],
    line: &TextLine,
) -> Result<(), AllocError>
    ensures { OnOk result (all.new.items ≡ all.old.items ++ words_for name.now line.now) }
{
    if !is_same(line.name.as_bytes(), name) {
        return Ok(());
    }
    let words = option_words(alloc, line.text.as_bytes())?;
    for word in &words {
        all.push(OptionWord::new(alloc, line, word)?)?;
    }
    Ok(())
}

/// The words of all options lines of a name, in the order in which they are passed on. It fails only out of memory.
pub(crate) fn words_of(
    alloc: Global,
    name: &[u8],
    conf: &Conf,
) -> Result<Vec<OptionWord>, AllocError>
    ensures { IfOk result (λ all. all.items ≡ words_of name.now conf.now) }
{
    let mut all = Vec::new(alloc);
    let lines = conf.options();
    for line in lines {
        add_words(alloc, &mut all, name, line)?;
    }
    Ok(all)
}

/// The last of the words that sets a parameter.
pub(crate) fn last_setting<'a>(words: &'a [OptionWord], parameter: &[u8]) -> Option<&'a OptionWord>
    ensures { option_copied result ≡ last_setting words.entry.now parameter.now }
{
    words
        .iter()
        .rev()
        .find(|word| is_same(word.parameter.as_bytes(), parameter))
}

/// Whether all words that set a word's parameter set it to the same value. It fails only out of memory.
fn is_agreed(alloc: Global, words: &[OptionWord], word: &[u8]) -> Result<bool, AllocError>
    ensures { IfOk result (λ is. is ≡ is_agreed words.now word.now) }
{
    let parameter = parameter_of(alloc, word)?;
    let (name, value) = (parameter.as_bytes(), value_of(word));
    Ok(words.iter().all(|other| other.agrees(name, value)))
}

/// Whether that is so of each of some words. It fails only out of memory.
pub(crate) fn all_are_agreed(
    alloc: Global,
    all: &[OptionWord],
    words: &[Text],
) -> Result<bool, AllocError>
    ensures { IfOk result (λ are. are ≡ list_all (is_agreed all.now) words.now) }
{
    for word in words {
        if !is_agreed(alloc, all, word.as_bytes())? {
            return Ok(false);
        }
    }
    Ok(true)
}

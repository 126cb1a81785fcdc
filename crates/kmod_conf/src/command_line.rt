//! What the kernel's command line says.
ghost use Rattle.std.specs.Prelude.{◌≡◌, [], OnOk, ◌≤◌, ◌==◌, ◌+◌, length, take, IfOk, MatchOption, None, Some};
ghost use Rattle.std.specs.List.{position_or_len};
ghost use Rattle.kmod_conf.specs.CommandLine.{counted, cut_parameter, ends_name, is_parameter, unquoted, with_quote};
ghost use Rattle.kmod_conf.specs.CommandLine.{blacklist_from, conf_with_command_line, options_said, with_entries, word_said};
ghost use Rattle.kmod_conf.specs.Configuration.{with_entry};
ghost use Rattle.kmod_conf.specs.declared.entry.Entry.TheVariants.{Blacklist};
ghost use Rattle.kmod_names.specs.Names.{normal_alias};

use crate::bytes::{byte_at, is_space, line_text};
use crate::conf::Conf;
use crate::entry::{Entry, without_tabs};
use crate::line::{NameLine, TextLine};
use kmod_names::{Place, Text, normal_alias};
use std::alloc::{AllocError, Global};
use text_parts::is_same;

/// The first bytes, as many as given, or all.
fn front(text: &[u8], count: usize) -> &[u8]
    ensures { result.now ≡ take count text.entry.now }
{
    text.get(..count).unwrap_or(text)
}

/// The bytes that count: the first 4,095, up to a NUL.
fn counted(text: &[u8]) -> &[u8]
    ensures { result.now ≡ counted text.entry.now }
{
    line_text(front(text, 4095))
}

/// Whether the byte ends the name of a module or of a parameter.
fn ends_name(byte: u8) -> bool
    ensures { result ≡ ends_name byte }
{
    byte == b'"' || byte == b'.' || byte == b'=' || is_space(byte)
}

/// Where a name ends.
fn name_len(text: &[u8]) -> usize
    ensures value { result ≡ position_or_len ends_name text.now }
    ensures within { result ≤ length text.now }
{
    text.iter().take_while(|byte| !ends_name(**byte)).count()
}

/// A word without a quote at its beginning.
fn unquoted(word: &[u8]) -> &[u8]
    ensures { result.now ≡ unquoted word.entry.now }
{
    match word.split_first() {
        Some((b'"', rest)) => rest,
        _ => word,
    }
}

/// The module and its parameter.
fn cut_parameter(word: &[u8]) -> Option<(&[u8], &[u8])>
    ensures { MatchOption result
        (cut_parameter word.entry.now ≡ None)
        (λ parts. cut_parameter word.entry.now ≡ Some (parts.0.now, parts.1.now)) }
{
    let end = name_len(word);
    if end < word.len() && word[end] == b'.' {
        Some((&word[..end], &word[end + 1..]))
    } else {
        None
    }
}

/// Whether a parameter's name ends its text, or `=` stands after it.
fn is_parameter(parameter: &[u8]) -> bool
    ensures { result ≡ is_parameter parameter.now }
{
    let end = byte_at(parameter, name_len(parameter));
    end == 0 || end == b'='
}

/// The parameter with the quote of its word before its value.
fn with_quote(alloc: Global, is_quoted: bool, parameter: &[u8]) -> Result<Text, AllocError>
    ensures { IfOk result (λ text. text ≡ with_quote is_quoted parameter.now) }
{
    let end = name_len(parameter);
    if !is_quoted || end == parameter.len() || parameter[end] != b'=' {
        return Text::new(alloc, parameter);
    }
    let (name, value) = parameter.split_at(end + 1);
    let mut quoted = Vec::from_slice(alloc, name)?;
    quoted.push(b'"')?;
    quoted.extend_from_slice(value)?;
    Ok(Text::of(quoted))
}

impl Conf {
    fn add_blacklisted(
        &mut self,
        name: &[u8],
        alloc: Global,
        place: Place,
    ) -> Result<(), AllocError>
        ensures { OnOk result (self.new ≡ with_entry self.old (Blacklist (record { name = name.now; place = place }))) }
    {
        let name = Text::new(alloc, name)?;
        self.add_entry(alloc, Entry::Blacklist(NameLine { name, place }))
    }

    /// Adds the names between commas to the blacklist.
    fn add_blacklist(&mut self, alloc: Global, names: &[u8], place: Place) -> Result<(), AllocError>
        ensures { OnOk result (self.new ≡ with_entries self.old (blacklist_from place [] names.now)) }
    {
        let mut name = Vec::new(alloc);
        let mut rest = names;
        while let Some((byte, later)) = rest.split_first() {
            if *byte == b',' {
                self.add_blacklisted(&name, alloc, place)?;
                name.clear();
            } else {
                name.push(*byte)?;
            }
            rest = later;
        }
        self.add_blacklisted(&name, alloc, place)
    }

    fn add_options(
        &mut self,
        alloc: Global,
        name: &[u8],
        parameter: &[u8],
        place: Place,
    ) -> Result<(), AllocError>
        ensures { OnOk result (self.new ≡ with_entries self.old (options_said place (normal_alias name.now) parameter.now)) }
    {
        let Some(name) = normal_alias(alloc, name)? else {
            return Ok(());
        };
        let text = without_tabs(alloc, parameter)?;
        self.add_entry(alloc, Entry::Options(TextLine { name, text, place }))
    }

    /// Adds what a word of the command line says.
    fn add_word(&mut self, alloc: Global, word: &[u8], place: Place) -> Result<(), AllocError>
        ensures { OnOk result (self.new ≡ with_entries self.old (word_said place word.now)) }
    {
        let is_quoted = byte_at(word, 0) == b'"';
        let Some((name, parameter)) = cut_parameter(unquoted(word)) else {
            return Ok(());
        };
        if !is_parameter(parameter) {
            return Ok(());
        }
        let parameter = with_quote(alloc, is_quoted, parameter)?;
        if is_same(name, b"modprobe")
            && let Some(names) = parameter.as_bytes().strip_prefix(b"blacklist=")
        {
            return self.add_blacklist(alloc, names, place);
        }
        self.add_options(alloc, name, parameter.as_bytes(), place)
    }

    /// Adds what the kernel's command line says, the text of /proc/cmdline, after what is there; `source` is kept in
    /// the places. It fails only if memory runs out, and then some of it may be there.
    #[tactic(auto, unfolding(crate::specs::CommandLine::conf_with_command_line))]
    pub fn add_command_line(
        &mut self,
        alloc: Global,
        source: usize,
        text: &[u8],
    ) -> Result<(), AllocError>
        ensures { OnOk result (self.new ≡ conf_with_command_line self.old source text.now) }
    {
        let place = Place { source, line: 1 };
        let mut word = Vec::new(alloc);
        let mut is_quoted = false;
        let mut rest = counted(text);
        while let Some((byte, later)) = rest.split_first() {
            if is_space(*byte) && !is_quoted {
                self.add_word(alloc, &word, place)?;
                word.clear();
            } else {
                is_quoted = is_quoted != (*byte == b'"');
                word.push(*byte)?;
            }
            rest = later;
        }
        if is_quoted {
            return Ok(());
        }
        self.add_word(alloc, &word, place)
    }
}

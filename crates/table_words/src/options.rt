//! The options before a command.
ghost use Rattle.std.specs.Prelude.{◌≡◌, IfSome, ◌<◌};
ghost use Rattle.table_words.specs.Options.{any_option, begins, create_option, is_either, is_option, kmod_option, later_option, mode_of, mode_option, next_of, no_options, octal, options_of, refused, root_option, stopped, unknown_option, with_value};

use crate::fault::{Fault, Stop};
use crate::step::Step;
use text_parts::{is_same, number_within};

/// An option that has a value.
#[derive(Clone, Copy, Debug, PartialEq, Eq)]
pub enum Valued {
    /// `--wait SECONDS`
    Wait,
    /// `-S VERSION`
    Release,
    /// `--root DIR`
    Root,
    /// `--as VERSION`
    As,
    /// `--mode MODE`
    Mode,
}

/// What options say.
#[derive(Clone, Copy)]
pub(crate) struct Options<'a> {
    /// How many seconds another process is waited for.
    pub(crate) wait: u64,
    /// Whether a change is on the disk before its reply is written.
    pub(crate) sync: bool,
    pub(crate) host: bool,
    pub(crate) release: Option<&'a [u8]>,
    pub(crate) root: Option<&'a [u8]>,
    /// The version of kmod that is named.
    pub(crate) kmod: Option<&'a [u8]>,
    /// What the owner of a new folder may do, its group and others.
    pub(crate) mode: u32,
}

fn begins(word: &[u8], front: &[u8]) -> bool
    ensures { result ≡ begins word.now front.now }
{
    word.starts_with(front)
}

fn is_either(word: &[u8], one: &[u8], other: &[u8]) -> bool
    ensures { result ≡ is_either word.now one.now other.now }
{
    is_same(word, one) || is_same(word, other)
}

/// Whether the word is an option.
pub(crate) fn is_option(word: &[u8]) -> bool
    ensures { result ≡ is_option word.now }
{
    begins(word, b"-") && word.len() > 1
}

/// What comes of a word that is no option, and begins like one.
fn unknown<'a>(word: &'a [u8]) -> Step<'a>
    ensures { next_of result ≡ stopped (refused (unknown_option word.entry.now)) }
{
    Step::Stopped(Stop::Refused(Fault::UnknownOption(word)))
}

/// What an octal digit counts.
fn octal(digit: u8) -> Option<u32>
    ensures value { result ≡ octal digit }
    ensures small { IfSome result (λ count. count < 8) }
{
    match digit {
        b'0'..=b'7' => Some(u32::from(digit - b'0')),
        _ => None,
    }
}

/// The mode that three octal digits are.
fn mode_of(word: &[u8]) -> Option<u32>
    ensures { result ≡ mode_of word.now }
{
    let [owner, group, others] = word else {
        return None;
    };
    Some(octal(*owner)? * 64 + octal(*group)? * 8 + octal(*others)?)
}

impl<'a> Options<'a> {
    /// What no option says.
    pub(crate) fn new() -> Options<'a>
        ensures { options_of result ≡ no_options }
    {
        Options {
            wait: 10,
            sync: true,
            host: false,
            release: None,
            root: None,
            kmod: None,
            mode: 0o700,
        }
    }

    /// With the value of an option.
    pub(crate) fn with(self, valued: Valued, value: &'a [u8]) -> Step<'a>
        ensures { next_of result ≡ with_value (options_of self.entry) valued value.entry.now }
    {
        let options = match valued {
            Valued::Release => Options {
                release: Some(value),
                ..self
            },
            Valued::Root => Options {
                root: Some(value),
                ..self
            },
            Valued::As => Options {
                kmod: Some(value),
                ..self
            },
            Valued::Wait => match number_within(u32::MAX as u64, value) {
                Some(wait) => Options { wait, ..self },
                None => return Step::Stopped(Stop::Refused(Fault::BadWait(value))),
            },
            Valued::Mode => match mode_of(value) {
                Some(mode) => Options { mode, ..self },
                None => return Step::Stopped(Stop::Refused(Fault::BadMode(value))),
            },
        };
        Step::On(options, None)
    }

    /// With an option that `create` alone has.
    fn with_create_option(self, word: &'a [u8]) -> Step<'a>
        ensures { next_of result ≡ create_option (options_of self.entry) word.entry.now }
    {
        if is_same(word, b"--host") {
            Step::On(Options { host: true, ..self }, None)
        } else if is_either(word, b"-S", b"--set-version") {
            Step::On(self, Some(Valued::Release))
        } else {
            self.with_root_option(word)
        }
    }

    /// With the option that names a root, or a later one.
    fn with_root_option(self, word: &'a [u8]) -> Step<'a>
        ensures { next_of result ≡ root_option (options_of self.entry) word.entry.now }
    {
        if is_same(word, b"--root") {
            Step::On(self, Some(Valued::Root))
        } else if begins(word, b"--root=") {
            self.with(Valued::Root, &word[7..])
        } else {
            self.with_kmod_option(word)
        }
    }

    /// With the option that names a version of kmod, or a later one.
    fn with_kmod_option(self, word: &'a [u8]) -> Step<'a>
        ensures { next_of result ≡ kmod_option (options_of self.entry) word.entry.now }
    {
        if is_same(word, b"--as") {
            Step::On(self, Some(Valued::As))
        } else if begins(word, b"--as=") {
            self.with(Valued::As, &word[5..])
        } else {
            self.with_mode_option(word)
        }
    }

    /// With the option that says who may use the table.
    fn with_mode_option(self, word: &'a [u8]) -> Step<'a>
        ensures { next_of result ≡ mode_option (options_of self.entry) word.entry.now }
    {
        if is_same(word, b"--mode") {
            Step::On(self, Some(Valued::Mode))
        } else if begins(word, b"--mode=") {
            self.with(Valued::Mode, &word[7..])
        } else {
            unknown(word)
        }
    }

    /// With an option that has a value, or one that `create` alone has.
    fn with_later_option(self, creates: bool, word: &'a [u8]) -> Step<'a>
        ensures { next_of result ≡ later_option creates (options_of self.entry) word.entry.now }
    {
        if is_same(word, b"--wait") {
            Step::On(self, Some(Valued::Wait))
        } else if begins(word, b"--wait=") {
            self.with(Valued::Wait, &word[7..])
        } else if creates {
            self.with_create_option(word)
        } else {
            unknown(word)
        }
    }

    /// With an option before any command, or behind `create`.
    pub(crate) fn with_option(self, creates: bool, word: &'a [u8]) -> Step<'a>
        ensures { next_of result ≡ any_option creates (options_of self.entry) word.entry.now }
    {
        if is_either(word, b"-h", b"--help") {
            Step::Stopped(Stop::Help)
        } else if is_either(word, b"-V", b"--version") {
            Step::Stopped(Stop::Version)
        } else if is_same(word, b"--no-sync") {
            Step::On(
                Options {
                    sync: false,
                    ..self
                },
                None,
            )
        } else {
            self.with_later_option(creates, word)
        }
    }
}

//! Configurations: what their lines say of a name, lines that are joined, lines without effect.

use crate::texts::{CONFIGURATION, Rest, behind, behind_names, holds, holds_at, holds_or_short};
use modprobe_conf::{Conf, Softdep, Word, read_conf};
use std::alloc::{AllocError, Global};

/// What is left behind the options, which are told if there are any.
fn behind_options<'a>(rest: Rest<'a>, options: &[Word]) -> Rest<'a> {
    if options.is_empty() {
        return rest;
    }
    let mut rest = behind(rest, &[b"options"]);
    for word in options {
        rest = behind(rest, &[b" ", word.as_bytes()]);
    }
    behind(rest, &[b"\n"])
}

fn behind_softdep<'a>(rest: Rest<'a>, softdep: Option<&Softdep>) -> Rest<'a> {
    let Some(softdep) = softdep else {
        return rest;
    };
    let rest = behind_names(behind(rest, &[b"softdep pre:"]), softdep.pre());
    let rest = behind_names(behind(rest, &[b" post:"]), softdep.post());
    behind(rest, &[b"\n"])
}

/// A line of this word, if it is said.
fn line_if(is_said: bool, line: &'static [u8]) -> &'static [u8] {
    if is_said { line } else { b"" }
}

/// Whether this is all that the configuration says of a name, as its lines would say it without the name.
fn says(conf: &Conf, name: &[u8], wanted: &[u8]) -> bool {
    let rest = behind_options(Some(wanted), conf.options(name));
    let rest = behind_softdep(rest, conf.softdep(name));
    let install = line_if(conf.install_line(name), b"install\n");
    let remove = line_if(conf.remove_line(name), b"remove\n");
    let blacklist = line_if(conf.blacklisted(name), b"blacklist\n");
    matches!(behind(rest, &[install, remove, blacklist]), Some([]))
}

const ITEMS: &[u8] = b"softdep c pre: a b post: d e\noptions c debug=1\n";

const JOINED: &[u8] =
    b"options y debug=1 \\\n level=3\ninstall x /bin/true\nsoftdep z pre: y\ninstall z /bin/true\nblacklist w \\";

const BACKSLASHES: &[u8] =
    b"# note \\\nblacklist a\nblacklist b\\\\\n\nfrob \\\nx\nblacklist c\\\n-d\n\\";

const WITHOUT_EFFECT: &[u8] =
    b"alias a-* snd-pcm more\nalias [ x\nalias y\nblacklist\ninstall x\nremove x /bin/true\noptions x\nsoftdep x\n\n #\nfrob x y\n";

const SEVERAL: &[u8] =
    b"softdep a-b x post: c-c\nsoftdep a_b pre: d\noptions a_b p=1 q\noptions z r\noptions a-b s-t=2\nsoftdep e f g\nblacklist a_b more\n";

const OTHER_BYTES: &[u8] =
    b"options a p=\x0b\xff\0 q\x0c\r\nblacklist\x0bb\n\rblacklist c\nblacklist d\r\nblacklist e\rf\nblacklist \x80\nblacklist g\r";

const CARRIAGE_RETURNS: &[u8] = b"options a p \\\r\nq\\\r\r\noptions b r \\ s\n";

/// What a row shows, a text, a name, and what the text says of it.
static SAID: [(&str, &[u8], &[u8], &[u8]); 28] = [
    (
        "a softdep line and an options line of one name",
        ITEMS,
        b"c",
        b"options debug=1\nsoftdep pre: a b post: d e\n",
    ),
    (
        "an item of a softdep line has no line of its own",
        ITEMS,
        b"a",
        b"",
    ),
    (
        "a joined options line",
        JOINED,
        b"y",
        b"options debug=1 level=3\n",
    ),
    (
        "an install line behind a joined line",
        JOINED,
        b"x",
        b"install\n",
    ),
    (
        "a softdep line does not take the install line away",
        JOINED,
        b"z",
        b"softdep pre: y post:\ninstall\n",
    ),
    (
        "a joined line at the end of the text",
        JOINED,
        b"w",
        b"blacklist\n",
    ),
    ("a comment swallows the next line", BACKSLASHES, b"a", b""),
    (
        "of two backslashes at a line's end one is taken away",
        BACKSLASHES,
        b"b\\",
        b"blacklist\n",
    ),
    (
        "nothing is put between joined lines",
        BACKSLASHES,
        b"c_d",
        b"blacklist\n",
    ),
    (
        "an install line needs a command, a remove line has one",
        WITHOUT_EFFECT,
        b"x",
        b"remove\n",
    ),
    (
        "several lines of a name: all options, the first softdep line, further words of a blacklist line",
        SEVERAL,
        b"a_b",
        b"options p=1 q s-t=2\nsoftdep pre: post: c_c\nblacklist\n",
    ),
    (
        "an options line between those of another name",
        SEVERAL,
        b"z",
        b"options r\n",
    ),
    (
        "a softdep line without marks",
        SEVERAL,
        b"e",
        b"softdep pre: post:\n",
    ),
    ("a name is compared as it stands", SEVERAL, b"a-b", b""),
    (
        "bytes that are no blanks stay in a word",
        OTHER_BYTES,
        b"a",
        b"options p=\x0b\xff\0 q\x0c\n",
    ),
    ("a vertical tab is no blank", OTHER_BYTES, b"b", b""),
    ("a carriage return begins no line", OTHER_BYTES, b"c", b""),
    (
        "a carriage return at the end of a line goes",
        OTHER_BYTES,
        b"d",
        b"blacklist\n",
    ),
    (
        "a carriage return within a word stays",
        OTHER_BYTES,
        b"e\rf",
        b"blacklist\n",
    ),
    (
        "a name of a byte above 127",
        OTHER_BYTES,
        b"\x80",
        b"blacklist\n",
    ),
    (
        "a carriage return at the end of the text stays",
        OTHER_BYTES,
        b"g\r",
        b"blacklist\n",
    ),
    (
        "the name without that carriage return has no line",
        OTHER_BYTES,
        b"g",
        b"",
    ),
    (
        "of two carriage returns behind a backslash one stays with it",
        CARRIAGE_RETURNS,
        b"a",
        b"options p q\\\r\n",
    ),
    (
        "a backslash within a line is a word",
        CARRIAGE_RETURNS,
        b"b",
        b"options r \\ s\n",
    ),
    (
        "options beside lines of all kinds",
        CONFIGURATION,
        b"y",
        b"options debug=1 level=3\n",
    ),
    (
        "a softdep line beside lines of all kinds",
        CONFIGURATION,
        b"z",
        b"softdep pre: y post:\ninstall\n",
    ),
    (
        "an install line beside lines of all kinds",
        CONFIGURATION,
        b"x",
        b"install\n",
    ),
    (
        "a blacklist line beside lines of all kinds",
        CONFIGURATION,
        b"w",
        b"blacklist\n",
    ),
];

/// Whether the text says this of the name.
fn is_said(alloc: Global, text: &[u8], name: &[u8], wanted: &[u8]) -> Result<bool, AllocError> {
    Ok(says(&read_conf(alloc, text)?, name, wanted))
}

#[test]
fn says_of_names(rt: HostRuntime) -> Result<(), AllocError> {
    let mut whole = Ok(());
    for (shows, text, name, wanted) in &SAID {
        let fact = is_said(rt.alloc(), text, name, wanted);
        whole = whole.and(holds_or_short(&rt, shows, fact));
    }
    whole
}

/// What a row shows, a text, and the numbers of its lines without effect.
static SKIPPED: [(&str, &[u8], &[usize]); 8] = [
    ("lines with items", ITEMS, &[]),
    ("joined lines", JOINED, &[]),
    (
        "a joined line has the number of its first",
        BACKSLASHES,
        &[5],
    ),
    (
        "lines of all kinds without effect",
        WITHOUT_EFFECT,
        &[2, 3, 4, 5, 7, 8, 10, 11],
    ),
    ("a second softdep line is not counted", SEVERAL, &[]),
    (
        "lines that begin with no word of ours",
        OTHER_BYTES,
        &[2, 3],
    ),
    ("carriage returns", CARRIAGE_RETURNS, &[]),
    ("lines of all kinds", CONFIGURATION, &[]),
];

fn skips(read: Result<Conf, AllocError>, lines: &[usize]) -> bool {
    match read {
        Ok(conf) => conf.skipped() == lines,
        Err(_) => false,
    }
}

#[test]
fn lines_without_effect(rt: HostRuntime) {
    for (shows, text, wanted) in &SKIPPED {
        holds(&rt, shows, skips(read_conf(rt.alloc(), text), wanted));
    }
}

/// There is one alias, and it leads from `a_b` to `snd_pcm`.
fn has_one_alias(alloc: Global, text: &[u8]) -> Result<bool, AllocError> {
    let conf = read_conf(alloc, text)?;
    Ok(
        conf.alias_len() == 1
            && conf.alias_pattern(0).matches(b"a_b")
            && conf.alias_target(0).as_bytes() == b"snd_pcm".as_slice(),
    )
}

#[test]
fn aliases(rt: HostRuntime) -> Result<(), AllocError> {
    assert!(rt; has_one_alias(rt.alloc(), WITHOUT_EFFECT)?);
    assert!(rt; has_one_alias(rt.alloc(), CONFIGURATION)?);
    Ok(())
}

/// `x` has its install line, and `w` is blacklisted, from the length on that they stand at; at most one line has no effect.
fn is_of_prefix(read: Result<Conf, AllocError>, length: usize) -> bool {
    let Ok(conf) = read else {
        return false;
    };
    conf.install_line(b"x") == (39 < length)
        && conf.blacklisted(b"w") == (96 < length)
        && conf.skipped().len() < 2
}

#[test]
fn each_prefix(rt: HostRuntime) {
    for end in 0..=JOINED.len() {
        let read = read_conf(rt.alloc(), &JOINED[..end]);
        holds_at(&rt, end, is_of_prefix(read, end));
    }
}

/// How many lines are joined into one.
const PIECES: usize = 5000;

fn many_pieces(alloc: Global) -> Result<Vec<u8>, AllocError> {
    let mut text = Vec::from_slice(alloc, b"options a")?;
    for _ in 0..PIECES {
        text.extend_from_slice(b" \\\n\tlevel=12345")?;
    }
    text.extend_from_slice(b"\nfrob x y\nblacklist b\n")?;
    Ok(text)
}

fn are_all(words: &[Word], wanted: &[u8]) -> bool {
    for word in words {
        if word.as_bytes() != wanted {
            return false;
        }
    }
    true
}

/// All pieces are words of one options line, and the lines behind it keep their numbers.
fn has_all_pieces(read: Result<Conf, AllocError>) -> bool {
    let Ok(conf) = read else {
        return false;
    };
    let options = conf.options(b"a");
    options.len() == PIECES
        && are_all(options, b"level=12345")
        && conf.blacklisted(b"b")
        && conf.skipped() == [PIECES + 2].as_slice()
}

#[test]
fn a_line_of_many_pieces(rt: HostRuntime) -> Result<(), AllocError> {
    let text = many_pieces(rt.alloc())?;
    assert!(rt; has_all_pieces(read_conf(rt.alloc(), &text)));
    Ok(())
}

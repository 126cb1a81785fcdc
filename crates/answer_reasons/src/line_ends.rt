//! Lines that end as those of another system do.
ghost use Rattle.std.specs.Prelude.{◌≡◌};
ghost use Rattle.answer_reasons.specs.LineEnds.{ends_with_cr};

use modprobe_words::behind_spaces;
use text_parts::is_same;

/// Whether a line has a carriage return at its end.
fn ends_with_cr(line: &[u8]) -> bool
    ensures { result ≡ ends_with_cr line.now }
{
    line.ends_with(b"\r")
}

/// Words with which lines begin whose end may have a carriage return: kmod divides the items of the first two at any white
/// space, and the kernel the options of the last.
const DIVIDED: [&[u8]; 3] = [b"softdep", b"weakdep", b"options"];

/// Whether a line begins with a word behind which a carriage return does not count. One that stands right behind the word is a
/// part of it, so that the line begins with another one.
fn begins_with(line: &[u8], word: &[u8]) -> bool {
    match line.strip_prefix(word) {
        Some(rest) => !is_same(rest, b"\r"),
        None => false,
    }
}

/// Whether a carriage return at the end of a line that begins so counts as part of its last word: not that of a comment, whose
/// first byte is `#`.
fn counts_end(line: &[u8]) -> bool {
    let rest = behind_spaces(line);
    !line.starts_with(b"#") && !DIVIDED.iter().any(|word| begins_with(rest, *word))
}

/// The number of the first line of a text that ends with a carriage return which counts, from 1. Lines of which a backslash
/// ends the one before are one with it.
pub(crate) fn first_cr_line(text: &[u8]) -> Option<usize> {
    let mut number = 1usize;
    let mut goes_on = false;
    let mut counts = false;
    for line in text.split(|byte| *byte == b'\n') {
        counts = if goes_on { counts } else { counts_end(line) };
        if counts && ends_with_cr(line) {
            return Some(number);
        }
        goes_on = line.ends_with(b"\\");
        number = number.saturating_add(1);
    }
    None
}

//! Bytes that divide texts, and where they stand.
ghost use Rattle.std.specs.Prelude.{◌≡◌, ◌≤◌, ◌==◌, length, slice_index};
ghost use Rattle.std.specs.List.{after_first, before_first, position_or_len};
ghost use Rattle.text_parts.specs.Text.{is_blank};
ghost use Rattle.kmod_conf.specs.Lines.{is_space, line_text, rest_of, skip_blanks, word_of};

use text_parts::is_blank;

/// Whether the byte is white space, as isspace(3) has it in the C locale.
pub(crate) fn is_space(byte: u8) -> bool
    ensures { result ≡ is_space byte }
{
    byte == b' ' || (byte >= 9 && byte <= 13)
}

/// The byte at a place, 0 past the end.
pub(crate) fn byte_at(text: &[u8], place: usize) -> u8
    ensures { result ≡ slice_index text.now place }
{
    if place < text.len() { text[place] } else { 0 }
}

fn skip_blanks(text: &[u8]) -> &[u8]
    ensures { result.now ≡ skip_blanks text.entry.now }
{
    let mut rest = text;
    while let Some((byte, later)) = rest.split_first() {
        if !is_blank(*byte) {
            break;
        }
        rest = later;
    }
    rest
}

/// Where the first blank stands, or the length.
fn word_len(text: &[u8]) -> usize
    ensures value { result ≡ position_or_len is_blank text.now }
    ensures within { result ≤ length text.now }
{
    text.iter().take_while(|byte| !is_blank(**byte)).count()
}

/// The first word, and what stands after the blank that ends it.
pub(crate) fn cut_word(text: &[u8]) -> (&[u8], &[u8])
    ensures word { result.0.now ≡ word_of text.entry.now }
    ensures rest { result.1.now ≡ rest_of text.entry.now }
{
    let begun = skip_blanks(text);
    let end = word_len(begun);
    if end < begun.len() {
        (&begun[..end], &begun[end + 1..])
    } else {
        (begun, &begun[end..])
    }
}

fn line_len(line: &[u8]) -> usize
    ensures value { result ≡ position_or_len (λ byte. byte == 0) line.now }
    ensures within { result ≤ length line.now }
{
    line.iter().take_while(|byte| **byte != 0).count()
}

/// What stands before the first NUL.
pub(crate) fn line_text(line: &[u8]) -> &[u8]
    ensures { result.now ≡ line_text line.entry.now }
{
    &line[..line_len(line)]
}

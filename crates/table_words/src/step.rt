//! Options in order, up to the first word that is none.
ghost use Rattle.std.specs.Prelude.{◌≡◌, Ok, Err, IfOk, IfErr};
ghost use Rattle.text_parts.specs.Text.{texts_of};
ghost use Rattle.table_words.specs.Options.{ended, front, front_of, next, next_of, options_of, stop_of};

use crate::fault::{Fault, Stop};
use crate::options::{Options, Valued, is_option};

/// What comes of a word: it is no option; what all options say with it, and the option whose value is the next word; or
/// the end.
#[derive(Clone, Copy)]
pub(crate) enum Step<'a> {
    Over,
    On(Options<'a>, Option<Valued>),
    Stopped(Stop<'a>),
}

/// What options say, and the words from the first that is none.
#[derive(Clone, Copy)]
pub(crate) struct Read<'w, 'a> {
    pub(crate) options: Options<'a>,
    pub(crate) rest: &'w [&'a [u8]],
}

/// What comes of a word that may be the value of the option before it.
fn taken<'a>(
    creates: bool,
    options: Options<'a>,
    waiting: Option<Valued>,
    word: &'a [u8],
) -> Step<'a>
    ensures { next_of result ≡ next creates (options_of options.entry) waiting word.entry.now }
{
    match waiting {
        Some(valued) => options.with(valued, word),
        None if is_option(word) => options.with_option(creates, word),
        None => Step::Over,
    }
}

/// What words say that have no further one.
fn ended<'w, 'a>(options: Options<'a>, waiting: Option<Valued>) -> Result<Read<'w, 'a>, Stop<'a>>
    ensures ok { IfOk result (λ read. ended (options_of options.entry) waiting ≡ Ok (front_of read)) }
    ensures err { IfErr result (λ stop. ended (options_of options.entry) waiting ≡ Err (stop_of stop)) }
{
    match waiting {
        Some(valued) => Err(Stop::Refused(Fault::WantsValue(valued))),
        None => Ok(Read { options, rest: &[] }),
    }
}

/// What options say behind others, up to the first word that is none.
pub(crate) fn read_front<'w, 'a>(
    creates: bool,
    options: Options<'a>,
    words: &'w [&'a [u8]],
) -> Result<Read<'w, 'a>, Stop<'a>>
    ensures ok { IfOk result (λ read. front creates (options_of options.entry) (texts_of words.entry.now) ≡ Ok (front_of read)) }
    ensures err { IfErr result (λ stop. front creates (options_of options.entry) (texts_of words.entry.now) ≡ Err (stop_of stop)) }
{
    let (mut options, mut waiting) = (options, None);
    for (at, word) in words.iter().enumerate() {
        let (more, asked) = match taken(creates, options, waiting, *word) {
            Step::On(more, asked) => (more, asked),
            Step::Stopped(stop) => return Err(stop),
            Step::Over => {
                let rest = &words[at..];
                return Ok(Read { options, rest });
            }
        };
        options = more;
        waiting = asked;
    }
    ended(options, waiting)
}

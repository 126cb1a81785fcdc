//! In which form an answer is explained, or linted lines are told.
ghost use Rattle.std.specs.Prelude.{◌≡◌};
ghost use Rattle.modprobe_words.specs.Forms.{form_of};

use text_parts::is_same;

/// In which form an answer is explained, or linted lines are told.
#[derive(Clone, Copy)]
pub enum Form {
    /// Lines for people.
    Text,
    /// The same in JSON.
    Json,
}

impl Form {
    /// The form of the value of `--explain` or `--lint`; None if it is another word.
    pub fn of(word: &[u8]) -> Option<Form>
        ensures { result ≡ form_of word.now }
    {
        if is_same(word, b"json") {
            Some(Form::Json)
        } else {
            None
        }
    }
}

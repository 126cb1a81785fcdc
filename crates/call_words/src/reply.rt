//! What a call answers, in a word.
ghost use Rattle.std.specs.Prelude.{◌≡◌};
ghost use Rattle.call_words.specs.Replies.{reply_in, reply_text, reply_of, is_refusal};

use dep_index::Reply;
use text_parts::is_same;

/// A reply, but for the slot of a need that is not Live.
#[derive(Clone, Copy, Debug, PartialEq, Eq, Drop)]
pub enum ReplyWord {
    Done,
    Yes,
    No,
    NotLive,
    TooMany,
    NotHeld,
    Exists,
    UnknownSymbol,
    NeedNotLive,
    NotLoading,
    NoEntry,
    NeededBy,
    Permanent,
    InUse,
    NotUnloading,
}

/// All of them.
const ALL: [ReplyWord; 15] = [
    ReplyWord::Done,
    ReplyWord::Yes,
    ReplyWord::No,
    ReplyWord::NotLive,
    ReplyWord::TooMany,
    ReplyWord::NotHeld,
    ReplyWord::Exists,
    ReplyWord::UnknownSymbol,
    ReplyWord::NeedNotLive,
    ReplyWord::NotLoading,
    ReplyWord::NoEntry,
    ReplyWord::NeededBy,
    ReplyWord::Permanent,
    ReplyWord::InUse,
    ReplyWord::NotUnloading,
];

impl ReplyWord {
    /// The word of a reply.
    pub fn of(reply: Reply) -> ReplyWord
        ensures { result ≡ reply_in reply }
    {
        match reply {
            Reply::Done => ReplyWord::Done,
            Reply::Yes => ReplyWord::Yes,
            Reply::No => ReplyWord::No,
            Reply::NotLive => ReplyWord::NotLive,
            Reply::TooMany => ReplyWord::TooMany,
            Reply::NotHeld => ReplyWord::NotHeld,
            Reply::Exists => ReplyWord::Exists,
            Reply::UnknownSymbol => ReplyWord::UnknownSymbol,
            Reply::NeedNotLive(_) => ReplyWord::NeedNotLive,
            Reply::NotLoading => ReplyWord::NotLoading,
            Reply::NoEntry => ReplyWord::NoEntry,
            Reply::NeededBy => ReplyWord::NeededBy,
            Reply::Permanent => ReplyWord::Permanent,
            Reply::InUse => ReplyWord::InUse,
            Reply::NotUnloading => ReplyWord::NotUnloading,
        }
    }

    /// The text of the word.
    pub fn text(self) -> &'static str
        ensures { result.now ≡ reply_text self }
    {
        match self {
            ReplyWord::Done => "ok",
            ReplyWord::Yes => "yes",
            ReplyWord::No => "no",
            ReplyWord::NotLive => "NotLive",
            ReplyWord::TooMany => "TooMany",
            ReplyWord::NotHeld => "NotHeld",
            ReplyWord::Exists => "Exists",
            ReplyWord::UnknownSymbol => "UnknownSymbol",
            ReplyWord::NeedNotLive => "NeedNotLive",
            ReplyWord::NotLoading => "NotLoading",
            ReplyWord::NoEntry => "NoEntry",
            ReplyWord::NeededBy => "NeededBy",
            ReplyWord::Permanent => "Permanent",
            ReplyWord::InUse => "InUse",
            ReplyWord::NotUnloading => "NotUnloading",
        }
    }

    /// The reply that a word is the text of. None: it is no reply's.
    pub fn of_word(word: &[u8]) -> Option<ReplyWord>
        ensures { result ≡ reply_of word.now }
    {
        ALL.iter()
            .copied()
            .find(|reply| is_same(word, reply.text().as_bytes()))
    }

    /// Whether the call was refused.
    pub fn is_refusal(self) -> bool
        ensures { result ≡ is_refusal self }
    {
        !matches!(self, ReplyWord::Done | ReplyWord::Yes | ReplyWord::No)
    }
}
